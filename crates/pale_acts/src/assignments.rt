//! Assignments, and `free`.

ghost use Rattle.std.specs.Prelude.{◌≡◌, None, IfOk, IfErr, OnOk};
ghost use Rattle.std.specs.Option.{option_copied};
ghost use Rattle.pale_tables.specs.Faults.{IsStop};
ghost use Rattle.pale_acts.specs.Assignments.{variant_fault, variant_of, new_type_fault, type_of, new_fault, new_of};
ghost use Rattle.pale_acts.specs.Assignments.{term_alone, is_value_for, cell_fault, cell_of, value_fault, value_of, assignment_fault, assignment_of};
ghost use Rattle.pale_acts.specs.Assignments.{may_be_freed, free_fault, free_of};

use crate::conditions::read_condition;
use crate::operands::{operand_in, path_in, var_in};
use pale_syntax::{Condition, Name, Path as SourcePath, Term as SourceTerm, Value};
use pale_tables::need;
use pale_terms::{Meaning, Scope, Sort, TypedTerm, read_path, read_term};
use pale_text::{Pos, Refusal, RefusalKind, TextStop};
use std::alloc::Global;
use store_core::{TypeId, TypeTable, VariantId};
use store_logic::{Act, Operand, Rhs};

/// The variant of a new cell: the one without a name, or a named one.
#[tactic(auto, unfolding(crate::specs::Assignments::variant_fault, crate::specs::Assignments::variant_of))]
fn read_variant(
    types: &TypeTable,
    ty: TypeId,
    name: &Name,
    variant: &Option<Name>,
) -> Result<VariantId, TextStop>
    ensures met { OnOk result (variant_fault types.now ty name.now variant.now ≡ None) }
    ensures variant { IfOk result (λ found. found ≡ variant_of types.now ty variant.now) }
    ensures stop { IfErr result (IsStop (variant_fault types.now ty name.now variant.now)) }
{
    match variant {
        None => match types.unnamed(ty) {
            Some(unnamed) => Ok(unnamed),
            None => Err(TextStop::Refused(Refusal::at(name.place, RefusalKind::Kind))),
        },
        Some(v) => match types.find_variant(ty, v.bytes.as_slice()) {
            Some(found) => Ok(found),
            None => Err(TextStop::Refused(Refusal::at(v.place, RefusalKind::Unknown))),
        },
    }
}

/// The type of this name.
#[tactic(auto, unfolding(crate::specs::Assignments::new_type_fault, crate::specs::Assignments::type_of))]
fn read_type(types: &TypeTable, ty: &Name) -> Result<TypeId, TextStop>
    ensures met { OnOk result (new_type_fault types.now ty.now ≡ None) }
    ensures ty { IfOk result (λ found. found ≡ type_of types.now ty.now) }
    ensures stop { IfErr result (IsStop (new_type_fault types.now ty.now)) }
{
    match types.find_type(ty.bytes.as_slice()) {
        Some(found) => Ok(found),
        None => Err(TextStop::Refused(Refusal::at(ty.place, RefusalKind::Unknown))),
    }
}

/// A new cell, for a place of this sort.
#[tactic(auto, unfolding(crate::specs::Assignments::new_fault, crate::specs::Assignments::new_of))]
fn read_new(
    types: &TypeTable,
    sort: Sort,
    word: Pos,
    ty: &Name,
    variant: &Option<Name>,
) -> Result<VariantId, TextStop>
    ensures met { OnOk result (new_fault types.now sort word ty.now variant.now ≡ None) }
    ensures variant { IfOk result (λ found. found ≡ new_of types.now ty.now variant.now) }
    ensures stop { IfErr result (IsStop (new_fault types.now sort word ty.now variant.now)) }
{
    need(sort.is_cell(), RefusalKind::Type, word)?;
    let found = read_type(types, ty)?;
    need(
        sort.is_of_type_of(Sort::Cell(found)),
        RefusalKind::Type,
        word,
    )?;
    read_variant(types, found, ty, variant)
}

/// The term of a condition that is a term alone.
fn term_alone(condition: &Condition) -> Option<&SourceTerm>
    ensures { option_copied result ≡ term_alone condition.now }
{
    match condition {
        Condition::Truth(term) => Some(term),
        _ => None,
    }
}

/// Whether a term is null, or a cell of the type of a place.
fn is_value_for(sort: Sort, term: &TypedTerm) -> bool
    ensures { result ≡ is_value_for sort term.now }
{
    match term {
        TypedTerm::Null => true,
        TypedTerm::Path(path) => path.sort.is_cell() && sort.is_of_type_of(path.sort),
    }
}

/// What is assigned to a place of cells.
#[tactic(auto, unfolding(crate::specs::Assignments::cell_fault, crate::specs::Assignments::cell_of))]
fn read_cell(
    alloc: Global,
    types: &TypeTable,
    scope: &Scope,
    sort: Sort,
    first: Pos,
    condition: &Condition,
) -> Result<Operand, TextStop>
    ensures met { OnOk result (cell_fault types.now scope.now sort first condition.now ≡ None) }
    ensures operand { IfOk result (λ operand. operand ≡ cell_of types.now scope.now condition.now) }
    ensures stop { IfErr result (IsStop (cell_fault types.now scope.now sort first condition.now)) }
{
    let Some(term) = term_alone(condition) else {
        return Err(TextStop::Refused(Refusal::at(first, RefusalKind::Type)));
    };
    let typed = read_term(alloc, types, scope, term)?;
    need(is_value_for(sort, &typed), RefusalKind::Type, first)?;
    Ok(operand_in(typed))
}

/// What is assigned to a place of this sort.
#[tactic(auto, unfolding(crate::specs::Assignments::value_fault, crate::specs::Assignments::value_of))]
fn read_value(
    alloc: Global,
    types: &TypeTable,
    scope: &Scope,
    sort: Sort,
    value: &Value,
) -> Result<Rhs, TextStop>
    ensures met { OnOk result (value_fault types.now scope.now sort value.now ≡ None) }
    ensures value { IfOk result (λ made. made ≡ value_of types.now scope.now sort value.now) }
    ensures stop { IfErr result (IsStop (value_fault types.now scope.now sort value.now)) }
{
    match value {
        Value::New(word, ty, variant) => Ok(Rhs::New(read_new(types, sort, *word, ty, variant)?)),
        Value::Condition(first, condition) => {
            if sort.is_truth() {
                return Ok(Rhs::Truth(read_condition(alloc, types, scope, condition)?));
            }
            Ok(Rhs::Cell(read_cell(alloc, types, scope, sort, *first, condition)?))
        }
    }
}

/// `p = ..`
///
/// # Errors
///
/// `Refused` is the first fault from the left: those of the place, and then of what is assigned. For `new` that is `type` at the
/// word at a truth value, `unknown` at a type that isn't there, `type` at the word at a place of another type, and `kind` or
/// `unknown` where the type has named variants and none is given, or not this one. A truth value gets a condition, and a cell a
/// term alone, `null` or of its type: `type` at the first token otherwise.
#[tactic(auto, unfolding(crate::specs::Assignments::assignment_fault, crate::specs::Assignments::assignment_of))]
pub fn read_assignment(
    alloc: Global,
    types: &TypeTable,
    scope: &Scope,
    place: &SourcePath,
    value: &Value,
) -> Result<Act, TextStop>
    ensures met { OnOk result (assignment_fault types.now scope.now place.now value.now ≡ None) }
    ensures act { IfOk result (λ act. act ≡ assignment_of types.now scope.now place.now value.now) }
    ensures stop { IfErr result (IsStop (assignment_fault types.now scope.now place.now value.now)) }
{
    let place = read_path(alloc, types, scope, place)?;
    let value = read_value(alloc, types, scope, place.sort, value)?;
    Ok(Act::Assign(path_in(place), value))
}

/// Whether a name may be freed.
fn may_be_freed(meaning: &Meaning) -> bool
    ensures { result ≡ may_be_freed meaning.now }
{
    meaning.may && meaning.sort.is_cell()
}

/// `free x`
///
/// # Errors
///
/// `Refused` is `unknown` at a name that isn't visible, and `kind` at one that isn't that of a data or pointer variable.
#[tactic(auto, unfolding(crate::specs::Assignments::free_fault, crate::specs::Assignments::free_of))]
pub fn read_free(scope: &Scope, name: &Name) -> Result<Act, TextStop>
    ensures met { OnOk result (free_fault scope.now name.now ≡ None) }
    ensures act { IfOk result (λ act. act ≡ free_of scope.now name.now) }
    ensures stop { IfErr result (IsStop (free_fault scope.now name.now)) }
{
    let meaning = scope.find(name)?;
    need(may_be_freed(&meaning), RefusalKind::Kind, name.place)?;
    Ok(Act::Free(var_in(meaning.base)))
}
