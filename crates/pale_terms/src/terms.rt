//! Paths, terms, and names of sets.

ghost use Rattle.std.specs.Prelude.{◌≡◌, None, IfOk, IfErr, OnOk};
ghost use Rattle.pale_tables.specs.Faults.{IsStop};
ghost use Rattle.pale_terms.specs.Scopes.{meaning_of, base_fault, set_fault};
ghost use Rattle.pale_terms.specs.Terms.{field_under, sort_behind, typed_field, typed_fields, sort_along, typed_path, typed_term};
ghost use Rattle.pale_terms.specs.Terms.{term_at, term_in, is_reference};
ghost use Rattle.pale_terms.specs.Terms.{cell_type, variant_under, variant_test, are_alike, field_fault, fields_fault, length_fault, path_fault, term_fault};
ghost use Rattle.pale_terms.specs.Terms.{reference_fault, compared_fault, cell_fault, variant_test_fault, set_path_fault};

use crate::scope::{Meaning, Scope};
use crate::sort::Sort;
use pale_syntax::{Name, Path, Term as SourceTerm};
use pale_tables::need;
use pale_text::{Pos, Refusal, RefusalKind, TextStop};
use plain_data::Items;
use std::alloc::Global;
use store_core::{FieldId, TypeId, TypeTable, VariantId};
use store_logic::{Base, FieldList, Term};

/// The most fields that a path may have.
const MOST_FIELDS: usize = 1024;

/// A path with its names looked up, and what it stands for.
#[derive(Drop)]
pub struct TypedPath {
    pub base: Base,
    pub fields: FieldList,
    pub sort: Sort,
}

/// A term with its names looked up.
#[derive(Drop)]
pub enum TypedTerm {
    /// `null`, which is of each type.
    Null,
    Path(TypedPath),
}

impl TypedPath {
    /// The term of an assertion. Takes no memory.
    pub fn into_term(self) -> Term
        ensures { result ≡ term_at self }
    {
        let TypedPath {
            base,
            fields,
            sort: _,
        } = self;
        Term::At(base, fields)
    }
}

impl TypedTerm {
    /// Whether it is null or a cell. Takes no memory.
    pub fn is_reference(&self) -> bool
        ensures { result ≡ is_reference self.now }
    {
        match self {
            TypedTerm::Null => true,
            TypedTerm::Path(path) => path.sort.is_cell(),
        }
    }

    /// The type of the cell to which it is a path. Takes no memory.
    pub fn cell_type(&self) -> Option<TypeId>
        ensures { result ≡ cell_type self.now }
    {
        match self {
            TypedTerm::Null => None,
            TypedTerm::Path(path) => path.sort.cell(),
        }
    }

    /// Whether both are cells of one type, or one is null and the other null or a cell. Takes no memory.
    pub fn is_alike(&self, other: &TypedTerm) -> bool
        ensures { result ≡ are_alike self.now other.now }
    {
        match (self, other) {
            (TypedTerm::Null, _) => other.is_reference(),
            (TypedTerm::Path(_), TypedTerm::Null) => self.is_reference(),
            (TypedTerm::Path(one), TypedTerm::Path(other)) => {
                one.sort.is_cell() && other.sort.is_cell() && one.sort.is_of_type_of(other.sort)
            }
        }
    }

    /// The term of an assertion. Takes no memory.
    pub fn into_term(self) -> Term
        ensures { result ≡ term_in self }
    {
        match self {
            TypedTerm::Null => Term::Null,
            TypedTerm::Path(path) => path.into_term(),
        }
    }
}

/// The field of this name that a cell of this sort has.
fn find_under(types: &TypeTable, from: Sort, f: &[u8]) -> Option<FieldId>
    ensures { result ≡ field_under types.now from f.now }
{
    match from {
        Sort::Cell(ty) => types.find_field(ty, f),
        Sort::Truth | Sort::Set(_) => None,
    }
}

/// What a field leads to.
#[tactic(auto, unfolding(crate::specs::Terms::sort_behind))]
fn behind(types: &TypeTable, field: FieldId) -> Sort
    ensures { result ≡ sort_behind types.now field }
{
    match types.kind(field) {
        Some(kind) => Sort::of_field(kind),
        None => Sort::Truth,
    }
}

/// A field of what is of this sort, by its name.
#[tactic(auto, unfolding(crate::specs::Terms::field_fault, crate::specs::Terms::typed_field))]
fn read_field(types: &TypeTable, from: Sort, f: &Name) -> Result<FieldId, TextStop>
    ensures met { OnOk result (field_fault types.now from f.now ≡ None) }
    ensures field { IfOk result (λ field. field ≡ typed_field types.now from f.now) }
    ensures stop { IfErr result (IsStop (field_fault types.now from f.now)) }
{
    need(from.is_cell(), RefusalKind::Type, f.place)?;
    let Some(field) = find_under(types, from, f.bytes.as_slice()) else {
        return Err(TextStop::Refused(Refusal::at(f.place, RefusalKind::Unknown)));
    };
    Ok(field)
}

/// The fields of a path, each of the cell that stands before it, and what the last leads to.
fn read_fields(
    alloc: Global,
    types: &TypeTable,
    start: Sort,
    names: &[Name],
) -> Result<(FieldList, Sort), TextStop>
    ensures met { OnOk result (fields_fault types.now start names.now ≡ None) }
    ensures fields { IfOk result (λ found. found.0 ≡ typed_fields types.now start names.now) }
    ensures sort { IfOk result (λ found. found.1 ≡ sort_along types.now start names.now) }
    ensures stop { IfErr result (IsStop (fields_fault types.now start names.now)) }
{
    let mut fields = Items::new(alloc);
    let mut sort = start;
    for name in names {
        let field = read_field(types, sort, name)?;
        fields.push(field)?;
        sort = behind(types, field);
    }
    Ok((fields, sort))
}

/// Looks at how many fields a path has.
fn check_length(path: &Path) -> Result<(), TextStop>
    ensures met { OnOk result (length_fault path.now ≡ None) }
    ensures stop { IfErr result (IsStop (length_fault path.now)) }
{
    need(
        path.fields.len() <= MOST_FIELDS,
        RefusalKind::LongPath,
        path.base.place,
    )
}

/// What a path begins with.
///
/// # Errors
///
/// `Refused` is `unknown` at a name that isn't visible, and `kind` at one of a set or one that the place may not name.
#[tactic(auto, unfolding(crate::specs::Scopes::base_fault))]
pub fn read_base(scope: &Scope, name: &Name) -> Result<Meaning, TextStop>
    ensures met { OnOk result (base_fault scope.now name.now ≡ None) }
    ensures meaning { IfOk result (λ meaning. meaning ≡ meaning_of scope.now name.now) }
    ensures stop { IfErr result (IsStop (base_fault scope.now name.now)) }
{
    let meaning = scope.find(name)?;
    need(meaning.may_begin_path(), RefusalKind::Kind, name.place)?;
    Ok(meaning)
}

/// The name of a set.
///
/// # Errors
///
/// `Refused` is `unknown` at a name that isn't visible, and `kind` at one of no set or one that the place may not name.
#[tactic(auto, unfolding(crate::specs::Scopes::set_fault))]
pub fn read_set(scope: &Scope, name: &Name) -> Result<Meaning, TextStop>
    ensures met { OnOk result (set_fault scope.now name.now ≡ None) }
    ensures meaning { IfOk result (λ meaning. meaning ≡ meaning_of scope.now name.now) }
    ensures stop { IfErr result (IsStop (set_fault scope.now name.now)) }
{
    let meaning = scope.find(name)?;
    need(meaning.may_be_set(), RefusalKind::Kind, name.place)?;
    Ok(meaning)
}

/// The name of a set, where the text has a path.
///
/// # Errors
///
/// `Refused` is `long-path` at a path with more than 1,024 fields, then as `read_set` says, and `kind` at a path with fields.
#[tactic(auto, unfolding(crate::specs::Terms::set_path_fault))]
pub fn read_set_path(scope: &Scope, path: &Path) -> Result<Meaning, TextStop>
    ensures met { OnOk result (set_path_fault scope.now path.now ≡ None) }
    ensures meaning { IfOk result (λ meaning. meaning ≡ meaning_of scope.now path.now.base) }
    ensures stop { IfErr result (IsStop (set_path_fault scope.now path.now)) }
{
    check_length(path)?;
    let meaning = read_set(scope, &path.base)?;
    need(path.fields.len() == 0, RefusalKind::Kind, path.base.place)?;
    Ok(meaning)
}

/// A path.
///
/// # Errors
///
/// `Refused` is `long-path` at the first name where more than 1,024 fields follow it, before any name is looked up, and then the
/// first fault from the left: those of its first name, as `read_base` says, and then `type` at a field behind a truth value, and
/// `unknown` at a field that the type before it doesn't have.
#[tactic(auto, unfolding(crate::specs::Terms::path_fault, crate::specs::Terms::typed_path))]
pub fn read_path(
    alloc: Global,
    types: &TypeTable,
    scope: &Scope,
    path: &Path,
) -> Result<TypedPath, TextStop>
    ensures met { OnOk result (path_fault types.now scope.now path.now ≡ None) }
    ensures path { IfOk result (λ typed. typed ≡ typed_path types.now scope.now path.now) }
    ensures stop { IfErr result (IsStop (path_fault types.now scope.now path.now)) }
{
    check_length(path)?;
    let meaning = read_base(scope, &path.base)?;
    let (fields, sort) = read_fields(alloc, types, meaning.sort, path.fields.as_slice())?;
    Ok(TypedPath {
        base: meaning.base,
        fields,
        sort,
    })
}

/// A term: `null`, or a path with its faults.
#[tactic(auto, unfolding(crate::specs::Terms::term_fault, crate::specs::Terms::typed_term))]
pub fn read_term(
    alloc: Global,
    types: &TypeTable,
    scope: &Scope,
    term: &SourceTerm,
) -> Result<TypedTerm, TextStop>
    ensures met { OnOk result (term_fault types.now scope.now term.now ≡ None) }
    ensures term { IfOk result (λ typed. typed ≡ typed_term types.now scope.now term.now) }
    ensures stop { IfErr result (IsStop (term_fault types.now scope.now term.now)) }
{
    match term {
        SourceTerm::Null(_) => Ok(TypedTerm::Null),
        SourceTerm::Path(path) => Ok(TypedTerm::Path(read_path(alloc, types, scope, path)?)),
    }
}

/// One side of a comparison.
#[tactic(auto, unfolding(crate::specs::Terms::reference_fault))]
pub fn read_reference(
    alloc: Global,
    types: &TypeTable,
    scope: &Scope,
    term: &SourceTerm,
    operator: Pos,
) -> Result<TypedTerm, TextStop>
    ensures met { OnOk result (reference_fault types.now scope.now term.now operator ≡ None) }
    ensures term { IfOk result (λ typed. typed ≡ typed_term types.now scope.now term.now) }
    ensures stop { IfErr result (IsStop (reference_fault types.now scope.now term.now operator)) }
{
    let term = read_term(alloc, types, scope, term)?;
    need(term.is_reference(), RefusalKind::Type, operator)?;
    Ok(term)
}

/// Both sides of a comparison.
///
/// # Errors
///
/// `Refused` is the first fault from the left: those of the left term, `type` at the operator where it is neither null nor a cell,
/// those of the right term, and `type` at the operator where the two are neither null nor cells of one type.
#[tactic(auto, unfolding(crate::specs::Terms::compared_fault))]
pub fn read_compared(
    alloc: Global,
    types: &TypeTable,
    scope: &Scope,
    left: &SourceTerm,
    operator: Pos,
    right: &SourceTerm,
) -> Result<(TypedTerm, TypedTerm), TextStop>
    ensures met { OnOk result (compared_fault types.now scope.now left.now operator right.now ≡ None) }
    ensures left { IfOk result (λ typed. typed.0 ≡ typed_term types.now scope.now left.now) }
    ensures right { IfOk result (λ typed. typed.1 ≡ typed_term types.now scope.now right.now) }
    ensures stop { IfErr result (IsStop (compared_fault types.now scope.now left.now operator right.now)) }
{
    let left = read_reference(alloc, types, scope, left, operator)?;
    let right = read_term(alloc, types, scope, right)?;
    need(left.is_alike(&right), RefusalKind::Type, operator)?;
    Ok((left, right))
}

/// A path to a cell.
///
/// # Errors
///
/// `Refused` is the first fault of the term, and `type` at the operator where it isn't a path to a cell.
#[tactic(auto, unfolding(crate::specs::Terms::cell_fault))]
pub fn read_cell(
    alloc: Global,
    types: &TypeTable,
    scope: &Scope,
    term: &SourceTerm,
    operator: Pos,
) -> Result<TypedTerm, TextStop>
    ensures met { OnOk result (cell_fault types.now scope.now term.now operator ≡ None) }
    ensures term { IfOk result (λ typed. typed ≡ typed_term types.now scope.now term.now) }
    ensures stop { IfErr result (IsStop (cell_fault types.now scope.now term.now operator)) }
{
    let term = read_term(alloc, types, scope, term)?;
    need(term.cell_type().is_some(), RefusalKind::Type, operator)?;
    Ok(term)
}

/// The named variant of a type.
fn find_variant(types: &TypeTable, ty: Option<TypeId>, v: &[u8]) -> Option<VariantId>
    ensures { result ≡ variant_under types.now ty v.now }
{
    types.find_variant(ty?, v)
}

/// A test for a variant, `t : v`.
///
/// # Errors
///
/// `Refused` as `read_cell` says, and `unknown` at a variant that the type of the cell doesn't have.
#[tactic(auto, unfolding(crate::specs::Terms::variant_test_fault, crate::specs::Terms::variant_test))]
pub fn read_variant_test(
    alloc: Global,
    types: &TypeTable,
    scope: &Scope,
    term: &SourceTerm,
    colon: Pos,
    v: &Name,
) -> Result<(TypedTerm, VariantId), TextStop>
    ensures met { OnOk result (variant_test_fault types.now scope.now term.now colon v.now ≡ None) }
    ensures test { IfOk result (λ test. test ≡ variant_test types.now scope.now term.now v.now) }
    ensures stop { IfErr result (IsStop (variant_test_fault types.now scope.now term.now colon v.now)) }
{
    let term = read_cell(alloc, types, scope, term, colon)?;
    let Some(found) = find_variant(types, term.cell_type(), v.bytes.as_slice()) else {
        return Err(TextStop::Refused(Refusal::at(v.place, RefusalKind::Unknown)));
    };
    Ok((term, found))
}
