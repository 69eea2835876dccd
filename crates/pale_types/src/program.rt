//! Programs.

ghost use Rattle.std.specs.Prelude.{◌≡◌, [], None, map, IfOk, IfErr, OnOk};
ghost use Rattle.store_core.specs.Tables.{place_of};
ghost use Rattle.pale_text.specs.declared.refusal.RefusalKind.TheVariants as kind;
ghost use Rattle.pale_tables.specs.Faults.{IsStop, need};
ghost use Rattle.pale_tables.specs.Names.{is_new, repeated_fault};
ghost use Rattle.pale_tables.specs.Types.{type_names_fault, types_fault, type_table, names_in};
ghost use Rattle.pale_vocabulary.specs.Predicates.{predicates_fault, nothing_with};
ghost use Rattle.pale_types.specs.Programs.{types_in, predicates_in, procedures_in, declared_in, basis_of, typed_list, typed_program};
ghost use Rattle.pale_types.specs.Programs.{names_fault, declarations_fault, list_fault, program_fault};
ghost use Rattle.pale_typed.specs.Fitting.{ProgramFits};

use pale_predicates::{check_predicate_names, read_predicates};
use pale_procedures::{Basis, read_procedures};
use pale_sights::signatures_of;
use pale_syntax::{Declaration, Name, PredicateDeclaration, Procedure, Program, TypeDeclaration};
use pale_tables::{Names, TypeNames, check_type_names, read_names, read_table};
use pale_text::{Refusal, RefusalKind, TextStop};
use pale_typed::Typed;
use pale_vocabulary::Declared;
use std::alloc::{AllocError, Global};

/// The declarations of each kind, in order of the text.
#[derive(Drop)]
struct Sorted<'a> {
    types: Vec<&'a TypeDeclaration>,
    predicates: Vec<&'a PredicateDeclaration>,
    procedures: Vec<&'a Procedure>,
}

fn sort_declarations<'a>(alloc: Global, program: &'a Program) -> Result<Sorted<'a>, AllocError>
    ensures types { IfOk result (λ sorted. map (λ t. t.now) sorted.types.items ≡ types_in program.now) }
    ensures predicates { IfOk result (λ sorted. map (λ p. p.now) sorted.predicates.items ≡ predicates_in program.now) }
    ensures procedures { IfOk result (λ sorted. map (λ p. p.now) sorted.procedures.items ≡ procedures_in program.now) }
{
    let mut sorted = Sorted {
        types: Vec::new(alloc),
        predicates: Vec::new(alloc),
        procedures: Vec::new(alloc),
    };
    for declaration in program.declarations.as_slice() {
        match declaration {
            Declaration::Type(ty) => sorted.types.push(ty)?,
            Declaration::Predicate(predicate) => sorted.predicates.push(predicate)?,
            Declaration::Procedure(procedure) => sorted.procedures.push(procedure)?,
        }
    }
    Ok(sorted)
}

/// Looks at a name after those before it.
fn need_new(before: &Names, name: &Name) -> Result<(), TextStop>
    ensures met { OnOk result (need (is_new before.now name.now.bytes) kind.Duplicate name.now.place ≡ None) }
    ensures new { OnOk result (place_of name.now.bytes before.now ≡ None) }
    ensures stop { IfErr result (IsStop (need (is_new before.now name.now.bytes) kind.Duplicate name.now.place)) }
{
    match before.find(name.bytes.as_slice()) {
        None => Ok(()),
        Some(_) => Err(TextStop::Refused(Refusal::at(name.place, RefusalKind::Duplicate))),
    }
}

/// Looks at the names of procedures, in order of the text.
fn check_procedure_names(alloc: Global, procedures: &[&Procedure]) -> Result<(), TextStop>
    ensures met { OnOk result (repeated_fault [] (map (λ p. p.now.name) procedures.now) ≡ None) }
    ensures stop { IfErr result (IsStop (repeated_fault [] (map (λ p. p.now.name) procedures.now))) }
{
    let mut before = Names::new(alloc);
    for procedure in procedures {
        let name = procedure.name.bytes.as_slice();
        need_new(&before, &procedure.name)?;
        before.add(name)?;
    }
    Ok(())
}

/// What a program declares besides its procedures, where its types declare these names.
#[tactic(auto, unfolding(crate::specs::Programs::declarations_fault))]
fn read_over(
    alloc: Global,
    names: TypeNames,
    types: &[&TypeDeclaration],
    predicates: &[&PredicateDeclaration],
) -> Result<Declared, TextStop>
    requires names { names ≡ names_in (map (λ t. t.now) types.now) }
    requires types { type_names_fault [] (map (λ t. t.now.name) types.now) ≡ None }
    requires predicates { repeated_fault [] (map (λ p. p.now.name) predicates.now) ≡ None }
    ensures met { OnOk result (declarations_fault (map (λ t. t.now) types.now) (map (λ p. p.now) predicates.now) ≡ None) }
    ensures declared { IfOk result (λ declared. declared ≡ declared_in (map (λ t. t.now) types.now) (map (λ p. p.now) predicates.now)) }
    ensures stop { IfErr result (IsStop (declarations_fault (map (λ t. t.now) types.now) (map (λ p. p.now) predicates.now))) }
{
    let table = read_table(alloc, &names, types)?;
    read_predicates(alloc, table, names, predicates)
}

/// What a program declares besides its procedures, whose names have no fault.
fn read_declared(
    alloc: Global,
    types: &[&TypeDeclaration],
    predicates: &[&PredicateDeclaration],
) -> Result<Declared, TextStop>
    requires types { type_names_fault [] (map (λ t. t.now.name) types.now) ≡ None }
    requires predicates { repeated_fault [] (map (λ p. p.now.name) predicates.now) ≡ None }
    ensures met { OnOk result (declarations_fault (map (λ t. t.now) types.now) (map (λ p. p.now) predicates.now) ≡ None) }
    ensures declared { IfOk result (λ declared. declared ≡ declared_in (map (λ t. t.now) types.now) (map (λ p. p.now) predicates.now)) }
    ensures stop { IfErr result (IsStop (declarations_fault (map (λ t. t.now) types.now) (map (λ p. p.now) predicates.now))) }
{
    let names = read_names(alloc, types)?;
    read_over(alloc, names, types, predicates)
}

/// Looks at the names that a program declares.
#[tactic(auto, unfolding(crate::specs::Programs::names_fault), using(crate::proofs::ProgramLemmas::mapped))]
fn check_names(
    alloc: Global,
    types: &[&TypeDeclaration],
    predicates: &[&PredicateDeclaration],
    procedures: &[&Procedure],
) -> Result<(), TextStop>
    ensures met { OnOk result (names_fault (map (λ t. t.now) types.now) (map (λ p. p.now) predicates.now) (map (λ p. p.now) procedures.now) ≡ None) }
    ensures stop { IfErr result (IsStop (names_fault (map (λ t. t.now) types.now) (map (λ p. p.now) predicates.now) (map (λ p. p.now) procedures.now))) }
{
    check_type_names(alloc, types)?;
    check_predicate_names(alloc, predicates)?;
    check_procedure_names(alloc, procedures)
}

/// What all procedures may use. No name has a fault.
fn read_basis(
    alloc: Global,
    types: &[&TypeDeclaration],
    predicates: &[&PredicateDeclaration],
    procedures: &[&Procedure],
) -> Result<Basis, TextStop>
    requires { names_fault (map (λ t. t.now) types.now) (map (λ p. p.now) predicates.now) (map (λ p. p.now) procedures.now) ≡ None }
    ensures met { OnOk result (declarations_fault (map (λ t. t.now) types.now) (map (λ p. p.now) predicates.now) ≡ None) }
    ensures basis { IfOk result (λ basis. basis ≡ basis_of (map (λ t. t.now) types.now) (map (λ p. p.now) predicates.now) (map (λ p. p.now) procedures.now)) }
    ensures stop { IfErr result (IsStop (declarations_fault (map (λ t. t.now) types.now) (map (λ p. p.now) predicates.now))) }
{
    let declared = read_declared(alloc, types, predicates)?;
    let signatures = signatures_of(alloc, &declared.vocabulary.types, procedures)?;
    Ok(Basis {
        declared,
        procedures: signatures,
    })
}

/// The types and procedures of these declarations.
#[tactic(auto, unfolding(crate::specs::Programs::list_fault, crate::specs::Programs::typed_list))]
fn read_list(
    alloc: Global,
    types: &[&TypeDeclaration],
    predicates: &[&PredicateDeclaration],
    procedures: &[&Procedure],
) -> Result<Typed, TextStop>
    ensures met { OnOk result (list_fault (map (λ t. t.now) types.now) (map (λ p. p.now) predicates.now) (map (λ p. p.now) procedures.now) ≡ None) }
    ensures typed { IfOk result (λ typed. typed ≡ typed_list (map (λ t. t.now) types.now) (map (λ p. p.now) predicates.now) (map (λ p. p.now) procedures.now)) }
    ensures stop { IfErr result (IsStop (list_fault (map (λ t. t.now) types.now) (map (λ p. p.now) predicates.now) (map (λ p. p.now) procedures.now))) }
{
    check_names(alloc, types, predicates, procedures)?;
    let basis = read_basis(alloc, types, predicates, procedures)?;
    let procs = read_procedures(alloc, &basis, procedures)?;
    Ok(Typed::new(basis.declared.vocabulary.types, procs))
}

/// A program with its names looked up and its predicates put in, which fits.
///
/// # Errors
///
/// `Refused` is the first fault: `duplicate` and `many-types` at the names of types, then of predicates, then of procedures; and
/// then the faults of the types, of the predicates and of the procedures, each kind in order of the text.
pub fn check_types(alloc: Global, program: &Program) -> Result<Typed, TextStop>
    ensures met { OnOk result (program_fault program.now ≡ None) }
    ensures typed { IfOk result (λ typed. typed ≡ typed_program program.now) }
    ensures fits { IfOk result ProgramFits }
    ensures stop { IfErr result (IsStop (program_fault program.now)) }
{
    let sorted = sort_declarations(alloc, program)?;
    read_list(
        alloc,
        sorted.types.as_slice(),
        sorted.predicates.as_slice(),
        sorted.procedures.as_slice(),
    )
}
