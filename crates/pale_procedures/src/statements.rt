//! Statements.

ghost use Rattle.std.specs.Prelude.{◌≡◌, None, map, IfOk, IfErr, OnOk};
ghost use Rattle.pale_tables.specs.Faults.{IsStop, first_of};
ghost use Rattle.store_logic.specs.declared.act.Act.TheVariants as act;
ghost use Rattle.pale_acts.specs.Assignments.{assignment_fault, assignment_of, free_fault, free_of};
ghost use Rattle.pale_vocabulary.specs.Predicates.{bracketed_fault};
ghost use Rattle.pale_fitting.specs.Declaring.{DeclarationsFit};
ghost use Rattle.pale_sights.specs.Framing.{IsFrame};
ghost use Rattle.pale_procedures.specs.Stated.{stated};
ghost use Rattle.pale_procedures.specs.Statements.{typed_statement, typed_block, statement_fault, block_fault};

use crate::basis::Basis;
use crate::calls::read_called;
use crate::stated::read_stated;
use pale_acts::{read_assignment, read_condition, read_free};
use pale_sights::Frame;
use pale_syntax::{Bracketed, Name, Path, Statement, Value};
use pale_terms::Scope;
use pale_text::{Pos, TextStop};
use pale_typed::{Stmt, StmtList};
use plain_data::Items;
use std::alloc::Global;
use store_core::TypeTable;
use store_logic::Act;

/// `split [F];`
#[tactic(auto, using(crate::proofs::StatementLemmas::frames))]
fn read_split(
    alloc: Global,
    basis: &Basis,
    frame: &mut Frame,
    place: Pos,
    assertion: &Bracketed,
) -> Result<Stmt, TextStop>
    requires declarations { DeclarationsFit basis.now.declared }
    requires frame { IsFrame frame.old }
    ensures met { OnOk result (bracketed_fault basis.now.declared frame.old.stated assertion.now ≡ None) }
    ensures statement { IfOk result (λ made. made ≡ Stmt.Split place (stated basis.now.declared frame.old.stated assertion.now)) }
    ensures frame { frame.new ≡ frame.old }
    ensures stop { IfErr result (IsStop (bracketed_fault basis.now.declared frame.old.stated assertion.now)) }
{
    let assertion = read_stated(alloc, &basis.declared, &mut frame.stated, assertion)?;
    Ok(Stmt::Split(place, assertion))
}

/// `assert [F];`
#[tactic(auto, using(crate::proofs::StatementLemmas::frames))]
fn read_assert(
    alloc: Global,
    basis: &Basis,
    frame: &mut Frame,
    place: Pos,
    assertion: &Bracketed,
) -> Result<Stmt, TextStop>
    requires declarations { DeclarationsFit basis.now.declared }
    requires frame { IsFrame frame.old }
    ensures met { OnOk result (bracketed_fault basis.now.declared frame.old.stated assertion.now ≡ None) }
    ensures statement { IfOk result (λ made. made ≡ Stmt.Do place.line (act.Assert (stated basis.now.declared frame.old.stated assertion.now))) }
    ensures frame { frame.new ≡ frame.old }
    ensures stop { IfErr result (IsStop (bracketed_fault basis.now.declared frame.old.stated assertion.now)) }
{
    let assertion = read_stated(alloc, &basis.declared, &mut frame.stated, assertion)?;
    Ok(Stmt::Do(place.line, Act::Assert(assertion)))
}

/// `free x;`
fn read_freed(scope: &Scope, place: Pos, name: &Name) -> Result<Stmt, TextStop>
    ensures met { OnOk result (free_fault scope.now name.now ≡ None) }
    ensures statement { IfOk result (λ made. made ≡ Stmt.Do place.line (free_of scope.now name.now)) }
    ensures stop { IfErr result (IsStop (free_fault scope.now name.now)) }
{
    let act = read_free(scope, name)?;
    Ok(Stmt::Do(place.line, act))
}

/// `p = v;`
fn read_assigned(
    alloc: Global,
    types: &TypeTable,
    scope: &Scope,
    path: &Path,
    value: &Value,
) -> Result<Stmt, TextStop>
    ensures met { OnOk result (assignment_fault types.now scope.now path.now value.now ≡ None) }
    ensures statement { IfOk result (λ made. made ≡ Stmt.Do path.now.base.place.line (assignment_of types.now scope.now path.now value.now)) }
    ensures stop { IfErr result (IsStop (assignment_fault types.now scope.now path.now value.now)) }
{
    let act = read_assignment(alloc, types, scope, path, value)?;
    Ok(Stmt::Do(path.base.place.line, act))
}

/// A statement with its names looked up and predicates put in. The frame is in the end as it was.
#[cycle(statements)]
#[tactic(auto, using(crate::proofs::StatementLemmas::statement_forms, pale_tables::proofs::FaultLemmas::stops))]
fn read_statement(
    alloc: Global,
    basis: &Basis,
    frame: &mut Frame,
    statement: &Statement,
) -> Result<Stmt, TextStop>
    requires declarations { DeclarationsFit basis.now.declared }
    requires frame { IsFrame frame.old }
    ensures met { OnOk result (statement_fault basis.now frame.old statement.now ≡ None) }
    ensures statement { IfOk result (λ made. made ≡ typed_statement basis.now frame.old statement.now) }
    ensures frame { frame.new ≡ frame.old }
    ensures stop { IfErr result (IsStop (statement_fault basis.now frame.old statement.now)) }
{
    let types = &basis.declared.vocabulary.types;
    match statement {
        Statement::Skip(_) => Ok(Stmt::Skip),
        Statement::If(place, condition, yes, no) => {
            let condition = read_condition(alloc, types, &frame.code, condition)?;
            let yes = read_block(alloc, basis, frame, yes.as_slice())?;
            let Some(block) = no else {
                return Ok(Stmt::If(place.line, condition, yes, Items::new(alloc)));
            };
            let no = read_block(alloc, basis, frame, block.as_slice())?;
            Ok(Stmt::If(place.line, condition, yes, no))
        }
        Statement::While(place, condition, invariant, body) => {
            let condition = read_condition(alloc, types, &frame.code, condition)?;
            let invariant = read_stated(alloc, &basis.declared, &mut frame.stated, invariant)?;
            let body = read_block(alloc, basis, frame, body.as_slice())?;
            Ok(Stmt::While(*place, condition, invariant, body))
        }
        Statement::Split(place, assertion) => read_split(alloc, basis, frame, *place, assertion),
        Statement::Assert(place, assertion) => read_assert(alloc, basis, frame, *place, assertion),
        Statement::Free(place, name) => read_freed(&frame.code, *place, name),
        Statement::Call(call) => read_called(alloc, basis, frame, call),
        Statement::Assign(path, _, value) => {
            read_assigned(alloc, types, &frame.code, path, value)
        }
    }
}

/// Statements in order. The frame is in the end as it was.
///
/// # Errors
///
/// `Refused` is the first fault: of a condition, an act, an assertion or a call, parts of a statement in order of the text.
#[cycle(statements)]
pub(crate) fn read_block(
    alloc: Global,
    basis: &Basis,
    frame: &mut Frame,
    block: &[Statement],
) -> Result<StmtList, TextStop>
    requires declarations { DeclarationsFit basis.now.declared }
    requires frame { IsFrame frame.old }
    ensures met { OnOk result (block_fault basis.now frame.old block.now ≡ None) }
    ensures found { IfOk result (λ found. found ≡ typed_block basis.now frame.old block.now) }
    ensures frame { frame.new ≡ frame.old }
    ensures stop { IfErr result (IsStop (block_fault basis.now frame.old block.now)) }
{
    let mut found = Items::new(alloc);
    for statement in block {
        let next = read_statement(alloc, basis, frame, statement)?;
        found.push(next)?;
    }
    Ok(found)
}
