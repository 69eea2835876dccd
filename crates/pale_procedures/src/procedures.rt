//! Procedures.

ghost use Rattle.std.specs.Prelude.{◌≡◌, None, map, IfOk, IfErr, OnOk};
ghost use Rattle.pale_tables.specs.Faults.{IsStop, first_of};
ghost use Rattle.pale_fitting.specs.Declaring.{DeclarationsFit};
ghost use Rattle.pale_sights.specs.Sights.{frame_of};
ghost use Rattle.pale_sights.specs.Framing.{IsBody, IsFrame};
ghost use Rattle.pale_sights.specs.Headings.{heading_of, heading_names, heading_fault};
ghost use Rattle.pale_procedures.specs.Statements.{types_of, block_fault};
ghost use Rattle.pale_procedures.specs.Procedures.{entry_of, entry_with, typed_procedure, procedure_fault};

use crate::basis::Basis;
use crate::claims::{Claims, read_claims};
use crate::statements::read_block;
use pale_sights::{
    Frame, Heading, Lists, Variable, frame_of, lists_of, read_heading, read_variables,
};
use pale_syntax::Procedure;
use pale_tables::Names;
use pale_text::TextStop;
use pale_typed::{ProcEntry, TypedProc};
use plain_data::Items;
use std::alloc::Global;

/// The statements, where the body has these locals.
#[tactic(auto, unfolding(crate::specs::Procedures::typed_procedure))]
fn read_body(
    alloc: Global,
    basis: &Basis,
    lists: Lists,
    claims: Claims,
    frame: Frame,
    procedure: &Procedure,
) -> Result<ProcEntry, TextStop>
    requires declarations { DeclarationsFit basis.now.declared }
    requires frame { IsFrame frame }
    ensures met { OnOk result (block_fault basis.now frame procedure.now.body ≡ None) }
    ensures entry { IfOk result (λ entry. entry ≡ entry_of basis.now lists claims frame procedure.now) }
    ensures stop { IfErr result (IsStop (block_fault basis.now frame procedure.now.body)) }
{
    let mut frame = frame;
    let body = read_block(alloc, basis, &mut frame, procedure.body.as_slice())?;
    let name = Items::from_slice(alloc, procedure.name.bytes.as_slice())?;
    let proc = TypedProc {
        name,
        place: procedure.place,
        last: procedure.end.line,
        params: lists.params,
        results: lists.results,
        locals: lists.locals,
        logics: lists.logics,
        pre: claims.pre,
        post: claims.post,
        body,
    };
    Ok(ProcEntry {
        vars: frame.vars,
        proc,
    })
}

/// A procedure with this heading, these claims and these locals: its statements.
fn read_entry(
    alloc: Global,
    basis: &Basis,
    heading: &Heading,
    locals: &[Variable],
    claims: Claims,
    procedure: &Procedure,
) -> Result<ProcEntry, TextStop>
    requires declarations { DeclarationsFit basis.now.declared }
    requires names { IsBody heading.now locals.now }
    requires frame { IsFrame (frame_of heading.now locals.now) }
    ensures met { OnOk result (block_fault basis.now (frame_of heading.now locals.now) procedure.now.body ≡ None) }
    ensures entry { IfOk result (λ entry. entry ≡ entry_with basis.now heading.now locals.now claims procedure.now) }
    ensures stop { IfErr result (IsStop (block_fault basis.now (frame_of heading.now locals.now) procedure.now.body)) }
{
    let frame = frame_of(alloc, heading, locals)?;
    let lists = lists_of(alloc, heading, locals)?;
    read_body(alloc, basis, lists, claims, frame, procedure)
}

/// A procedure whose heading has no fault and declares these names: its claims, its locals and its statements.
fn read_under(
    alloc: Global,
    basis: &Basis,
    before: &mut Names,
    heading: &Heading,
    procedure: &Procedure,
) -> Result<ProcEntry, TextStop>
    requires declarations { DeclarationsFit basis.now.declared }
    requires met { heading_fault (types_of basis.now) procedure.now ≡ None }
    requires heading { heading.now ≡ heading_of (types_of basis.now) procedure.now }
    requires names { before.old ≡ heading_names procedure.now }
    ensures met { OnOk result (procedure_fault basis.now procedure.now ≡ None) }
    ensures entry { IfOk result (λ entry. entry ≡ typed_procedure basis.now procedure.now) }
    ensures stop { IfErr result (IsStop (procedure_fault basis.now procedure.now)) }
{
    let types = &basis.declared.vocabulary.types;
    let claims = read_claims(alloc, &basis.declared, heading, procedure)?;
    let locals = read_variables(alloc, types, before, procedure.locals.as_slice())?;
    read_entry(alloc, basis, heading, locals.as_slice(), claims, procedure)
}

/// A procedure with its names looked up and predicates put in.
#[tactic(auto, unfolding(crate::specs::Procedures::procedure_fault))]
fn read_procedure(
    alloc: Global,
    basis: &Basis,
    procedure: &Procedure,
) -> Result<ProcEntry, TextStop>
    requires { DeclarationsFit basis.now.declared }
    ensures met { OnOk result (procedure_fault basis.now procedure.now ≡ None) }
    ensures entry { IfOk result (λ entry. entry ≡ typed_procedure basis.now procedure.now) }
    ensures stop { IfErr result (IsStop (procedure_fault basis.now procedure.now)) }
{
    let types = &basis.declared.vocabulary.types;
    let mut before = Names::new(alloc);
    let heading = read_heading(alloc, types, &mut before, procedure)?;
    read_under(alloc, basis, &mut before, &heading, procedure)
}

/// The procedures in order.
///
/// # Errors
///
/// `Refused` is the first fault: in each procedure its parameters, results, logic variables, `pre`, `post`, locals and statements.
pub fn read_procedures(
    alloc: Global,
    basis: &Basis,
    procedures: &[&Procedure],
) -> Result<Items<ProcEntry>, TextStop>
    requires { DeclarationsFit basis.now.declared }
    ensures met { OnOk result (first_of (procedure_fault basis.now) (map (λ p. p.now) procedures.now) ≡ None) }
    ensures entries { IfOk result (λ entries. entries ≡ map (typed_procedure basis.now) (map (λ p. p.now) procedures.now)) }
    ensures stop { IfErr result (IsStop (first_of (procedure_fault basis.now) (map (λ p. p.now) procedures.now))) }
{
    let mut entries = Items::new(alloc);
    for procedure in procedures {
        let entry = read_procedure(alloc, basis, procedure)?;
        entries.push(entry)?;
    }
    Ok(entries)
}
