//! The report of a triple's start.

ghost use Rattle.std.specs.Prelude.{◌≡◌, ◌++◌, IfOk, OnOk};
ghost use Rattle.bdd_nodes.specs.Shelf.{limit_of};
ghost use Rattle.gta_keep.specs.Holding.{HasNoTables};
ghost use Rattle.witness_store.specs.Alike.{AreFunctional};
ghost use Rattle.pale_typed.specs.Fitting.{ProgramFits};
ghost use Rattle.hoare_split.specs.Fitting.{FitsProgram};
ghost use Rattle.program_judge.specs.Meets.{ReportsMeet, met_line, empty_line};
ghost use Rattle.program_judge.specs.Starts.{asking};

use crate::asking::asking;
use crate::lines::{push_limit, push_triple_head};
use crate::meet_way::MeetWay;
use bdd_nodes::Shelf;
use pale_typed::Typed;
use std::alloc::{AllocError, Global};
use store_exec::Triple;
use store_text::store_text;
use triple_judge::{Judged, judge};
use ws2s_pass::PassList;

/// `triple K PROC line L met`
fn push_met(
    alloc: Global,
    text: &mut Vec<u8>,
    number: u64,
    name: &[u8],
    line: u32,
) -> Result<(), AllocError>
    ensures { OnOk result (text.new.items ≡ text.old.items ++ met_line number name.now line) }
{
    push_triple_head(alloc, text, number, name, line)?;
    text.extend_from_slice(b" met\n")
}

/// `triple K PROC line L empty`
fn push_empty(
    alloc: Global,
    text: &mut Vec<u8>,
    number: u64,
    name: &[u8],
    line: u32,
) -> Result<(), AllocError>
    ensures { OnOk result (text.new.items ≡ text.old.items ++ empty_line number name.now line) }
{
    push_triple_head(alloc, text, number, name, line)?;
    text.extend_from_slice(b" empty\n")
}

/// What is written of the start of a triple, by the one that asks for the stores which meet it.
fn report_of(
    alloc: Global,
    typed: &Typed,
    number: u64,
    asked: &Triple,
    passes: &PassList,
    shelf: &mut Shelf,
) -> Result<(Vec<u8>, MeetWay), AllocError>
    requires program { ProgramFits typed.now }
    requires triple { FitsProgram typed.now asked.now }
    requires functional { AreFunctional typed.now.types }
    requires tables { HasNoTables shelf.old }
    ensures report { IfOk result (λ report. (t : _) → FitsProgram typed.now t → asked.now ≡ asking t →
        ReportsMeet (limit_of shelf.old) typed.now number t report.0.items report.1) }
    ensures tables { HasNoTables shelf.new }
    ensures same_limit { limit_of shelf.new ≡ limit_of shelf.old }
{
    let types = typed.types();
    let Some(vars) = typed.vars(asked.proc) else {
        unreachable!()
    };
    let Some(proc) = typed.proc(asked.proc) else {
        unreachable!()
    };
    let name = proc.name.as_slice();
    let mut text = Vec::new(alloc);
    match judge(alloc, types, vars, asked, passes, shelf)? {
        Judged::Valid => {
            push_empty(alloc, &mut text, number, name, asked.line)?;
            Ok((text, MeetWay::Empty))
        }
        Judged::Invalid(store, _cause, _at) => {
            let told = store_text(alloc, types, vars, &store)?;
            push_met(alloc, &mut text, number, name, asked.line)?;
            text.extend_from_slice(told.as_slice())?;
            Ok((text, MeetWay::Met))
        }
        Judged::Limit => {
            push_limit(alloc, &mut text, number, name, asked.line)?;
            Ok((text, MeetWay::Limit))
        }
    }
}

/// What is written of the start of the triple with this number, counted from 1, and how it was told: a least store that meets the
/// triple; that none does; or that it came to the limit, only where the Peak of its start exceeds that of the shelf. The program and
/// the triple fit, and every pointer field of the program is functional.
///
/// # Errors
///
/// Want of memory, as for [`judge`].
pub fn meet_report(
    alloc: Global,
    typed: &Typed,
    number: u64,
    t: &Triple,
    passes: &PassList,
    shelf: &mut Shelf,
) -> Result<(Vec<u8>, MeetWay), AllocError>
    requires program { ProgramFits typed.now }
    requires triple { FitsProgram typed.now t.now }
    requires functional { AreFunctional typed.now.types }
    requires tables { HasNoTables shelf.old }
    ensures report { IfOk result (λ report. ReportsMeet (limit_of shelf.old) typed.now number t.now report.0.items report.1) }
    ensures tables { HasNoTables shelf.new }
    ensures same_limit { limit_of shelf.new ≡ limit_of shelf.old }
{
    let asked = asking(alloc, t)?;
    report_of(alloc, typed, number, &asked, passes, shelf)
}
