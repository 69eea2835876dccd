//! The report of a triple.

ghost use Rattle.std.specs.Prelude.{◌≡◌, IfOk};
ghost use Rattle.bdd_nodes.specs.Shelf.{limit_of};
ghost use Rattle.gta_keep.specs.Holding.{HasNoTables};
ghost use Rattle.witness_store.specs.Alike.{AreFunctional};
ghost use Rattle.pale_typed.specs.Fitting.{ProgramFits};
ghost use Rattle.hoare_split.specs.Fitting.{FitsProgram};
ghost use Rattle.program_judge.specs.Reports.{ReportsTriple};

use crate::TripleWay;
use crate::lines::{push_invalid, push_limit, push_valid};
use bdd_nodes::Shelf;
use pale_typed::Typed;
use std::alloc::{AllocError, Global};
use store_exec::Triple;
use store_text::store_text;
use triple_judge::{Judged, judge};
use ws2s_pass::PassList;

/// What is written of the triple with this number, counted from 1, and how it was judged. The program and the triple fit, and every
/// pointer field of the program is functional.
///
/// # Errors
///
/// Want of memory, as for [`judge`].
pub fn triple_report(
    alloc: Global,
    typed: &Typed,
    number: u64,
    t: &Triple,
    passes: &PassList,
    shelf: &mut Shelf,
) -> Result<(Vec<u8>, TripleWay), AllocError>
    requires program { ProgramFits typed.now }
    requires triple { FitsProgram typed.now t.now }
    requires functional { AreFunctional typed.now.types }
    requires tables { HasNoTables shelf.old }
    ensures report { IfOk result (λ report. ReportsTriple (limit_of shelf.old) typed.now number t.now report.0.items report.1) }
    ensures tables { HasNoTables shelf.new }
    ensures same_limit { limit_of shelf.new ≡ limit_of shelf.old }
{
    let types = typed.types();
    let Some(vars) = typed.vars(t.proc) else {
        unreachable!()
    };
    let Some(proc) = typed.proc(t.proc) else {
        unreachable!()
    };
    let name = proc.name.as_slice();
    let mut text = Vec::new(alloc);
    match judge(alloc, types, vars, t, passes, shelf)? {
        Judged::Valid => {
            push_valid(alloc, &mut text, number, name, t.line)?;
            Ok((text, TripleWay::Valid))
        }
        Judged::Invalid(store, cause, at) => {
            let told = store_text(alloc, types, vars, &store)?;
            push_invalid(alloc, &mut text, number, name, t.line, cause, at)?;
            text.extend_from_slice(told.as_slice())?;
            Ok((text, TripleWay::Invalid))
        }
        Judged::Limit => {
            push_limit(alloc, &mut text, number, name, t.line)?;
            Ok((text, TripleWay::Limit))
        }
    }
}
