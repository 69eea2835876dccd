//! The mode `check`: the reports of a program.
ghost use Rattle.std.specs.Prelude.{◌≡◌, ◌≤◌, length, All, IfOk, OnErr, IsErrOf};
ghost use Rattle.pale_io.specs.Faults.{Rose};
ghost use Rattle.bdd_nodes.specs.Shelf.{limit_of};
ghost use Rattle.gta_keep.specs.Holding.{HasNoTables};
ghost use Rattle.witness_store.specs.Alike.{AreFunctional};
ghost use Rattle.pale_typed.specs.Fitting.{ProgramFits};
ghost use Rattle.hoare_split.specs.Fitting.{FitsProgram};
ghost use Rattle.pale_words.specs.Words.{IsLimit};
ghost use Rattle.pale_status.specs.Written.{Wrote, WroteAtMost};
ghost use Rattle.pale_status.specs.Texts.{most_bytes};
ghost use Rattle.program_judge.specs.Reports.{ReportsAll, ReportsProgram};
ghost use Rattle.pale_judging.specs.Checking.{Checks, status_of};

use crate::check_parts::{check_fields, check_triples};
use bdd_nodes::Shelf;
use pale_io::{Sink, WriteStop, write_all};
use pale_status::{Status, refuse};
use program_judge::{Ending, are_functional, judged_ending, stopped_ending, totals_text};
use std::alloc::Global;
use whole_program::{WholeProgram, read_program};
use ws2s_pass::PassList;

/// The status of a report, by how it ends.
pub(crate) fn status_of(how: Ending) -> Status
    ensures { result ≡ status_of how }
{
    match how {
        Ending::Good => Status::Good,
        Ending::Bad => Status::Bad,
        Ending::Ambiguous => Status::Text,
        Ending::Limit => Status::Limit,
    }
}

/// Judges all triples, and writes the report of each and then the totals. Every pointer field is functional.
fn check_all<K: Sink>(
    alloc: Global,
    whole: &WholeProgram,
    passes: &PassList,
    shelf: &mut Shelf,
    sink: &mut K,
) -> Result<Ending, WriteStop>
    requires program { ProgramFits whole.now.typed }
    requires triples { All (FitsProgram whole.now.typed) whole.now.triples }
    requires functional { AreFunctional whole.now.typed.types }
    requires tables { HasNoTables shelf.old }
    ensures ok { IfOk result (Wrote (ReportsAll (limit_of shelf.old) whole.now.typed whole.now.triples) (K.written sink.old) (K.written sink.new)) }
    ensures err { OnErr result (WroteAtMost (ReportsAll (limit_of shelf.old) whole.now.typed whole.now.triples) (K.written sink.old) (K.written sink.new)) }
    ensures failed { IsErrOf result WriteStop.Failed → Rose (K.faults sink.old) (K.faults sink.new) }
    ensures kept { K.faults sink.old ≤ K.faults sink.new }
{
    let ways = check_triples(alloc, whole, passes, shelf, sink)?;
    let totals = totals_text(alloc, ways.as_slice())?;
    write_all(sink, totals.as_slice())?;
    Ok(judged_ending(ways.as_slice()))
}

/// Judges a program, with at most `limit` decision nodes at a time, and writes what is said of it.
fn check_program<K: Sink>(
    alloc: Global,
    limit: u32,
    whole: &WholeProgram,
    passes: &PassList,
    sink: &mut K,
) -> Result<Ending, WriteStop>
    requires limit { IsLimit limit }
    requires program { ProgramFits whole.now.typed }
    requires triples { All (FitsProgram whole.now.typed) whole.now.triples }
    ensures ok { IfOk result (Wrote (ReportsProgram limit whole.now.typed whole.now.triples) (K.written sink.old) (K.written sink.new)) }
    ensures err { OnErr result (WroteAtMost (ReportsProgram limit whole.now.typed whole.now.triples) (K.written sink.old) (K.written sink.new)) }
    ensures failed { IsErrOf result WriteStop.Failed → Rose (K.faults sink.old) (K.faults sink.new) }
    ensures kept { K.faults sink.old ≤ K.faults sink.new }
{
    let mut shelf = Shelf::open(alloc, limit)?;
    let ways = check_fields(alloc, whole, passes, &mut shelf, sink)?;
    if are_functional(ways.as_slice()) {
        check_all(alloc, whole, passes, &mut shelf, sink)
    } else {
        write_all(sink, b"stopped at fields\n")?;
        Ok(stopped_ending(ways.as_slice()))
    }
}

/// The mode `check` on a text that isn't too long, with at most `limit` decision nodes at a time: writes the report of the program
/// that it is read as, each field's and triple's before the next is judged, and the totals, or its first refusal; and says with
/// which status. (Møller and Schwartzbach 2001.)
///
/// # Errors
///
/// Want of memory, and a fault of the sink; what was written then begins such an output.
pub fn check_text<K: Sink>(
    alloc: Global,
    limit: u32,
    text: &[u8],
    passes: &PassList,
    sink: &mut K,
) -> Result<Status, WriteStop>
    requires within { length text.now ≤ most_bytes }
    requires limit { IsLimit limit }
    ensures ok { IfOk result (Wrote (Checks limit text.now) (K.written sink.old) (K.written sink.new)) }
    ensures err { OnErr result (WroteAtMost (Checks limit text.now) (K.written sink.old) (K.written sink.new)) }
    ensures failed { IsErrOf result WriteStop.Failed → Rose (K.faults sink.old) (K.faults sink.new) }
    ensures kept { K.faults sink.old ≤ K.faults sink.new }
{
    match read_program(alloc, text) {
        Ok(whole) => {
            let how = check_program(alloc, limit, &whole, passes, sink)?;
            Ok(status_of(how))
        }
        Err(stop) => refuse(alloc, stop, sink),
    }
}
