//! The mode `meet`: a least store that meets each triple, or that none does.
ghost use Rattle.std.specs.Prelude.{◌≡◌, ◌≤◌, length, All, IfOk, OnErr, IsErrOf};
ghost use Rattle.std.specs.List.{list_any};
ghost use Rattle.pale_io.specs.Faults.{Rose};
ghost use Rattle.bdd_nodes.specs.Shelf.{limit_of};
ghost use Rattle.gta_keep.specs.Holding.{HasNoTables};
ghost use Rattle.witness_store.specs.Alike.{AreFunctional};
ghost use Rattle.pale_typed.specs.Fitting.{ProgramFits};
ghost use Rattle.hoare_split.specs.Fitting.{FitsProgram};
ghost use Rattle.pale_words.specs.Words.{IsLimit};
ghost use Rattle.pale_status.specs.Written.{Wrote, WroteAtMost};
ghost use Rattle.pale_status.specs.Texts.{most_bytes};
ghost use Rattle.program_judge.specs.Meets.{ReportsMeet, ReportsMeets, is_at_limit, is_empty};
ghost use Rattle.pale_judging.specs.Meeting.{MeetsProgram, MeetsText, meet_status};

use crate::check::status_of;
use crate::check_parts::{check_fields, push_way};
use bdd_nodes::Shelf;
use pale_io::{Sink, WriteStop, write_all};
use pale_status::{Status, refuse};
use pale_typed::Typed;
use program_judge::{MeetWay, are_functional, meet_report, meet_totals, stopped_ending};
use std::alloc::Global;
use store_exec::Triple;
use whole_program::{WholeProgram, read_program};
use ws2s_pass::PassList;

fn any_empty(ways: &[MeetWay]) -> bool
    ensures { result ≡ list_any is_empty ways.now }
{
    ways.iter().any(|way| matches!(*way, MeetWay::Empty))
}

fn any_at_limit(ways: &[MeetWay]) -> bool
    ensures { result ≡ list_any is_at_limit ways.now }
{
    ways.iter().any(|way| matches!(*way, MeetWay::Limit))
}

/// The status where starts were told so.
fn meet_status(ways: &[MeetWay]) -> Status
    ensures { result ≡ meet_status ways.now }
{
    if any_empty(ways) {
        Status::Bad
    } else if any_at_limit(ways) {
        Status::Limit
    } else {
        Status::Good
    }
}

/// Tells whether a store meets the triple with this number, counted from 1.
fn meet_triple<K: Sink>(
    alloc: Global,
    typed: &Typed,
    number: u64,
    t: &Triple,
    passes: &PassList,
    shelf: &mut Shelf,
    sink: &mut K,
) -> Result<MeetWay, WriteStop>
    requires program { ProgramFits typed.now }
    requires triple { FitsProgram typed.now t.now }
    requires functional { AreFunctional typed.now.types }
    requires tables { HasNoTables shelf.old }
    ensures ok { IfOk result (Wrote (ReportsMeet (limit_of shelf.old) typed.now number t.now) (K.written sink.old) (K.written sink.new)) }
    ensures err { OnErr result (WroteAtMost (ReportsMeet (limit_of shelf.old) typed.now number t.now) (K.written sink.old) (K.written sink.new)) }
    ensures failed { IsErrOf result WriteStop.Failed → Rose (K.faults sink.old) (K.faults sink.new) }
    ensures kept { K.faults sink.old ≤ K.faults sink.new }
    ensures tables { HasNoTables shelf.new }
    ensures same_limit { limit_of shelf.new ≡ limit_of shelf.old }
{
    let (report, way) = meet_report(alloc, typed, number, t, passes, shelf)?;
    write_all(sink, report.as_slice())?;
    Ok(way)
}

/// Tells of the triples in order.
fn meet_triples<K: Sink>(
    alloc: Global,
    whole: &WholeProgram,
    passes: &PassList,
    shelf: &mut Shelf,
    sink: &mut K,
) -> Result<Vec<MeetWay>, WriteStop>
    requires program { ProgramFits whole.now.typed }
    requires triples { All (FitsProgram whole.now.typed) whole.now.triples }
    requires functional { AreFunctional whole.now.typed.types }
    requires tables { HasNoTables shelf.old }
    ensures ok { IfOk result (λ ways. Wrote (ReportsMeets (limit_of shelf.old) whole.now.typed 1 whole.now.triples)
        (K.written sink.old) (K.written sink.new) ways.items) }
    ensures err { OnErr result (WroteAtMost (MeetsProgram (limit_of shelf.old) whole.now.typed whole.now.triples) (K.written sink.old) (K.written sink.new)) }
    ensures failed { IsErrOf result WriteStop.Failed → Rose (K.faults sink.old) (K.faults sink.new) }
    ensures kept { K.faults sink.old ≤ K.faults sink.new }
{
    let mut ways = Vec::new(alloc);
    for t in whole.triples.as_slice() {
        let number = ways.len() as u64 + 1;
        let way = meet_triple(alloc, &whole.typed, number, t, passes, shelf, sink)?;
        push_way(&mut ways, way)?;
    }
    Ok(ways)
}

/// Tells of all triples, and writes the totals. Every pointer field is functional.
fn meet_all<K: Sink>(
    alloc: Global,
    whole: &WholeProgram,
    passes: &PassList,
    shelf: &mut Shelf,
    sink: &mut K,
) -> Result<Status, WriteStop>
    requires program { ProgramFits whole.now.typed }
    requires triples { All (FitsProgram whole.now.typed) whole.now.triples }
    requires functional { AreFunctional whole.now.typed.types }
    requires tables { HasNoTables shelf.old }
    ensures ok { IfOk result (Wrote (MeetsProgram (limit_of shelf.old) whole.now.typed whole.now.triples) (K.written sink.old) (K.written sink.new)) }
    ensures err { OnErr result (WroteAtMost (MeetsProgram (limit_of shelf.old) whole.now.typed whole.now.triples) (K.written sink.old) (K.written sink.new)) }
    ensures failed { IsErrOf result WriteStop.Failed → Rose (K.faults sink.old) (K.faults sink.new) }
    ensures kept { K.faults sink.old ≤ K.faults sink.new }
{
    let ways = meet_triples(alloc, whole, passes, shelf, sink)?;
    let totals = meet_totals(alloc, ways.as_slice())?;
    write_all(sink, totals.as_slice())?;
    Ok(meet_status(ways.as_slice()))
}

/// Tells of the triples of a program whether a store meets each, with at most `limit` decision nodes at a time.
fn meet_program<K: Sink>(
    alloc: Global,
    limit: u32,
    whole: &WholeProgram,
    passes: &PassList,
    sink: &mut K,
) -> Result<Status, WriteStop>
    requires limit { IsLimit limit }
    requires program { ProgramFits whole.now.typed }
    requires triples { All (FitsProgram whole.now.typed) whole.now.triples }
    ensures ok { IfOk result (Wrote (MeetsProgram limit whole.now.typed whole.now.triples) (K.written sink.old) (K.written sink.new)) }
    ensures err { OnErr result (WroteAtMost (MeetsProgram limit whole.now.typed whole.now.triples) (K.written sink.old) (K.written sink.new)) }
    ensures failed { IsErrOf result WriteStop.Failed → Rose (K.faults sink.old) (K.faults sink.new) }
    ensures kept { K.faults sink.old ≤ K.faults sink.new }
{
    let mut shelf = Shelf::open(alloc, limit)?;
    let ways = check_fields(alloc, whole, passes, &mut shelf, sink)?;
    if are_functional(ways.as_slice()) {
        meet_all(alloc, whole, passes, &mut shelf, sink)
    } else {
        write_all(sink, b"stopped at fields\n")?;
        Ok(status_of(stopped_ending(ways.as_slice())))
    }
}

/// The mode `meet` on a text that isn't too long, with at most `limit` decision nodes at a time: writes of the start of each triple of
/// its program a least store that meets it, or that none does, or its first refusal; and says with which status.
///
/// # Errors
///
/// Want of memory, and a fault of the sink; what was written then begins such an output.
pub fn meet_text<K: Sink>(
    alloc: Global,
    limit: u32,
    text: &[u8],
    passes: &PassList,
    sink: &mut K,
) -> Result<Status, WriteStop>
    requires within { length text.now ≤ most_bytes }
    requires limit { IsLimit limit }
    ensures ok { IfOk result (Wrote (MeetsText limit text.now) (K.written sink.old) (K.written sink.new)) }
    ensures err { OnErr result (WroteAtMost (MeetsText limit text.now) (K.written sink.old) (K.written sink.new)) }
    ensures failed { IsErrOf result WriteStop.Failed → Rose (K.faults sink.old) (K.faults sink.new) }
    ensures kept { K.faults sink.old ≤ K.faults sink.new }
{
    match read_program(alloc, text) {
        Ok(whole) => meet_program(alloc, limit, &whole, passes, sink),
        Err(stop) => refuse(alloc, stop, sink),
    }
}
