//! The pointer fields and the triples of a program, judged one after the other, each with its report written before the next.
ghost use Rattle.std.specs.Prelude.{◌≡◌, ◌≤◌, [], ◌∷◌, ◌++◌, All, IfOk, OnOk, OnErr, IsErrOf};
ghost use Rattle.pale_io.specs.Faults.{Rose};
ghost use Rattle.bdd_nodes.specs.Shelf.{limit_of};
ghost use Rattle.gta_keep.specs.Holding.{HasNoTables};
ghost use Rattle.witness_store.specs.Alike.{AreFunctional};
ghost use Rattle.pale_typed.specs.Fitting.{ProgramFits};
ghost use Rattle.hoare_split.specs.Fitting.{FitsProgram};
ghost use Rattle.pale_status.specs.Written.{Wrote, WroteAtMost};
ghost use Rattle.program_judge.specs.Reports as reports;
ghost use Rattle.program_judge.specs.Reports.{ReportsField, ReportsFields, ReportsTriple, ReportsTriples, ReportsAll};
ghost use Rattle.pale_judging.specs.Checking.{WroteFields};

use bdd_nodes::Shelf;
use pale_io::{Sink, WriteStop, write_all};
use pale_typed::Typed;
use program_judge::{FieldWay, TripleWay, field_report, pointer_fields, triple_report};
use std::alloc::{AllocError, Global};
use store_core::{FieldId, TypeTable};
use store_exec::Triple;
use whole_program::WholeProgram;
use ws2s_pass::PassList;

/// Puts how one more was judged at the end.
pub(crate) fn push_way<W: Drop>(ways: &mut Vec<W>, way: W) -> Result<(), AllocError>
    ensures { OnOk result (ways.new.items ≡ ways.old.items ++ way ∷ []) }
{
    ways.push(way)?;
    Ok(())
}

/// Judges a pointer field, and writes its report.
fn check_field<K: Sink>(
    alloc: Global,
    types: &TypeTable,
    f: FieldId,
    passes: &PassList,
    shelf: &mut Shelf,
    sink: &mut K,
) -> Result<FieldWay, WriteStop>
    requires { HasNoTables shelf.old }
    ensures ok { IfOk result (Wrote (ReportsField (limit_of shelf.old) types.now f) (K.written sink.old) (K.written sink.new)) }
    ensures err { OnErr result (WroteAtMost (ReportsField (limit_of shelf.old) types.now f) (K.written sink.old) (K.written sink.new)) }
    ensures failed { IsErrOf result WriteStop.Failed → Rose (K.faults sink.old) (K.faults sink.new) }
    ensures kept { K.faults sink.old ≤ K.faults sink.new }
    ensures tables { HasNoTables shelf.new }
    ensures same_limit { limit_of shelf.new ≡ limit_of shelf.old }
{
    let (report, way) = field_report(alloc, types, f, passes, shelf)?;
    write_all(sink, report.as_slice())?;
    Ok(way)
}

/// Judges the pointer fields in order, and writes the report of each.
pub(crate) fn check_fields<K: Sink>(
    alloc: Global,
    whole: &WholeProgram,
    passes: &PassList,
    shelf: &mut Shelf,
    sink: &mut K,
) -> Result<Vec<FieldWay>, WriteStop>
    requires { HasNoTables shelf.old }
    ensures ok { IfOk result (λ ways. Wrote (ReportsFields (limit_of shelf.old) whole.now.typed.types (reports.pointer_fields whole.now.typed.types))
        (K.written sink.old) (K.written sink.new) ways.items) }
    ensures err { OnErr result (WroteFields (limit_of shelf.old) whole.now.typed.types (K.written sink.old) (K.written sink.new)) }
    ensures failed { IsErrOf result WriteStop.Failed → Rose (K.faults sink.old) (K.faults sink.new) }
    ensures kept { K.faults sink.old ≤ K.faults sink.new }
    ensures tables { HasNoTables shelf.new }
    ensures same_limit { limit_of shelf.new ≡ limit_of shelf.old }
{
    let types = whole.typed.types();
    let fields = pointer_fields(alloc, types)?;
    let mut ways = Vec::new(alloc);
    for f in fields.as_slice() {
        let way = check_field(alloc, types, *f, passes, shelf, sink)?;
        push_way(&mut ways, way)?;
    }
    Ok(ways)
}

/// Judges the triple with this number, counted from 1, and writes its report.
pub(crate) fn check_triple<K: Sink>(
    alloc: Global,
    typed: &Typed,
    number: u64,
    t: &Triple,
    passes: &PassList,
    shelf: &mut Shelf,
    sink: &mut K,
) -> Result<TripleWay, WriteStop>
    requires program { ProgramFits typed.now }
    requires triple { FitsProgram typed.now t.now }
    requires functional { AreFunctional typed.now.types }
    requires tables { HasNoTables shelf.old }
    ensures ok { IfOk result (Wrote (ReportsTriple (limit_of shelf.old) typed.now number t.now) (K.written sink.old) (K.written sink.new)) }
    ensures err { OnErr result (WroteAtMost (ReportsTriple (limit_of shelf.old) typed.now number t.now) (K.written sink.old) (K.written sink.new)) }
    ensures failed { IsErrOf result WriteStop.Failed → Rose (K.faults sink.old) (K.faults sink.new) }
    ensures kept { K.faults sink.old ≤ K.faults sink.new }
    ensures tables { HasNoTables shelf.new }
    ensures same_limit { limit_of shelf.new ≡ limit_of shelf.old }
{
    let (report, way) = triple_report(alloc, typed, number, t, passes, shelf)?;
    write_all(sink, report.as_slice())?;
    Ok(way)
}

/// Judges the triples in order, and writes the report of each.
pub(crate) fn check_triples<K: Sink>(
    alloc: Global,
    whole: &WholeProgram,
    passes: &PassList,
    shelf: &mut Shelf,
    sink: &mut K,
) -> Result<Vec<TripleWay>, WriteStop>
    requires program { ProgramFits whole.now.typed }
    requires triples { All (FitsProgram whole.now.typed) whole.now.triples }
    requires functional { AreFunctional whole.now.typed.types }
    requires tables { HasNoTables shelf.old }
    ensures ok { IfOk result (λ ways. Wrote (ReportsTriples (limit_of shelf.old) whole.now.typed 1 whole.now.triples)
        (K.written sink.old) (K.written sink.new) ways.items) }
    ensures err { OnErr result (WroteAtMost (ReportsAll (limit_of shelf.old) whole.now.typed whole.now.triples) (K.written sink.old) (K.written sink.new)) }
    ensures failed { IsErrOf result WriteStop.Failed → Rose (K.faults sink.old) (K.faults sink.new) }
    ensures kept { K.faults sink.old ≤ K.faults sink.new }
    ensures tables { HasNoTables shelf.new }
    ensures same_limit { limit_of shelf.new ≡ limit_of shelf.old }
{
    let mut ways = Vec::new(alloc);
    for t in whole.triples.as_slice() {
        let number = ways.len() as u64 + 1;
        let way = check_triple(alloc, &whole.typed, number, t, passes, shelf, sink)?;
        push_way(&mut ways, way)?;
    }
    Ok(ways)
}
