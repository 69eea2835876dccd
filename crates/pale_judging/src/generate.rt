//! The mode `gen`: the reports on the generator's program of a seed, counted.
ghost use Rattle.std.specs.Prelude.{◌≡◌, ◌≤◌, ◌++◌, All, IfOk, OnOk, OnErr, IsErrOf};
ghost use Rattle.pale_io.specs.Faults.{Rose};
ghost use Rattle.bdd_nodes.specs.Shelf.{limit_of};
ghost use Rattle.gta_keep.specs.Holding.{HasNoTables};
ghost use Rattle.witness_store.specs.Alike.{AreFunctional};
ghost use Rattle.pale_typed.specs.Fitting.{ProgramFits};
ghost use Rattle.hoare_split.specs.Fitting.{FitsProgram};
ghost use Rattle.pale_words.specs.Words.{IsLimit};
ghost use Rattle.pale_status.specs.Written.{Wrote, WroteAtMost};
ghost use Rattle.program_judge.specs.Reports.{ReportsTriples, judged_ending};
ghost use Rattle.pale_judging.specs.Generating.{Counts, Gens, Tells, gen_counts, gen_head, gen_line, gen_sizes};

use crate::check::status_of;
use crate::check_parts::{check_fields, check_triples};
use crate::nowhere::Nowhere;
use bdd_nodes::Shelf;
use pale_generator::gen_program;
use pale_io::{Sink, WriteStop};
use pale_status::{MOST_BYTES, Status, refuse, say};
use program_judge::{
    Ending, TripleWay, are_functional, invalid_count, judged_ending, limit_count, stopped_ending,
    valid_count,
};
use std::alloc::{AllocError, Global};
use store_words::push_number;
use whole_program::{WholeProgram, read_program};
use ws2s_pass::PassList;

/// How the triples of a program were judged, none where some field isn't functional, and how its report ends.
#[derive(Drop)]
struct Counted {
    ways: Vec<TripleWay>,
    how: Ending,
}

/// ` procedures P triples T`
fn push_sizes(
    alloc: Global,
    text: &mut Vec<u8>,
    procedures: usize,
    triples: usize,
) -> Result<(), AllocError>
    ensures { OnOk result (text.new.items ≡ text.old.items ++ gen_sizes procedures triples) }
{
    text.extend_from_slice(b" procedures ")?;
    push_number(alloc, text, procedures as u64)?;
    text.extend_from_slice(b" triples ")?;
    push_number(alloc, text, triples as u64)
}

/// `gen N procedures P triples T`
fn push_head(
    alloc: Global,
    text: &mut Vec<u8>,
    seed: u32,
    procedures: usize,
    triples: usize,
) -> Result<(), AllocError>
    ensures { OnOk result (text.new.items ≡ text.old.items ++ gen_head seed procedures triples) }
{
    text.extend_from_slice(b"gen ")?;
    push_number(alloc, text, u64::from(seed))?;
    push_sizes(alloc, text, procedures, triples)
}

/// ` valid V invalid I limit X`
fn push_counts(alloc: Global, text: &mut Vec<u8>, ways: &[TripleWay]) -> Result<(), AllocError>
    ensures { OnOk result (text.new.items ≡ text.old.items ++ gen_counts ways.now) }
{
    text.extend_from_slice(b" valid ")?;
    push_number(alloc, text, valid_count(ways) as u64)?;
    text.extend_from_slice(b" invalid ")?;
    push_number(alloc, text, invalid_count(ways) as u64)?;
    text.extend_from_slice(b" limit ")?;
    push_number(alloc, text, limit_count(ways) as u64)?;
    text.extend_from_slice(b"\n")
}

/// The line of a seed.
fn gen_line(
    alloc: Global,
    seed: u32,
    procedures: usize,
    triples: usize,
    ways: &[TripleWay],
) -> Result<Vec<u8>, AllocError>
    ensures { IfOk result (λ text. text.items ≡ gen_line seed procedures triples ways.now) }
{
    let mut text = Vec::new(alloc);
    push_head(alloc, &mut text, seed, procedures, triples)?;
    push_counts(alloc, &mut text, ways)?;
    Ok(text)
}

/// Judges all triples. Every pointer field is functional.
fn count_triples(
    alloc: Global,
    whole: &WholeProgram,
    passes: &PassList,
    shelf: &mut Shelf,
) -> Result<Vec<TripleWay>, WriteStop>
    requires program { ProgramFits whole.now.typed }
    requires triples { All (FitsProgram whole.now.typed) whole.now.triples }
    requires functional { AreFunctional whole.now.typed.types }
    requires tables { HasNoTables shelf.old }
    ensures counts { IfOk result (λ ways. (lines : _) × ReportsTriples (limit_of shelf.old) whole.now.typed 1 whole.now.triples lines ways.items) }
    ensures failed { IsErrOf result WriteStop.Failed → ⊥ }
{
    check_triples(alloc, whole, passes, shelf, &mut Nowhere)
}

/// Judges a program, with at most `limit` decision nodes at a time.
fn count_program(
    alloc: Global,
    limit: u32,
    whole: &WholeProgram,
    passes: &PassList,
) -> Result<Counted, WriteStop>
    requires limit { IsLimit limit }
    requires program { ProgramFits whole.now.typed }
    requires triples { All (FitsProgram whole.now.typed) whole.now.triples }
    ensures counts { IfOk result (λ counted. Counts limit whole.now.typed whole.now.triples counted.ways.items counted.how) }
    ensures failed { IsErrOf result WriteStop.Failed → ⊥ }
{
    let mut shelf = Shelf::open(alloc, limit)?;
    let fields = check_fields(alloc, whole, passes, &mut shelf, &mut Nowhere)?;
    if are_functional(fields.as_slice()) {
        let ways = count_triples(alloc, whole, passes, &mut shelf)?;
        let how = judged_ending(ways.as_slice());
        Ok(Counted { ways, how })
    } else {
        let how = stopped_ending(fields.as_slice());
        Ok(Counted {
            ways: Vec::new(alloc),
            how,
        })
    }
}

/// Writes the line of a program that was read, and says how its report ends.
fn gen_whole<K: Sink>(
    alloc: Global,
    limit: u32,
    seed: u32,
    whole: &WholeProgram,
    passes: &PassList,
    sink: &mut K,
) -> Result<Status, WriteStop>
    requires limit { IsLimit limit }
    requires program { ProgramFits whole.now.typed }
    requires triples { All (FitsProgram whole.now.typed) whole.now.triples }
    ensures ok { IfOk result (Wrote (Tells limit seed whole.now.typed whole.now.triples) (K.written sink.old) (K.written sink.new)) }
    ensures err { OnErr result (WroteAtMost (Tells limit seed whole.now.typed whole.now.triples) (K.written sink.old) (K.written sink.new)) }
    ensures failed { IsErrOf result WriteStop.Failed → Rose (K.faults sink.old) (K.faults sink.new) }
    ensures kept { K.faults sink.old ≤ K.faults sink.new }
{
    let counted = count_program(alloc, limit, whole, passes)?;
    let procedures = whole.typed.procs();
    let triples = whole.triples.as_slice().len();
    let line = gen_line(alloc, seed, procedures, triples, counted.ways.as_slice())?;
    say(sink, line.as_slice(), status_of(counted.how))
}

/// The mode `gen`: judges the generator's program of a seed, with at most `limit` decision nodes at a time, and writes how many of
/// its triples are valid, invalid and at the limit, in one line; and says with which status.
///
/// # Errors
///
/// Want of memory, and a fault of the sink; what was written then begins such an output.
pub fn gen_text<K: Sink>(
    alloc: Global,
    limit: u32,
    seed: u32,
    passes: &PassList,
    sink: &mut K,
) -> Result<Status, WriteStop>
    requires { IsLimit limit }
    ensures ok { IfOk result (Wrote (Gens limit seed) (K.written sink.old) (K.written sink.new)) }
    ensures err { OnErr result (WroteAtMost (Gens limit seed) (K.written sink.old) (K.written sink.new)) }
    ensures failed { IsErrOf result WriteStop.Failed → Rose (K.faults sink.old) (K.faults sink.new) }
    ensures kept { K.faults sink.old ≤ K.faults sink.new }
{
    let text = gen_program(alloc, u64::from(seed))?;
    if text.len() > MOST_BYTES {
        return say(sink, b"refused too-long\n", Status::Text);
    }
    match read_program(alloc, text.as_slice()) {
        Ok(whole) => gen_whole(alloc, limit, seed, &whole, passes, sink),
        Err(stop) => refuse(alloc, stop, sink),
    }
}
