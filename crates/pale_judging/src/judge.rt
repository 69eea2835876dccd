//! The mode `judge`: the report of one triple, or of the pointer fields alone.
ghost use Rattle.std.specs.Prelude.{◌≡◌, ◌≤◌, length, All, IfOk, IfErr, IfSome, IfNone, OnErr, IsErrOf, List, ℕ, Err};
ghost use Rattle.std.specs.Option.{option_map};
ghost use Rattle.pale_io.specs.Faults.{Rose};
ghost use Rattle.bdd_nodes.specs.Shelf.{limit_of};
ghost use Rattle.gta_keep.specs.Holding.{HasNoTables};
ghost use Rattle.store_text.specs.Lines.{lines_of};
ghost use Rattle.witness_store.specs.Alike.{AreFunctional};
ghost use Rattle.pale_typed.specs.Fitting.{ProgramFits};
ghost use Rattle.hoare_split.specs.Fitting.{FitsProgram};
ghost use Rattle.pale_words.specs.Words.{IsLimit};
ghost use Rattle.pale_parts.specs.Requests.{IsRequest, IsRequestFault};
ghost use Rattle.pale_status.specs.Written.{Wrote, WroteAtMost};
ghost use Rattle.pale_status.specs.Texts.{most_bytes};
ghost use Rattle.pale_judging.specs.Judging.{Judges, JudgesPart, JudgesRequest, status_of_way};

use crate::check::status_of;
use crate::check_parts::{check_fields, check_triple};
use bdd_nodes::Shelf;
use pale_io::{Sink, WriteStop, write_all};
use pale_parts::{Request, RequestFault, RequestKind, cut_text, request_in, request_line};
use pale_status::{Status, refuse, say};
use program_judge::{TripleWay, are_functional, stopped_ending};
use std::alloc::Global;
use whole_program::{WholeProgram, read_program};
use ws2s_pass::PassList;

/// The status of a report on one triple alone.
fn status_of_way(way: TripleWay) -> Status
    ensures { result ≡ status_of_way way }
{
    match way {
        TripleWay::Valid => Status::Good,
        TripleWay::Invalid => Status::Bad,
        TripleWay::Limit => Status::Limit,
    }
}

/// Judges what is asked for where every pointer field is functional, and writes the report of the triple that is.
fn judge_asked<K: Sink>(
    alloc: Global,
    whole: &WholeProgram,
    request: Request,
    passes: &PassList,
    shelf: &mut Shelf,
    sink: &mut K,
) -> Result<Status, WriteStop>
    requires program { ProgramFits whole.now.typed }
    requires triples { All (FitsProgram whole.now.typed) whole.now.triples }
    requires request { (lines : List (List ℕ)) × IsRequest (length whole.now.triples) lines request }
    requires functional { AreFunctional whole.now.typed.types }
    requires tables { HasNoTables shelf.old }
    ensures ok { IfOk result (Wrote (JudgesRequest (limit_of shelf.old) whole.now.typed whole.now.triples request) (K.written sink.old) (K.written sink.new)) }
    ensures err { OnErr result (WroteAtMost (JudgesRequest (limit_of shelf.old) whole.now.typed whole.now.triples request)
        (K.written sink.old) (K.written sink.new)) }
    ensures failed { IsErrOf result WriteStop.Failed → Rose (K.faults sink.old) (K.faults sink.new) }
    ensures kept { K.faults sink.old ≤ K.faults sink.new }
{
    match request {
        Request::Fields => Ok(Status::Good),
        Request::Triple(number) => {
            let Some(t) = whole.triples.get(number as usize - 1) else {
                unreachable!()
            };
            let way = check_triple(
                alloc,
                &whole.typed,
                u64::from(number),
                t,
                passes,
                shelf,
                sink,
            )?;
            Ok(status_of_way(way))
        }
    }
}

/// Judges what is asked for of a program, with at most `limit` decision nodes at a time, and writes what is said of it.
fn judge_request<K: Sink>(
    alloc: Global,
    limit: u32,
    whole: &WholeProgram,
    request: Request,
    passes: &PassList,
    sink: &mut K,
) -> Result<Status, WriteStop>
    requires limit { IsLimit limit }
    requires program { ProgramFits whole.now.typed }
    requires triples { All (FitsProgram whole.now.typed) whole.now.triples }
    requires request { (lines : List (List ℕ)) × IsRequest (length whole.now.triples) lines request }
    ensures ok { IfOk result (Wrote (JudgesRequest limit whole.now.typed whole.now.triples request) (K.written sink.old) (K.written sink.new)) }
    ensures err { OnErr result (WroteAtMost (JudgesRequest limit whole.now.typed whole.now.triples request) (K.written sink.old) (K.written sink.new)) }
    ensures failed { IsErrOf result WriteStop.Failed → Rose (K.faults sink.old) (K.faults sink.new) }
    ensures kept { K.faults sink.old ≤ K.faults sink.new }
{
    let mut shelf = Shelf::open(alloc, limit)?;
    let ways = check_fields(alloc, whole, passes, &mut shelf, sink)?;
    if are_functional(ways.as_slice()) {
        judge_asked(alloc, whole, request, passes, &mut shelf, sink)
    } else {
        write_all(sink, b"stopped at fields\n")?;
        Ok(status_of(stopped_ending(ways.as_slice())))
    }
}

/// What the part behind the line `---` asks for of a program, where there is one.
fn request_of(part: Option<&[u8]>, triples: usize) -> Result<Request, RequestFault>
    ensures none { IfNone part.entry (result ≡ Err (record { line = 0; kind = RequestKind.Missing })) }
    ensures ok { IfSome part.entry (λ after. IfOk result (IsRequest triples (lines_of after.now))) }
    ensures err { IfSome part.entry (λ after. IfErr result (IsRequestFault triples (lines_of after.now))) }
{
    match part {
        Some(after) => request_in(after, triples),
        None => Err(RequestFault {
            line: 0,
            kind: RequestKind::Missing,
        }),
    }
}

/// Answers what the part behind the line `---` asks for of a program.
fn judge_part<K: Sink>(
    alloc: Global,
    limit: u32,
    whole: &WholeProgram,
    part: Option<&[u8]>,
    passes: &PassList,
    sink: &mut K,
) -> Result<Status, WriteStop>
    requires limit { IsLimit limit }
    requires program { ProgramFits whole.now.typed }
    requires triples { All (FitsProgram whole.now.typed) whole.now.triples }
    ensures ok { IfOk result (Wrote (JudgesPart limit whole.now.typed whole.now.triples (option_map (λ after. lines_of after.now) part.entry))
        (K.written sink.old) (K.written sink.new)) }
    ensures err { OnErr result (WroteAtMost (JudgesPart limit whole.now.typed whole.now.triples (option_map (λ after. lines_of after.now) part.entry))
        (K.written sink.old) (K.written sink.new)) }
    ensures failed { IsErrOf result WriteStop.Failed → Rose (K.faults sink.old) (K.faults sink.new) }
    ensures kept { K.faults sink.old ≤ K.faults sink.new }
{
    match request_of(part, whole.triples.len()) {
        Ok(request) => judge_request(alloc, limit, whole, request, passes, sink),
        Err(fault) => {
            let line = request_line(alloc, fault)?;
            say(sink, line.as_slice(), Status::Text)
        }
    }
}

/// The mode `judge` on a text that isn't too long, with at most `limit` decision nodes at a time: writes what is said of the fields
/// where some isn't functional, the report of the triple where its request asks for one, or the fault of the text or the request;
/// and says with which status.
///
/// # Errors
///
/// Want of memory, and a fault of the sink; what was written then begins such an output.
pub fn judge_text<K: Sink>(
    alloc: Global,
    limit: u32,
    text: &[u8],
    passes: &PassList,
    sink: &mut K,
) -> Result<Status, WriteStop>
    requires within { length text.now ≤ most_bytes }
    requires limit { IsLimit limit }
    ensures ok { IfOk result (Wrote (Judges limit text.now) (K.written sink.old) (K.written sink.new)) }
    ensures err { OnErr result (WroteAtMost (Judges limit text.now) (K.written sink.old) (K.written sink.new)) }
    ensures failed { IsErrOf result WriteStop.Failed → Rose (K.faults sink.old) (K.faults sink.new) }
    ensures kept { K.faults sink.old ≤ K.faults sink.new }
{
    let (program, part) = cut_text(text);
    match read_program(alloc, program) {
        Ok(whole) => judge_part(alloc, limit, &whole, part, passes, sink),
        Err(stop) => refuse(alloc, stop, sink),
    }
}
