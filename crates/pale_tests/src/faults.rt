//! Whole calls, each ending in each of its ways, and with reads and writes that fail.

use crate::calls::words_of;
use pale_generator::gen_program;
use pale_io::{MemSink, MemSource};
use pale_top::{Status, pale_main};
use std::alloc::{AllocError, Global};
use std::test::Fail;
use ws2s_pass::PassList;

const NEG: &str = "proc neg(bool a) returns (bool b)
logic bool v
pre [a <=> v]
post [b <=> ~v]
{
  b = !a;
}
";

const NEG_REPORT: &str = "triple 1 neg line 1 valid
triples 1 valid 1 invalid 0 limit 0
";

const WRONG: &str = "proc neg(bool a) returns (bool b)
logic bool v
pre [a <=> v]
post [b]
{
  b = !a;
}
";

const WRONG_REPORT: &str = "triple 1 neg line 1 invalid post line 7
store
var a true
var b false
var v true
end
triples 1 valid 0 invalid 1 limit 0
";

const NEG_SPELLING: &str =
    "proc neg ( bool a ) returns ( bool b ) logic bool v pre [ a <=> v ] post [ b <=> ~ v ] {
b = ! a ;
}
";

const GEN_LINE: &str = "gen 0 procedures 1 triples 1 valid 1 invalid 0 limit 0\n";

/// A call that ended: its status, what it wrote, and how often its source and its sink failed.
#[derive(Drop)]
struct Ended {
    status: Status,
    written: Vec<u8>,
    read_faults: u64,
    write_faults: u64,
}

/// Calls the program with these words on this text, where the reads and the writes with these numbers fail.
fn call(
    alloc: Global,
    line: &str,
    text: &[u8],
    reads: &[u64],
    writes: &[u64],
) -> Result<Ended, AllocError> {
    let words = words_of(alloc, line)?;
    let mut source = MemSource::new(
        Vec::from_slice(alloc, text)?,
        Vec::from_slice(alloc, reads)?,
    );
    let mut sink = MemSink::new(alloc, Vec::from_slice(alloc, writes)?);
    let passes = PassList::new(alloc);
    let status = pale_main(alloc, &words, &mut source, &mut sink, &passes);
    Ok(Ended {
        status,
        written: Vec::from_slice(alloc, sink.written())?,
        read_faults: source.faults(),
        write_faults: sink.faults(),
    })
}

impl Ended {
    fn is(&self, status: Status, report: &[u8]) -> bool {
        self.status == status && self.written.as_slice() == report
    }
}

/// Whether nothing is written where this read fails, and the output where it isn't made.
fn fails_at_read(alloc: Global, line: &str, output: &str, read: u64) -> Result<bool, AllocError> {
    let ended = call(alloc, line, NEG.as_bytes(), &[read], &[])?;
    if ended.read_faults > 0 {
        Ok(ended.is(Status::ReadFault, b""))
    } else {
        Ok(ended.is(Status::Good, output.as_bytes()))
    }
}

#[test]
fn a_failed_read_leaves_nothing_written(rt: HostRuntime) -> Result<(), Fail> {
    for (line, output) in [("pale check", NEG_REPORT), ("pale format", NEG_SPELLING)] {
        for read in 1..4 {
            assert!(rt; fails_at_read(rt.alloc(), line, output, read)?, "{line}");
        }
    }
    Ok(())
}

/// Whether `gen` ends well over a source that would fail, which it doesn't ask.
fn asks_no_source(alloc: Global) -> Result<bool, AllocError> {
    let ended = call(alloc, "pale gen", b"", &[1], &[])?;
    Ok(ended.read_faults == 0 && ended.is(Status::Good, GEN_LINE.as_bytes()))
}

#[test]
fn gen_asks_no_source(rt: HostRuntime) -> Result<(), Fail> {
    assert!(rt; asks_no_source(rt.alloc())?);
    Ok(())
}

/// Whether a front of the output is written where this write fails, nothing where it is the first, and all where it isn't made.
fn fails_at_write(
    alloc: Global,
    (line, text): (&str, &str),
    output: &[u8],
    good: Status,
    write: u64,
) -> Result<bool, AllocError> {
    let ended = call(alloc, line, text.as_bytes(), &[], &[write])?;
    if ended.write_faults == 0 {
        return Ok(ended.is(good, output));
    }
    Ok(
        ended.status == Status::WriteFault
            && output.starts_with(&ended.written)
            && (write > 1 || ended.written.is_empty()),
    )
}

#[test]
fn a_failed_write_leaves_a_front(rt: HostRuntime) -> Result<(), Fail> {
    let refused = "refused 1:11 syntax\n";
    for (line, text, output, good) in [
        ("pale check", WRONG, WRONG_REPORT, Status::Bad),
        ("pale format", NEG, NEG_SPELLING, Status::Good),
        ("pale format", "proc p() {", refused, Status::Text),
    ] {
        for write in 1..4 {
            let is_so = fails_at_write(rt.alloc(), (line, text), output.as_bytes(), good, write)?;
            assert!(rt; is_so, "{line}");
        }
    }
    Ok(())
}

/// Three procedures, of which the second has an invalid triple.
const THREE: &str = "proc p() { }
proc q() post [false] { }
proc r() { }
";

/// The reports of the triples and the totals.
static THREE_REPORTS: &[&str] = &[
    "triple 1 p line 1 valid\n",
    "triple 2 q line 2 invalid post line 2\nstore\nend\n",
    "triple 3 r line 3 valid\n",
    "triples 3 valid 2 invalid 1 limit 0\n",
];

/// The first of the reports, so many.
fn first_reports(alloc: Global, count: usize) -> Result<String, AllocError> {
    let mut text = String::new(alloc);
    for report in THREE_REPORTS.iter().take(count) {
        text.push_str(report)?;
    }
    Ok(text)
}

/// Whether exactly so many reports are written where the write after them fails.
fn stops_after(alloc: Global, count: usize) -> Result<bool, AllocError> {
    let ended = call(
        alloc,
        "pale check",
        THREE.as_bytes(),
        &[],
        &[(count as u64).saturating_add(1)],
    )?;
    let wanted = first_reports(alloc, count)?;
    let status = if count < THREE_REPORTS.len() {
        Status::WriteFault
    } else {
        Status::Bad
    };
    Ok(ended.is(status, wanted.as_bytes()))
}

/// A reader sees how far a long run is.
#[test]
fn each_report_is_written_at_once(rt: HostRuntime) -> Result<(), Fail> {
    for count in 0..5 {
        assert!(rt; stops_after(rt.alloc(), count)?, "{count}");
    }
    Ok(())
}

/// Whether the first two reports on a generated module are written where the third write fails.
fn module_stops(alloc: Global) -> Result<bool, AllocError> {
    let text = gen_program(alloc, 5)?;
    let ended = call(alloc, "pale check", text.as_slice(), &[], &[3])?;
    let wanted = b"triple 1 push0 line 4 valid\ntriple 2 reverse1 line 11 valid\n";
    Ok(ended.is(Status::WriteFault, wanted))
}

#[test]
fn a_failed_write_ends_the_run(rt: HostRuntime) -> Result<(), Fail> {
    assert!(rt; module_stops(rt.alloc())?);
    Ok(())
}
