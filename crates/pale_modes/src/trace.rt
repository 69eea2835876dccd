//! The mode `trace`: each step of a store's execution through a triple, or of a procedure's run.
ghost use Rattle.std.specs.Prelude.{◌≡◌, ◌≤◌, length, IfOk, OnErr, IsErrOf};
ghost use Rattle.pale_io.specs.Faults.{Rose};
ghost use Rattle.pale_status.specs.Written.{Wrote, WroteAtMost};
ghost use Rattle.pale_modes.specs.Tracing.{Traces, status_of};
ghost use Rattle.pale_status.specs.Texts.{most_bytes};

use pale_io::{Sink, WriteStop};
use pale_status::{Status, refuse, say};
use pale_trace::{Ending, trace};
use std::alloc::Global;

fn status_of(how: Ending) -> Status
    ensures { result ≡ status_of how }
{
    match how {
        Ending::StoreRefused(_, _) | Ending::NotWellFormed(_) | Ending::StartFalse => Status::Text,
        Ending::Fails(_, _) => Status::Bad,
        Ending::Ends(_) | Ending::Running | Ending::Exits => Status::Good,
    }
}

/// Writes what is said of a text that isn't too long: each step of its store's execution in a triple or a run of its program, how it
/// ended and where it stands, or the line of the text's first fault.
pub fn trace_text<K: Sink>(alloc: Global, text: &[u8], sink: &mut K) -> Result<Status, WriteStop>
    requires { length text.now ≤ most_bytes }
    ensures ok { IfOk result (Wrote (Traces text.now) (K.written sink.old) (K.written sink.new)) }
    ensures err { OnErr result (WroteAtMost (Traces text.now) (K.written sink.old) (K.written sink.new)) }
    ensures failed { IsErrOf result WriteStop.Failed → Rose (K.faults sink.old) (K.faults sink.new) }
    ensures kept { K.faults sink.old ≤ K.faults sink.new }
{
    match trace(alloc, text) {
        Ok(said) => say(sink, said.text.as_slice(), status_of(said.ending)),
        Err(stop) => refuse(alloc, stop, sink),
    }
}
