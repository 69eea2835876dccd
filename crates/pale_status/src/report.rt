//! The line of a refused text, as bytes.
ghost use Rattle.std.specs.Prelude.{◌≡◌, ◌≤◌, IfOk, OnErr, IsErrOf};
ghost use Rattle.pale_io.specs.Faults.{Rose};
ghost use Rattle.pale_status.specs.Report.{Refuses, refused_line};
ghost use Rattle.pale_status.specs.Written.{Wrote, WroteAtMost};

use crate::status::Status;
use crate::writing::say;
use pale_io::{Sink, WriteStop};
use pale_text::{Refusal, TextStop};
use std::alloc::{AllocError, Global};
use store_words::push_number;

/// The line of a refused text: its first fault and where it stands.
fn refused_line(alloc: Global, refusal: &Refusal) -> Result<Vec<u8>, AllocError>
    ensures { IfOk result (λ text. text.items ≡ refused_line refusal.now) }
{
    let mut text = Vec::new(alloc);
    text.extend_from_slice(b"refused ")?;
    push_number(alloc, &mut text, u64::from(refusal.line))?;
    text.extend_from_slice(b":")?;
    push_number(alloc, &mut text, u64::from(refusal.column))?;
    text.extend_from_slice(b" ")?;
    text.extend_from_slice(refusal.kind.word().as_bytes())?;
    text.extend_from_slice(b"\n")?;
    Ok(text)
}

/// Writes the line of a text that wasn't read because of its first fault.
pub fn refuse<K: Sink>(alloc: Global, stop: TextStop, sink: &mut K) -> Result<Status, WriteStop>
    ensures ok { IfOk result (Wrote (Refuses stop) (K.written sink.old) (K.written sink.new)) }
    ensures err { OnErr result (WroteAtMost (Refuses stop) (K.written sink.old) (K.written sink.new)) }
    ensures failed { IsErrOf result WriteStop.Failed → Rose (K.faults sink.old) (K.faults sink.new) }
    ensures kept { K.faults sink.old ≤ K.faults sink.new }
{
    match stop {
        TextStop::Refused(refusal) => {
            let line = refused_line(alloc, &refusal)?;
            say(sink, line.as_slice(), Status::Text)
        }
        TextStop::NoMemory => Err(WriteStop::NoMemory),
    }
}
