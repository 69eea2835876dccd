//! What is written to the sink in one piece, and how a call ends after it.
ghost use Rattle.std.specs.Prelude.{◌≡◌, ◌≤◌, IfOk, OnErr, IsErrOf};
ghost use Rattle.pale_io.specs.Faults.{Rose};
ghost use Rattle.pale_io.specs.Whole.{WritesAll, WritesFront};
ghost use Rattle.pale_status.specs.Written.{EndsBy};

use crate::status::Status;
use pale_io::{Sink, WriteStop, write_all};

/// Writes all that is left of an answer, which has this status.
pub fn say<K: Sink>(sink: &mut K, bytes: &[u8], status: Status) -> Result<Status, WriteStop>
    ensures ok { IfOk result (λ s. (s ≡ status) × WritesAll (K.written sink.old) (K.written sink.new) bytes.now) }
    ensures err { OnErr result (WritesFront (K.written sink.old) (K.written sink.new) bytes.now) }
    ensures failed { IsErrOf result WriteStop.Failed → Rose (K.faults sink.old) (K.faults sink.new) }
    ensures kept { K.faults sink.old ≤ K.faults sink.new }
{
    write_all(sink, bytes)?;
    Ok(status)
}

/// The status of what a sink left.
pub fn ended(outcome: Result<Status, WriteStop>) -> Status
    ensures { EndsBy outcome result }
{
    match outcome {
        Ok(status) => status,
        Err(WriteStop::Failed) => Status::WriteFault,
        Err(WriteStop::NoMemory) => Status::Memory,
    }
}
