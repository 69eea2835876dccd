//! A whole write.
ghost use Rattle.std.specs.Prelude.{◌≤◌, OnOk, OnErr, IsErrOf};
ghost use Rattle.pale_io.specs.Faults.{Rose};
ghost use Rattle.pale_io.specs.Whole.{WritesAll, WritesFront};

use crate::{Sink, WriteStop};

/// Writes all of the bytes. Takes no memory of its own.
///
/// `Failed` comes only where the sink's count of faults rose, and `NoMemory` where the sink answers it. After
/// either the sink holds what it held before, and a front of these bytes.
pub fn write_all<K: Sink>(sink: &mut K, bytes: &[u8]) -> Result<(), WriteStop>
    ensures whole { OnOk result (WritesAll (K.written sink.old) (K.written sink.new) bytes.now) }

    ensures failed { IsErrOf result WriteStop.Failed → Rose (K.faults sink.old) (K.faults sink.new) }
    ensures err { OnErr result (WritesFront (K.written sink.old) (K.written sink.new) bytes.now) }

    ensures kept { K.faults sink.old ≤ K.faults sink.new }
{
    let mut rest = bytes;
    while !rest.is_empty() {
        let count = sink.write(rest)?;
        rest = &rest[count..];
    }
    Ok(())
}
