//! The edge to the system: a sink over a writer of std.
ghost use Rattle.std.specs.Prelude.{◌≡◌};

use crate::{Sink, WriteStop};
use std::io::Write;

/// A sink over a writer of std. It tells no bytes, and counts every error of its writer as a fault, also an
/// interrupted write, and a write of no byte.
#[derive(Debug, Drop)]
pub struct StdSink<W> {
    writer: W,
    /// Stops at the last value of a u64.
    faults: u64,
}

impl<W: Write> StdSink<W> {
    ghost use Rattle.pale_io.specs.Edge.{sink_writer, sink_faults};

    /// A sink over this writer.
    pub fn new(writer: W) -> StdSink<W>
        ensures writer { sink_writer result ≡ writer }
        ensures faults { sink_faults result ≡ 0 }
    {
        StdSink { writer, faults: 0 }
    }

    /// How often its writer has failed. The count stops at the last value of a u64.
    pub fn faults(&self) -> u64
        ensures { result ≡ sink_faults self.now }
    {
        self.faults
    }
}

impl<W: Write> Sink for StdSink<W> {
    ghost use Rattle.std.specs.Prelude.{◌≡◌, ◌<◌, ◌≤◌, length, take, IfOk, OnOk, OnErr, IsErrOf, IsOkUnless};
    ghost use Rattle.std.specs.Io.KnownBytes.{WriteAppends};
    ghost use Rattle.pale_io.specs.Faults.{Rose, raised};
    ghost use Rattle.pale_io.specs.Told.{appended};
    ghost use Rattle.pale_io.specs.Edge.{sink_writer, sink_faults, sink_written};

    ghost written = { sink_written };

    ghost faults = { sink_faults };

    /// One write of its writer. An error of the writer is a fault, and so is a write of no byte where the piece
    /// isn't empty.
    fn write(&mut self, bytes: &[u8]) -> Result<usize, WriteStop>
        ensures bound { IfOk result (λ count. count ≤ length bytes.now) }
        ensures some { IfOk result (λ count. 0 < length bytes.now → 0 < count) }
        ensures added { IfOk result (λ count. sink_written self.new ≡ appended (sink_written self.old) (take count bytes.now)) }
        ensures failed { IsErrOf result WriteStop.Failed → Rose (sink_faults self.old) (sink_faults self.new) }
        ensures err { OnErr result (sink_written self.new ≡ sink_written self.old) }
        ensures kept { sink_faults self.old ≤ sink_faults self.new }

        ensures bytes { WriteAppends (W.contents (sink_writer self.old)) (W.contents (sink_writer self.new)) result bytes.now }
        ensures success { OnOk result (sink_faults self.new ≡ sink_faults self.old) }
        ensures fault { OnErr result (sink_faults self.new ≡ raised (sink_faults self.old)) }
        ensures only { IsOkUnless result WriteStop.Failed }
    {
        match self.writer.write(bytes) {
            Ok(count) if count > 0 || bytes.is_empty() => Ok(count),
            _ => {
                self.faults = self.faults.saturating_add(1);
                Err(WriteStop::Failed)
            }
        }
    }
}
