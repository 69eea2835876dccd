//! The edge to the system: a source over a reader of std.
ghost use Rattle.std.specs.Prelude.{◌≡◌};

use crate::{Failed, Source};
use std::io::Read;

// The bytes that a source takes from its reader at once.
const PIECE: usize = 4096;

/// A source over a reader of std. It tells no bytes, and counts every error of its reader as a fault, also an
/// interrupted read.
#[derive(Debug, Drop)]
pub struct StdSource<R> {
    reader: R,
    /// Stops at the last value of a u64.
    faults: u64,
}

impl<R: Read> StdSource<R> {
    ghost use Rattle.pale_io.specs.Edge.{source_reader, source_faults};

    /// A source over this reader.
    pub fn new(reader: R) -> StdSource<R>
        ensures reader { source_reader result ≡ reader }
        ensures faults { source_faults result ≡ 0 }
    {
        StdSource { reader, faults: 0 }
    }

    /// How often its reader has failed. The count stops at the last value of a u64.
    pub fn faults(&self) -> u64
        ensures { result ≡ source_faults self.now }
    {
        self.faults
    }
}

impl<R: Read> Source for StdSource<R> {
    ghost use Rattle.std.specs.Prelude.{◌≡◌, ◌<◌, ◌≤◌, length, take, IfOk, OnOk, OnErr};
    ghost use Rattle.std.specs.Io.KnownBytes.{ReadConsumes};
    ghost use Rattle.pale_io.specs.Faults.{Rose, raised};
    ghost use Rattle.pale_io.specs.Told.{prepended, IsEmpty};
    ghost use Rattle.pale_io.specs.Edge.{source_reader, source_faults, source_left};

    ghost left = { source_left };

    ghost faults = { source_faults };

    /// One read of its reader, of at most 4,096 bytes. An error of the reader is a fault.
    fn read(&mut self, buf: &mut [u8]) -> Result<usize, Failed>
        ensures room { IfOk result (λ count. count ≤ length buf.new) }
        ensures moved { IfOk result (λ count. source_left self.old ≡ prepended (take count buf.new) (source_left self.new)) }
        ensures end { IfOk result (λ count. count ≡ 0 → 0 < length buf.new → IsEmpty (source_left self.old)) }
        ensures failed { OnErr result (Rose (source_faults self.old) (source_faults self.new)) }
        ensures err { OnErr result (source_left self.new ≡ source_left self.old) }
        ensures err_buffer { OnErr result (buf.new ≡ buf.old) }
        ensures kept { source_faults self.old ≤ source_faults self.new }

        ensures bytes { ReadConsumes (R.remaining (source_reader self.old)) (R.remaining (source_reader self.new)) result buf.new }
        ensures success { OnOk result (source_faults self.new ≡ source_faults self.old) }
        ensures fault { OnErr result (source_faults self.new ≡ raised (source_faults self.old)) }
    {
        // A reader that fails may have written into its buffer, and the caller's is to stand as it was.
        let mut piece = [0; PIECE];
        let room = buf.len().min(PIECE);
        match self.reader.read(&mut piece[..room]) {
            Ok(count) => {
                buf[..count].copy_from_slice(&piece[..count]);
                Ok(count)
            }
            Err(_) => {
                self.faults = self.faults.saturating_add(1);
                Err(Failed)
            }
        }
    }
}
