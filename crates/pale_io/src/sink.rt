//! What bytes are written to.
ghost use Rattle.std.specs.Prelude.{◌≡◌, ℕ, ◌<◌, ◌≤◌, List, Option, length, take, IfOk, OnErr, IsErrOf};
ghost use Rattle.pale_io.specs.Faults.{Rose};
ghost use Rattle.pale_io.specs.Told.{appended};

use crate::WriteStop;

/// A place that bytes are written to, a piece at a time.
pub trait Sink {
    /// The bytes written so far, where it tells them.
    ghost written: { Self → Option (List ℕ) };

    /// How often it has failed. The count stops at the last value of a u64.
    ghost faults: { Self → ℕ };

    /// Takes bytes from the front of the piece, at least one where the piece isn't empty, and says how many.
    /// `Failed` comes only where the count of faults rose, and `NoMemory` where the sink has no memory for the
    /// bytes. Both leave the bytes written as they were.
    fn write(&mut self, bytes: &[u8]) -> Result<usize, WriteStop>
        ensures bound { IfOk result (λ count. count ≤ length bytes.now) }
        ensures some { IfOk result (λ count. 0 < length bytes.now → 0 < count) }
        ensures added { IfOk result (λ count. written self.new ≡ appended (written self.old) (take count bytes.now)) }

        ensures failed { IsErrOf result WriteStop.Failed → Rose (faults self.old) (faults self.new) }
        ensures err { OnErr result (written self.new ≡ written self.old) }

        ensures kept { faults self.old ≤ faults self.new };
}
