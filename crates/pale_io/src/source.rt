//! What bytes are read from.
ghost use Rattle.std.specs.Prelude.{◌≡◌, ℕ, ◌<◌, ◌≤◌, List, Option, length, take, IfOk, OnErr};
ghost use Rattle.pale_io.specs.Faults.{Rose};
ghost use Rattle.pale_io.specs.Told.{prepended, IsEmpty};

use crate::Failed;

/// A place that bytes are read from, a piece at a time.
pub trait Source {
    /// The bytes that it has left, where it tells them.
    ghost left: { Self → Option (List ℕ) };

    /// How often it has failed. The count stops at the last value of a u64.
    ghost faults: { Self → ℕ };

    /// Moves the next bytes into the front of the buffer, and says how many: 0 is the end, where the buffer isn't
    /// empty. `Failed` comes only where the count of faults rose, and then what is left and the buffer stand as
    /// they were. What stands in the buffer behind the bytes that were moved is open.
    fn read(&mut self, buf: &mut [u8]) -> Result<usize, Failed>
        ensures room { IfOk result (λ count. count ≤ length buf.new) }
        ensures moved { IfOk result (λ count. left self.old ≡ prepended (take count buf.new) (left self.new)) }
        ensures end { IfOk result (λ count. count ≡ 0 → 0 < length buf.new → IsEmpty (left self.old)) }

        ensures failed { OnErr result (Rose (faults self.old) (faults self.new)) }
        ensures err { OnErr result (left self.new ≡ left self.old) }
        ensures err_buffer { OnErr result (buf.new ≡ buf.old) }

        ensures kept { faults self.old ≤ faults self.new };
}
