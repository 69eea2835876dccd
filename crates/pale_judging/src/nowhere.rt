//! A sink that takes everything and keeps nothing.
ghost use Rattle.std.specs.Prelude.{◌≡◌, ◌<◌, ◌≤◌, ℕ, List, Option, None, Ok, length, take, IfOk, OnErr, IsErrOf};
ghost use Rattle.pale_io.specs.Faults.{Rose};
ghost use Rattle.pale_io.specs.Told.{appended};

use pale_io::{Sink, WriteStop};

/// Where reports go that are only counted. It tells of no bytes, and never fails.
#[derive(Clone, Copy, Debug)]
pub(crate) struct Nowhere;

impl Sink for Nowhere {
    ghost written = { λ _. None };

    ghost faults = { λ _. 0 };

    /// Takes the whole piece.
    fn write(&mut self, bytes: &[u8]) -> Result<usize, WriteStop>
        ensures bound { IfOk result (λ count. count ≤ length bytes.now) }
        ensures some { IfOk result (λ count. 0 < length bytes.now → 0 < count) }
        ensures added { IfOk result (λ count. None ≡ appended None (take count bytes.now)) }
        ensures failed { IsErrOf result WriteStop.Failed → Rose 0 0 }
        ensures err { OnErr result (◌≡◌ {A = Option (List ℕ)} None None) }
        ensures kept { 0 ≤ 0 }

        ensures all { result ≡ Ok (length bytes.now) }
    {
        Ok(bytes.len())
    }
}
