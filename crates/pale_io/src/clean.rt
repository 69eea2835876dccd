//! A source and a sink in memory that never fail.
ghost use Rattle.std.specs.Prelude.{◌≡◌, ◌+◌, ◌<◌, ◌≤◌, ◌++◌, [], List, ℕ, min, length, take, drop, Some, Ok, IfOk, OnErr, IsErrOf, IsOkUnless};
ghost use Rattle.pale_io.specs.Faults.{Rose};
ghost use Rattle.pale_io.specs.Told.{prepended, appended, IsEmpty};

use crate::{Failed, Sink, Source, WriteStop};
use std::alloc::Global;
use std::marker::Model;

/// A source in memory that never fails. A clause sees the bytes that it has left.
#[derive(Debug, Drop)]
pub struct CleanSource {
    text: Vec<u8>,
    /// How many of them were read.
    taken: usize,
}

impl Model for CleanSource {
    ghost Value = { List ℕ };

    ghost view = { λ source. drop source.taken source.text.items };

    ghost invariant = { λ source. source.taken ≤ length source.text.items };
}

impl CleanSource {
    /// A source of this text.
    pub fn new(text: Vec<u8>) -> CleanSource
        ensures { result ≡ text.items }
    {
        CleanSource { text, taken: 0 }
    }

    /// The bytes that it has left.
    pub fn left(&self) -> &[u8]
        ensures { result.now ≡ self.now }
    {
        &self.text[self.taken..]
    }

    /// How often it has failed: never.
    pub fn faults(&self) -> u64
        ensures { result ≡ 0 }
    {
        0
    }
}

impl Source for CleanSource {
    ghost left = { λ source. Some source };

    ghost faults = { λ _. 0 };

    /// Moves as many bytes as fit.
    fn read(&mut self, buf: &mut [u8]) -> Result<usize, Failed>
        ensures room { IfOk result (λ count. count ≤ length buf.new) }
        ensures moved { IfOk result (λ count. Some self.old ≡ prepended (take count buf.new) (Some self.new)) }
        ensures end { IfOk result (λ count. count ≡ 0 → 0 < length buf.new → IsEmpty (Some self.old)) }
        ensures failed { OnErr result (Rose 0 0) }
        ensures err { OnErr result (Some self.new ≡ Some self.old) }
        ensures err_buffer { OnErr result (buf.new ≡ buf.old) }
        ensures kept { 0 ≤ 0 }

        ensures count { result ≡ Ok (min (length self.old) (length buf.old)) }
    {
        let count = move_front(self.left(), buf);
        self.taken += count;
        Ok(count)
    }
}

// Moves as many bytes as fit into the front of the buffer, and says how many.
fn move_front(left: &[u8], buf: &mut [u8]) -> usize
    ensures count { result ≡ min (length left.now) (length buf.old) }
    ensures front { left.now ≡ take result buf.new ++ drop result left.now }
    ensures rest { drop result buf.new ≡ drop result buf.old }
{
    let count = left.len().min(buf.len());
    buf[..count].copy_from_slice(&left[..count]);
    count
}

/// A sink in memory that never fails, and may want memory. A clause sees the bytes written to it.
#[derive(Debug, Drop)]
pub struct CleanSink {
    bytes: Vec<u8>,
}

impl Model for CleanSink {
    ghost Value = { List ℕ };

    ghost view = { λ sink. sink.bytes.items };
}

impl CleanSink {
    /// A sink with no bytes.
    pub fn new(alloc: Global) -> CleanSink
        ensures { result ≡ [] }
    {
        CleanSink {
            bytes: Vec::new(alloc),
        }
    }

    /// The bytes written to it.
    pub fn written(&self) -> &[u8]
        ensures { result.now ≡ self.now }
    {
        &self.bytes
    }

    /// How often it has failed: never.
    pub fn faults(&self) -> u64
        ensures { result ≡ 0 }
    {
        0
    }
}

impl Sink for CleanSink {
    ghost written = { λ sink. Some sink };

    ghost faults = { λ _. 0 };

    /// Takes the whole piece, or wants memory.
    fn write(&mut self, bytes: &[u8]) -> Result<usize, WriteStop>
        ensures bound { IfOk result (λ count. count ≤ length bytes.now) }
        ensures some { IfOk result (λ count. 0 < length bytes.now → 0 < count) }
        ensures added { IfOk result (λ count. Some self.new ≡ appended (Some self.old) (take count bytes.now)) }
        ensures failed { IsErrOf result WriteStop.Failed → Rose 0 0 }
        ensures err { OnErr result (Some self.new ≡ Some self.old) }
        ensures kept { 0 ≤ 0 }

        ensures count { IfOk result (λ count. count ≡ length bytes.now) }
        ensures memory { IsOkUnless result WriteStop.NoMemory }
    {
        self.bytes.extend_from_slice(bytes)?;
        Ok(bytes.len())
    }
}
