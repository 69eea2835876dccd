//! A source and a sink in memory whose calls with listed numbers fail.
ghost use Rattle.std.specs.Prelude.{◌≡◌, ◌↔◌, ◌+◌, ◌<◌, ◌≤◌, ◌++◌, [], List, ℕ, min, length, take, drop, Some, Ok, IsErr, IfOk, OnErr, OnOk, IsErrOf};
ghost use Rattle.pale_io.specs.Faults.{Rose};
ghost use Rattle.pale_io.specs.Told.{prepended, appended, IsEmpty};

use crate::plan::FaultPlan;
use crate::{CleanSink, CleanSource, Failed, Sink, Source, WriteStop};
use std::alloc::Global;
use std::marker::Model;

/// A source in memory whose calls with listed numbers fail. A clause sees it as a `SourceState` of `specs/Plan.antt`.
#[derive(Debug, Drop)]
pub struct MemSource {
    bytes: CleanSource,
    calls: FaultPlan,
}

impl Model for MemSource {
    ghost use Rattle.pale_io.specs.Plan.{SourceState};

    ghost Value = { SourceState };

    ghost view = { λ source. record { left = source.bytes; plan = source.calls } };
}

impl MemSource {
    ghost use Rattle.pale_io.specs.Plan.{first_plan};

    /// A source of this text, whose calls with these numbers fail. Calls count from 1.
    pub fn new(text: Vec<u8>, failing: Vec<u64>) -> MemSource
        ensures { result ≡ record { left = text.items; plan = first_plan failing.items } }
    {
        MemSource {
            bytes: CleanSource::new(text),
            calls: FaultPlan::new(failing),
        }
    }

    /// The bytes that it has left.
    pub fn left(&self) -> &[u8]
        ensures { result.now ≡ self.now.left }
    {
        self.bytes.left()
    }

    /// How many calls have failed. The count stops at the last value of a u64.
    pub fn faults(&self) -> u64
        ensures { result ≡ self.now.plan.faults }
    {
        self.calls.faults()
    }
}

impl Source for MemSource {
    ghost use Rattle.std.specs.Prelude.{◌≡◌, ◌↔◌, ◌<◌, ◌≤◌, min, length, take, drop, Some, Ok, IsErr, IfOk, OnErr, OnOk};
    ghost use Rattle.pale_io.specs.Plan.{FailsNext, after_success, after_fault};

    ghost left = { λ source. Some source.left };

    ghost faults = { λ source. source.plan.faults };

    /// Fails exactly at the listed calls, and else moves as many bytes as fit.
    fn read(&mut self, buf: &mut [u8]) -> Result<usize, Failed>
        ensures room { IfOk result (λ count. count ≤ length buf.new) }
        ensures moved { IfOk result (λ count. Some self.old.left ≡ prepended (take count buf.new) (Some self.new.left)) }
        ensures end { IfOk result (λ count. count ≡ 0 → 0 < length buf.new → IsEmpty (Some self.old.left)) }
        ensures failed { OnErr result (Rose self.old.plan.faults self.new.plan.faults) }
        ensures err { OnErr result (Some self.new.left ≡ Some self.old.left) }
        ensures err_buffer { OnErr result (buf.new ≡ buf.old) }
        ensures kept { self.old.plan.faults ≤ self.new.plan.faults }

        ensures fails { IsErr result ↔ FailsNext self.old.plan }
        ensures count { IfOk result (λ count. count ≡ min (length self.old.left) (length buf.old)) }
        ensures success { OnOk result (self.new.plan ≡ after_success self.old.plan) }
        ensures fault { OnErr result (self.new.plan ≡ after_fault self.old.plan) }
    {
        if self.calls.fails_next() {
            return Err(Failed);
        }
        self.bytes.read(buf)
    }
}

/// A sink in memory whose calls with listed numbers fail, and which may want memory. A clause sees it as a
/// `SinkState` of `specs/Plan.antt`.
#[derive(Debug, Drop)]
pub struct MemSink {
    bytes: CleanSink,
    calls: FaultPlan,
}

impl Model for MemSink {
    ghost use Rattle.pale_io.specs.Plan.{SinkState};

    ghost Value = { SinkState };

    ghost view = { λ sink. record { written = sink.bytes; plan = sink.calls } };
}

impl MemSink {
    ghost use Rattle.pale_io.specs.Plan.{first_plan};

    /// A sink with no bytes, whose calls with these numbers fail. Calls count from 1.
    pub fn new(alloc: Global, failing: Vec<u64>) -> MemSink
        ensures { result ≡ record { written = []; plan = first_plan failing.items } }
    {
        MemSink {
            bytes: CleanSink::new(alloc),
            calls: FaultPlan::new(failing),
        }
    }

    /// The bytes written to it.
    pub fn written(&self) -> &[u8]
        ensures { result.now ≡ self.now.written }
    {
        self.bytes.written()
    }

    /// How many calls have failed. The count stops at the last value of a u64.
    pub fn faults(&self) -> u64
        ensures { result ≡ self.now.plan.faults }
    {
        self.calls.faults()
    }
}

impl Sink for MemSink {
    ghost use Rattle.std.specs.Prelude.{◌≡◌, ◌↔◌, ◌<◌, ◌≤◌, length, take, Some, IfOk, OnErr, OnOk, IsErrOf};
    ghost use Rattle.pale_io.specs.Plan.{FailsNext, after_success, after_fault};

    ghost written = { λ sink. Some sink.written };

    ghost faults = { λ sink. sink.plan.faults };

    /// Fails exactly at the listed calls, and else takes the whole piece or wants memory.
    fn write(&mut self, bytes: &[u8]) -> Result<usize, WriteStop>
        ensures bound { IfOk result (λ count. count ≤ length bytes.now) }
        ensures some { IfOk result (λ count. 0 < length bytes.now → 0 < count) }
        ensures added { IfOk result (λ count. Some self.new.written ≡ appended (Some self.old.written) (take count bytes.now)) }
        ensures failed { IsErrOf result WriteStop.Failed → Rose self.old.plan.faults self.new.plan.faults }
        ensures err { OnErr result (Some self.new.written ≡ Some self.old.written) }
        ensures kept { self.old.plan.faults ≤ self.new.plan.faults }

        ensures fails { IsErrOf result WriteStop.Failed ↔ FailsNext self.old.plan }
        ensures count { IfOk result (λ count. count ≡ length bytes.now) }
        ensures success { OnOk result (self.new.plan ≡ after_success self.old.plan) }
        ensures fault { IsErrOf result WriteStop.Failed → self.new.plan ≡ after_fault self.old.plan }
        ensures memory { IsErrOf result WriteStop.NoMemory → self.new.plan ≡ after_success self.old.plan }
    {
        if self.calls.fails_next() {
            return Err(WriteStop::Failed);
        }
        self.bytes.write(bytes)
    }
}
