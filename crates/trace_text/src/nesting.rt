//! Which procedure runs, and which calls wait.

ghost use Rattle.std.specs.Prelude.{◌≡◌, [], ◌∷◌, OnOk};

use plain_data::Stack;
use std::alloc::{AllocError, Global};

/// A call that waits.
#[derive(Clone, Copy)]
pub(crate) struct Call {
    pub line: u32,
    /// The number of its caller.
    pub caller: u32,
}

/// The procedure that runs, and the calls that wait, the last one first.
#[derive(Drop)]
pub(crate) struct Nesting {
    pub proc: u32,
    pub calls: Stack<Call>,
}

impl Nesting {
    /// In this procedure, and no call waits.
    pub(crate) fn new(alloc: Global, proc: u32) -> Nesting
        ensures { result ≡ record { proc = proc; calls = [] } }
    {
        Nesting {
            proc,
            calls: Stack::new(alloc),
        }
    }

    /// The procedure of this number is called at this line.
    pub(crate) fn enter(&mut self, line: u32, callee: u32) -> Result<(), AllocError>
        ensures { OnOk result (self.new ≡ record { proc = callee; calls = record { line = line; caller = self.old.proc } ∷ self.old.calls }) }
    {
        let caller = self.proc;
        self.calls.push(Call { line, caller })?;
        self.proc = callee;
        Ok(())
    }
}
