//! Which calls of an object in memory fail.
ghost use Rattle.std.specs.Prelude.{◌≡◌, ◌↔◌, ◌≤◌, List, ℕ, IsTrue};
ghost use Rattle.std.specs.Bool.{OnTrue, OnFalse};

use std::marker::Model;

/// Counts calls, and fails those that it was told to. A clause sees it as a `Plan` of `specs/Plan.antt`.
#[derive(Debug, Drop)]
pub(crate) struct FaultPlan {
    failing: Vec<u64>,
    /// The number of the next call, where a u64 is left for it.
    next: Option<u64>,
    faults: u64,
}

impl Model for FaultPlan {
    ghost use Rattle.pale_io.specs.Plan.{Plan};

    ghost Value = { Plan };

    ghost view = { λ plan. record { failing = plan.failing.items; next = plan.next; faults = plan.faults } };
}

impl FaultPlan {
    ghost use Rattle.pale_io.specs.Plan.{first_plan, FailsNext, after_success, after_fault};

    pub(crate) fn new(failing: Vec<u64>) -> FaultPlan
        ensures { result ≡ first_plan failing.items }
    {
        FaultPlan {
            failing,
            next: Some(1),
            faults: 0,
        }
    }

    // Counts a call, and the fault where it fails. Says whether it fails.
    pub(crate) fn fails_next(&mut self) -> bool
        ensures fails { IsTrue result ↔ FailsNext self.old }
        ensures fault { OnTrue result (self.new ≡ after_fault self.old) }
        ensures success { OnFalse result (self.new ≡ after_success self.old) }
        ensures kept { self.old.faults ≤ self.new.faults }
    {
        let Some(number) = self.next else {
            return false;
        };
        self.next = number.checked_add(1);
        if self.failing.contains(&number) {
            self.faults = self.faults.saturating_add(1);
            return true;
        }
        false
    }

    pub(crate) fn faults(&self) -> u64
        ensures { result ≡ self.now.faults }
    {
        self.faults
    }
}
