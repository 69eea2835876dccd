//! Why execution goes no further.

use crate::cause::Cause;
use std::alloc::{AllocError, AllocFailed};

/// What stops an act or a condition.
#[derive(Clone, Copy, Debug, PartialEq, Eq)]
pub enum Halt {
    /// It fails with this cause.
    Fails(Cause),
    /// Want of memory.
    NoMemory,
}

impl From<Cause> for Halt {
    ghost use Rattle.std.specs.Prelude.{◌≡◌};
    ghost use Rattle.store_exec.specs.declared.halt.Halt.TheVariants.{Fails};

    ghost from_gives = { λ cause why. why ≡ Fails cause };

    fn from(cause: Cause) -> Halt {
        Halt::Fails(cause)
    }
}

impl From<AllocError> for Halt {
    ghost use Rattle.std.specs.Prelude.{◌≡◌};
    ghost use Rattle.store_exec.specs.declared.halt.Halt.TheVariants.{NoMemory};

    ghost from_gives = { λ _ why. why ≡ NoMemory };

    fn from(_failed: AllocError) -> Halt {
        Halt::NoMemory
    }
}

impl<T: Drop> From<AllocFailed<T>> for Halt {
    ghost use Rattle.std.specs.Prelude.{◌≡◌};
    ghost use Rattle.store_exec.specs.declared.halt.Halt.TheVariants.{NoMemory};

    ghost from_gives = { λ _ why. why ≡ NoMemory };

    fn from(_failed: AllocFailed<T>) -> Halt {
        Halt::NoMemory
    }
}
