//! Why a call that makes nodes stops.

use bdd_nodes::Full;
use std::alloc::{AllocError, AllocFailed};
use thiserror::Error;

/// Want of memory alone.
pub type NoMemory = AllocError;

/// Why a call that makes nodes stops.
#[derive(Clone, Copy, Debug, PartialEq, Eq, Error)]
pub enum Stop {
    /// The shelf has no room for the result's nodes.
    #[error("no room for the nodes")]
    Limit,
    /// Want of memory.
    #[error("out of memory")]
    NoMemory,
}

impl From<Full> for Stop {
    ghost use Rattle.std.specs.Prelude.{◌≡◌};
    ghost use Rattle.bdd_walk.specs.declared.stop.Stop.TheVariants.{Limit};

    ghost from_gives = { λ _ why. why ≡ Limit };

    fn from(_full: Full) -> Stop {
        Stop::Limit
    }
}

impl From<AllocError> for Stop {
    ghost use Rattle.std.specs.Prelude.{◌≡◌};
    ghost use Rattle.bdd_walk.specs.declared.stop.Stop.TheVariants as stop;

    ghost from_gives = { λ _ why. why ≡ stop.NoMemory };

    fn from(_failed: AllocError) -> Stop {
        Stop::NoMemory
    }
}

impl<T: Drop> From<AllocFailed<T>> for Stop {
    ghost use Rattle.std.specs.Prelude.{◌≡◌};
    ghost use Rattle.bdd_walk.specs.declared.stop.Stop.TheVariants as stop;

    ghost from_gives = { λ _ why. why ≡ stop.NoMemory };

    fn from(_failed: AllocFailed<T>) -> Stop {
        Stop::NoMemory
    }
}
