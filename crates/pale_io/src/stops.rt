//! Why a read or a write stops.
ghost use Rattle.std.specs.Prelude.{◌≡◌};
ghost use Rattle.pale_io.specs.declared.stops.ReadStop.TheVariants as read;
ghost use Rattle.pale_io.specs.declared.stops.WriteStop.TheVariants as write;

use std::alloc::AllocError;
use thiserror::Error;

/// The object outside failed, and its count of faults rose.
#[derive(Clone, Copy, Debug, PartialEq, Eq, Error)]
#[error("input or output failed")]
pub struct Failed;

/// Why a write stops.
#[derive(Clone, Copy, Debug, PartialEq, Eq, Error)]
pub enum WriteStop {
    /// The sink failed, and its count of faults rose.
    #[error("output failed")]
    Failed,
    /// The sink has no memory for the bytes.
    #[error("out of memory")]
    NoMemory,
}

/// Why a whole read stops.
#[derive(Clone, Copy, Debug, PartialEq, Eq, Error)]
pub enum ReadStop {
    /// The source failed, and its count of faults rose.
    #[error("input failed")]
    Fault,
    /// There are more bytes than were asked for.
    #[error("input is too long")]
    TooLong,
    /// There is no memory for the bytes.
    #[error("out of memory")]
    NoMemory,
}

impl From<Failed> for WriteStop {
    ghost from_gives = { λ _ stop. stop ≡ write.Failed };

    fn from(_: Failed) -> Self {
        WriteStop::Failed
    }
}

impl From<AllocError> for WriteStop {
    ghost from_gives = { λ _ stop. stop ≡ write.NoMemory };

    fn from(_: AllocError) -> Self {
        WriteStop::NoMemory
    }
}

impl From<Failed> for ReadStop {
    ghost from_gives = { λ _ stop. stop ≡ read.Fault };

    fn from(_: Failed) -> Self {
        ReadStop::Fault
    }
}

impl From<AllocError> for ReadStop {
    ghost from_gives = { λ _ stop. stop ≡ read.NoMemory };

    fn from(_: AllocError) -> Self {
        ReadStop::NoMemory
    }
}
