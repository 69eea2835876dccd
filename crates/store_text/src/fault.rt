//! Why a store text is refused, and at which line.

ghost use Rattle.std.specs.Prelude.{◌≡◌};
ghost use Rattle.store_text.specs.Faults.{word_of};

use std::alloc::{AllocError, AllocFailed};
use thiserror::Error;

/// The rule that a line of a store text breaks, or want of memory.
#[derive(Clone, Copy, Debug, PartialEq, Eq)]
pub enum StoreKind {
    /// The line has none of the forms for its place.
    Syntax,
    /// A variable, type, variant or field isn't in the tables, or the cell's variant hasn't the field.
    UnknownName,
    /// A value is of another class, or names a cell of another type.
    WrongType,
    /// A variable, cell, field or member of a set stands there again.
    Repeated,
    /// A variable, a field of the cell's variant, the variant of a type with named ones, or the line `end` isn't there.
    Missing,
    /// Memory ran out, which says nothing of the text.
    NoMemory,
}

impl StoreKind {
    /// The word that is printed for it. Takes no memory.
    pub fn word(&self) -> &'static str
        ensures { result.now ≡ word_of self.now }
    {
        match self {
            StoreKind::Syntax => "syntax",
            StoreKind::UnknownName => "unknown-name",
            StoreKind::WrongType => "wrong-type",
            StoreKind::Repeated => "repeated",
            StoreKind::Missing => "missing",
            StoreKind::NoMemory => "no-memory",
        }
    }
}

impl From<AllocError> for StoreKind {
    ghost use Rattle.std.specs.Prelude.{◌≡◌};
    ghost use Rattle.store_text.specs.declared.fault.StoreKind.TheVariants.{NoMemory};

    ghost from_gives = { λ _ kind. kind ≡ NoMemory };

    fn from(_: AllocError) -> StoreKind {
        StoreKind::NoMemory
    }
}

impl<T: Drop> From<AllocFailed<T>> for StoreKind {
    ghost use Rattle.std.specs.Prelude.{◌≡◌};
    ghost use Rattle.store_text.specs.declared.fault.StoreKind.TheVariants.{NoMemory};

    ghost from_gives = { λ _ kind. kind ≡ NoMemory };

    fn from(_: AllocFailed<T>) -> StoreKind {
        StoreKind::NoMemory
    }
}

/// Why a store text is refused, and at which line, counted from 1; or that memory ran out, at whatever line.
#[derive(Clone, Copy, Debug, PartialEq, Eq, Error)]
#[error("store refused {line} {}", .kind.word())]
pub struct StoreFault {
    pub line: u32,
    pub kind: StoreKind,
}
