//! Why tokens are not read.

use std::alloc::AllocError;
use thiserror::Error;

/// Why tokens are not read, and at which of them. A place counts from 0.
#[derive(Clone, Copy, Debug, PartialEq, Eq, Error)]
pub enum ReadStop {
    /// No sentence goes on with the token at this place. Where it is the number of tokens, these are no sentence.
    #[error("token {0} can't stand there")]
    Wrong(usize),
    /// The token at this place opens a level above the limit.
    #[error("token {0} opens a level too many")]
    Deep(usize),
    /// Memory ran out, which says nothing of the tokens.
    #[error("out of memory")]
    NoMemory,
}

impl From<AllocError> for ReadStop {
    ghost use Rattle.std.specs.Prelude.{◌≡◌};
    ghost use Rattle.ll1_reader.specs.declared.stop.ReadStop.TheVariants.{NoMemory};

    ghost from_gives = { λ _ e. e ≡ NoMemory };

    fn from(_: AllocError) -> ReadStop {
        ReadStop::NoMemory
    }
}
