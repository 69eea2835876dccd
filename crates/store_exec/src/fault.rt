//! Where execution stops.

use crate::cause::Cause;

/// A cause, and the line where it comes.
#[derive(Clone, Copy, Debug, PartialEq, Eq)]
pub struct Fault {
    pub cause: Cause,
    pub line: u32,
}
