//! The texts that a call reads.

/// The most bytes that a text may have.
pub const MOST_BYTES: usize = 1_048_576;
