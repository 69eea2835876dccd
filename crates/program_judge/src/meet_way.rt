//! How a triple's start was told.

/// How a triple's start was told.
#[derive(Clone, Copy, Debug, PartialEq, Eq)]
pub enum MeetWay {
    /// A store meets it.
    Met,
    /// No store does.
    Empty,
    /// It came to the limit.
    Limit,
}
