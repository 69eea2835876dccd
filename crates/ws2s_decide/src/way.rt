//! How a formula is decided.

/// What a decision may leave out.
#[derive(Clone, Copy, Debug)]
pub(crate) struct Way {
    /// Whether a limit is answered as soon as it is licensed; else every task is tried, unless the automata that wait have
    /// too many places as well. Only the Peak of the formula as it stands licenses a limit.
    pub(crate) stops_early: bool,
    /// Whether no other formula is decided afterwards: then what doesn't come again isn't kept.
    pub(crate) once: bool,
}
