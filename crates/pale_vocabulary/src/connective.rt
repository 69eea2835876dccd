//! Connectives.

/// What joins two assertions.
#[derive(Clone, Copy, Debug, PartialEq, Eq)]
pub enum Connective {
    And,
    Or,
    Imp,
    Iff,
}
