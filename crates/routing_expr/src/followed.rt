//! Which fields a walk goes along.

/// Which fields the routes `f` and `^f` speak of.
#[derive(Clone, Copy, Debug, PartialEq, Eq)]
pub enum Followed {
    /// Data fields alone, as in the route of a pointer field.
    Data,
    /// Data fields and pointer fields, as in an assertion.
    DataAndPointers,
}
