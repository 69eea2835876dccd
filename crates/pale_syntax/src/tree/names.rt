//! Names, paths and terms.

use pale_text::{ByteList, Pos};
use plain_data::Items;

/// A name where it stands in a text.
#[derive(Debug, Drop)]
pub struct Name {
    pub bytes: ByteList,
    /// The place of its first byte.
    pub place: Pos,
}

/// `x.f.g`: a variable, and the fields that lead on from its cell.
#[derive(Debug, Drop)]
pub struct Path {
    pub base: Name,
    pub fields: Items<Name>,
}

/// What a comparison compares.
#[derive(Debug, Drop)]
pub enum Term {
    /// `null`, and its place.
    Null(Pos),
    Path(Path),
}
