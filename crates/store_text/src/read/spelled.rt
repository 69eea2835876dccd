//! What stands in a line: names and values as they are spelled.

use plain_data::Items;
use store_core::ByteList;

/// A value as it is spelled, before it is known what it is a value of.
#[derive(Debug, Drop)]
pub enum Spelled {
    /// `true` or `false`.
    Truth(bool),
    /// `null`.
    Null,
    /// A number.
    Number(u32),
    /// Numbers in braces, in the order of the text.
    Numbers(Items<u32>),
}

/// The name of a variable or field, with its value.
#[derive(Debug, Drop)]
pub struct Given {
    pub name: ByteList,
    pub value: Spelled,
}

/// A line `cell`.
#[derive(Debug, Drop)]
pub struct CellLine {
    pub number: u32,
    pub ty: ByteList,
    pub variant: Option<ByteList>,
    pub fields: Items<Given>,
}

/// A line between `store` and `end`.
#[derive(Debug, Drop)]
pub enum Line {
    Var(Given),
    Cell(CellLine),
}
