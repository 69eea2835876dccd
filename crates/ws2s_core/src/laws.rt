//! Laws of satisfaction, of automata that recognise formulas, and of trees; and worked examples.

pub mod examples;
pub mod recognising;
pub mod satisfaction;
pub mod trees;
