//! The grammar of WS2S text as tables, row by row as `specs/SourceGrammar.antt` has it.

mod first;
mod formulas;
mod items;
mod numbers;
mod production;
mod productions;
mod rows;
mod symbols;

pub(crate) use first::first_set;
pub(crate) use numbers::number_of;
pub(crate) use production::SourceProduction;
pub(crate) use productions::productions_of;
pub(crate) use rows::row_of;
pub(crate) use symbols::SourceSymbol;
