//! The grammar of programs as tables, row by row as `specs/ProgramGrammar.antt` of `pale_syntax` has it.

mod assertions;
mod conditions;
mod first;
mod numbers;
mod predicates;
mod procedures;
mod production;
mod productions;
mod routes;
mod rows;
mod statements;
mod symbols;
mod types;

pub(crate) use first::first_set;
pub(crate) use numbers::number_of;
pub(crate) use production::ProgramProduction;
pub(crate) use productions::productions_of;
pub(crate) use rows::row_of;
pub(crate) use symbols::ProgramSymbol;
