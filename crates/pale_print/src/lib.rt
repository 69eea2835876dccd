//! Programs printed in their canonical spelling: the tokens of the tree with one gap behind each, and parentheses exactly
//! where leaving them out would give another tree.
//!
//! `specs/Spelling.antt` has the spelling, over the tokens of each construct in `specs/*Tokens.antt`. Two trees that differ
//! in places alone are the same by `specs/Placeless.antt`. Lists are printed by loops, and calls nest as deep as operands
//! and blocks do.
#![tactic(auto)]

mod assertions;
mod calls;
mod conditions;
mod declarations;
mod names;
mod routes;
mod statements;
mod tightness;
mod tokens;

pub use declarations::print_program;
