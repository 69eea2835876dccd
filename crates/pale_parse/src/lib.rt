//! Programs from their tokens.
//!
//! `specs/ProgramReading.antt` of `pale_syntax` says which tokens are which program and where tokens stop being one, by the
//! rows of its `specs/ProgramGrammar.antt` and by what is made of them, its `specs/Making.antt`. Here the same rows stand
//! as tables, which the reader of `ll1_reader` goes by, and `pale_build` makes the tree of what happens in the reading. No
//! crate above looks at either.
#![tactic(auto)]

mod grammar;
mod laws;
mod parser;
mod tables;

pub use laws::{each_sentence_is_a_program, one_program};
pub use parser::parse;
