//! What assertions of a program may use, and what the program declares besides its procedures. What assertions and predicates are
//! typed as, and what is refused of them first, is said here, apart from the calls that read them.
//!
//! `specs/Assertions.antt` has a rule for each form of an assertion, `specs/Atoms.antt`, `specs/Arguments.antt`,
//! `specs/Quantifiers.antt` and `specs/Connectives.antt` what they stand on; `specs/Predicates.antt` says what predicates the
//! declarations are.
#![tactic(auto)]

mod connective;
mod vocabulary;

pub use connective::Connective;
pub use vocabulary::{Declared, PredHeads, Vocabulary};
