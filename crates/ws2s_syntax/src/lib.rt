//! WS2S texts: their source trees, and their checked trees.
//!
//! `specs/Meaning.antt` says what a text says of its free variables, and `specs/Checked.antt` which trees are those
//! of texts: every name in scope and of the right class. Meaning and checking know nothing of tracks, nor of core
//! formulas.
#![tactic(auto)]

mod declaration;
mod formula;
mod name;
mod source;
mod text;

pub use declaration::{ByteList, Class, ClassList, Free, FreeList, Predicate, PredicateList};
pub use formula::{Atom, Connective, Quantifier, TextFormula, TextFormulaList};
pub use name::{Argument, Base, Name, Successor, SuccessorList, Term};
pub use source::{
    Source, SourceBase, SourceFormula, SourceItem, SourceName, SourceParameter, SourceTerm,
};
pub use text::Ws2sText;
