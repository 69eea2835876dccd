//! Core formulas of WS2S, labelled trees and guides, and what they mean.
//!
//! `specs/Satisfaction.antt` says when an assignment satisfies a formula, `specs/Tracks.antt` which tracks are free,
//! `specs/LabelTrees.antt` which lists of nodes are trees and what they stand for, `specs/Sizes.antt` how many nodes
//! a formula has, and `specs/Recognising.antt` when an automaton recognises a formula; guides and automata are those
//! of `gta_theory`. The modules `satisfaction`, `recognising` and `trees` are laws over these definitions, and
//! `examples` are worked ones: functions with empty bodies, whose clauses hold of all formulas.
//!
//! A formula may be as deep as memory allows. It is copied, counted, numbered and dropped by loops; of these a drop
//! and a count take no memory. Only `Debug` recurses. No crate above looks at how an interner keeps its formulas. A
//! graph of subformulas is worked on by their numbers, of which `specs/Parts.antt` has the words: parts have lower
//! numbers than what they stand in, in no order among themselves.
#![tactic(auto)]

mod copy;
mod formula;
mod guide;
mod interner;
mod label_tree;
mod laws;
mod node;
mod node_table;
mod parts;
mod postfix;
mod size;
mod track;

pub use copy::apply_symbol;
pub use formula::Formula;
pub use guide::{Guide, SpaceList};
pub use interner::{Interner, intern, intern_form};
pub use label_tree::{LabelTree, TreeNode, TreeNodeList};
pub use laws::{examples, recognising, satisfaction, trees};
pub use node::{FormulaId, Node};
pub use parts::FormulaIdList;
pub use plain_data::Boxed;
pub use postfix::{Symbol, symbols_of};
pub use track::{Track, TrackList};
