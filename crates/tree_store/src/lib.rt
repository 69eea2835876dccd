//! Stores as trees: the tree that stands for a store, what the formula of trees says of it, and the store that a tree stands for.
//!
//! `specs/Encoding.antt` says which positions a store has on the tracks of a layout, and when a tree stands for them. `encode`
//! makes such a tree. It follows the store from its data variables down, spot by spot, with a loop and no recursion, so that a
//! list of any length goes through.
//!
//! The rest are laws, and no code runs there. `meaning`: the formula of trees is satisfied exactly where a backbone is laid out
//! (`specs/Shapes.antt` says by positions alone when it is, `specs/Premises.antt` what is asked of tables and of stores).
//! `backbones`: the store that a laid-out assignment stands for (`specs/Preorder.antt` says which position comes first,
//! `specs/Decoded.antt` which store it is, and `specs/Stores.antt` what is said of it).
#![tactic(auto)]

mod backbones;
mod encoding;
mod grow;
pub mod laws;
pub mod meaning;
mod rows;
mod spots;
mod tracks;

pub use backbones::{backbones_alone_satisfy_the_formula, laid_out_trees_are_trees_of_backbones};
pub use encoding::encode;
