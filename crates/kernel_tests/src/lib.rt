//! What no text of `kernel_gallery` and `store_gallery` says: tests of shelves of nodes and of a rule of joins that refuses, and a
//! law that writes formulas out.
#![tactic(auto)]

#[cfg(test)]
mod joins;
#[cfg(test)]
mod nodes;
pub mod worked;
