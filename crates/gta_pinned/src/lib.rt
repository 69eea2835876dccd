//! The automaton that accepts exactly the trees which agree with a given one on given tracks.
//!
//! Subtrees that agree on the tracks have one shape: the shapes of the halves, and what the root's label has of the tracks.
//! The shapes of the given tree's subtrees, in each space those that stand there, are the states; one more is that of all
//! other subtrees. A product with such an automaton looks for trees that go on from a given one.
#![tactic(auto)]

mod choosing;
mod parts;
mod pinning;
mod shapes;
mod spaces;
mod states;
mod telling;

pub use pinning::pinned;
