//! What is wrong with a graph type at a cut, as formulas on the tree of a store after a list of heap events: a dead cell is named, a
//! cell is named twice, a cell is lost, or a pointer field names another cell than its destinations.
//!
//! Each function makes exactly the formula of `graph_view` that its clause names, or wants memory, also where there are not as
//! many tracks. What the formulas say of a store holds for views that fit the layout, where `next` and all tracks behind it
//! are free; they are made for all others too.
#![tactic(auto)]

mod conditions;
mod cuts;
mod dangling;
mod shared;
mod valued;

pub use conditions::cut_formula;
pub use cuts::closes;
