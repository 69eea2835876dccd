//! The automata of a section's steps, read line by line. `specs/Steps.antt` says which lines a step has, in their order, and which
//! automaton they tell; `specs/Places.antt` says what each line has to be in its place.
#![tactic(auto)]

mod accepting;
mod automaton;
mod classes;
mod drawing;
mod fault;
mod firsts;
mod roots;
mod rows;
mod spaces;

pub use accepting::{are_below, is_rising};
pub use automaton::read_automaton;
pub use drawing::Drawing;
pub use fault::{FaultKind, Stop, lines_from, wrong_form};
