//! One step of a whole run, executed: an act, a condition, a cut, a call, an exit or a return.
//!
//! `specs/Standings.antt` says where a run stands as the code keeps it, and `specs/Turning.antt` what is asked and said of one step.
#![tactic(auto)]

mod activation;
mod arriving;
mod calling;
mod ending;
mod halted;
mod pieces;
mod plain;
mod returning;
mod showing;
mod turning;

pub use activation::{Activation, At, Suspended};
pub use calling::entered;
pub use ending::RunEnd;
pub use pieces::{Loop, Piece};
pub use turning::{Turned, turn};
