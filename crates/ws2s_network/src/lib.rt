//! Laws of networks of constraints.
//!
//! No code runs here. `specs/Network.antt` says what it is that tracks are eliminated and what constraints depend on; `laws` has the
//! theorems.
#![tactic(auto)]

pub mod laws;
