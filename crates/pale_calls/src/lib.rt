//! Calls of procedures with their names looked up, but for their `keep`: what they are typed as, or their first fault.
//!
//! `specs/Calls.antt` has the rules, `specs/Classes.antt` the words for what variables are declared as.
#![tactic(auto)]

mod actual;
mod arguments;
mod calls;
mod class;
mod results;
mod signature;
mod touched;
mod variables;

pub use actual::{Actual, ActualList};
pub use calls::{CallHead, read_call};
pub use class::VarClass;
pub use signature::{Formal, Procedures, Signature};
pub use touched::allow_touched;
