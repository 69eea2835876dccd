//! WS2S texts from their bytes.
//!
//! `specs/TextReading.antt` says which bytes are which text, and `specs/Resolving.antt` what is visible where in a source
//! tree, and which name or term is at fault first.
#![tactic(auto)]

mod atoms;
mod formulas;
mod items;
mod laws;
mod names;
mod read;
mod terms;

pub use items::resolve;
pub use laws::resolved_texts_are_checked;
pub use read::read_ws2s;
