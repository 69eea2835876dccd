//! The modes that judge no program: `replay`, `run`, `trace`, `format` and `ws2s`, each over a text and a sink of bytes.
//!
//! `specs/Replaying.antt`, `specs/Running.antt`, `specs/Tracing.antt`, `specs/Formatting.antt` and `specs/Deciding.antt` say what each
//! of the five writes for a text and with which status, and `specs/Completing.antt` of which texts something is said whatever their
//! size.
#![tactic(auto)]

mod completing;
mod decide;
mod format;
mod laws;
mod replay;
mod run;
mod trace;

pub use completing::texts_within_their_peaks_are_decided;
pub use decide::decide_text;
pub use format::format_text;
pub use laws::formatting_is_one;
pub use replay::replay_text;
pub use run::run_text;
pub use trace::trace_text;
