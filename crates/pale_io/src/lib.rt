//! Where bytes come from and go to: a source, a sink, and whole reads and writes over them.
//!
//! A source and a sink each tell of their bytes, or don't, and keep a count of faults that never falls.
//! `specs/Faults.antt` says when a count rose, `specs/Told.antt` what is told of bytes, and `specs/Whole.antt`
//! what a whole read takes and a whole write leaves. Code above stands on the two traits and on these words alone:
//! no clause names a piece, its size, or how many calls a whole read or write makes. What several of them make
//! follows by `proofs/FaultsLemmas.antt` and `proofs/WholeLemmas.antt`.
//! The objects in memory are for tests and examples; `StdSource` and `StdSink` are the edge to the system.
#![tactic(auto)]

mod clean;
mod plan;
mod planned;
mod reading;
mod sink;
mod source;
mod std_sink;
mod std_source;
mod stops;
mod writing;

pub use clean::{CleanSink, CleanSource};
pub use planned::{MemSink, MemSource};
pub use reading::read_all;
pub use sink::Sink;
pub use source::Source;
pub use std_sink::StdSink;
pub use std_source::StdSource;
pub use stops::{Failed, ReadStop, WriteStop};
pub use writing::write_all;
