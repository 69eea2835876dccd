//! Tests of the whole program over sources and sinks in memory: sources and sinks that fail, lists of words, bytes that
//! no page shows, long texts made by repetition, and the generator's programs. The crate has nothing else.
//!
//! What `pale` writes for a text of `examples/`, of the pages, or of `crates/pale_gallery/texts/` is compared by the run
//! of `pale_gallery`, which takes no proof of a test: that is the place for a text with its words, its output and its status.
#![tactic(auto)]

#[cfg(test)]
mod calls;
#[cfg(test)]
mod faults;
#[cfg(test)]
mod gaps;
#[cfg(test)]
mod generated;
#[cfg(test)]
mod sizes;
#[cfg(test)]
mod words;
