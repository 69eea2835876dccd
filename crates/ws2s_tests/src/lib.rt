//! Tests of WS2S below what `pale` answers: the two formulas of a text in full, and passes, with formulas whose rewritings
//! were worked out by hand, lists of passes, and formulas of 65,536 levels; and of deciding, peaks of formulas by hand and what
//! is shared. The crate has nothing else.
//!
//! What a text shows by its answer stands in `crates/pale_gallery/texts/`, which takes no proof of a test.
#![tactic(auto)]

#[cfg(test)]
mod formulas;
#[cfg(test)]
mod found;
#[cfg(test)]
mod lists;
#[cfg(test)]
mod peaks;
#[cfg(test)]
mod reduced;
#[cfg(test)]
mod rewritings;
#[cfg(test)]
mod shared;
#[cfg(test)]
mod towers;
