//! Tests of what texts have below what `pale` writes for them: in which column a procedure ends, typed trees, the places where
//! triples can fail, and their formulas. The crate has nothing else.
//!
//! What a text shows by its answer stands in `crates/pale_gallery/texts/`, which takes no proof of a test.
#![tactic(auto)]

#[cfg(test)]
mod places;
#[cfg(test)]
mod programs;
#[cfg(test)]
mod spelled;
#[cfg(test)]
mod spellings;
#[cfg(test)]
mod telling;
#[cfg(test)]
mod typed;
