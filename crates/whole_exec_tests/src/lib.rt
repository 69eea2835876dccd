//! Tests of whole runs, from the texts of a program and a store. The crate has nothing else.
#![tactic(auto)]

#[cfg(test)]
mod answers;
#[cfg(test)]
mod runs;
