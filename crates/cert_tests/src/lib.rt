//! Tests of certificates' lines and sections. The crate has nothing else.
#![tactic(auto)]

#[cfg(test)]
mod lines;
#[cfg(test)]
mod sections;
