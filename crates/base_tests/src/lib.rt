//! Tests of sources and sinks, and of lists, stacks and boxes. The crate has nothing else.
#![tactic(auto)]

#[cfg(test)]
mod plain;
#[cfg(test)]
mod streams;
