//! Tests of what no program text can say of stores, store texts, routes and assertions: copies, stores on sets of cells, names
//! from outside a region, routes over names that are no fields, and what is long or deep. What a text can say stands in the
//! bundles of `pale_gallery`. The crate has nothing else.
#![tactic(auto)]

#[cfg(test)]
mod chains;
#[cfg(test)]
mod cuts;
#[cfg(test)]
mod programs;
#[cfg(test)]
mod questions;
#[cfg(test)]
mod regions;
#[cfg(test)]
mod routes;
#[cfg(test)]
mod told;
#[cfg(test)]
mod walks;
