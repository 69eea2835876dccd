//! The source tree of a text, made from what happens in its reading.

mod atoms;
mod binding;
mod connectives;
mod items;
mod names;
mod parts;
mod perform;
mod takes;
mod terms;

pub(crate) use parts::{Parts, nothing};
