//! Triples: what holds at the start, a code, and what is checked at the cuts.

use crate::code::Code;
use plain_data::Items;
use store_logic::{Assertion, Region, VarList};

/// An assertion that is read on a region.
#[derive(Debug, Drop)]
pub struct Claim {
    pub region: Region,
    pub assertion: Assertion,
}

pub type ClaimList = Items<Claim>;

/// What is checked on arriving at a cut point.
#[derive(Debug, Drop)]
pub struct Cut {
    /// The line of the cut point's keyword; at the exit that of the procedure's last `}`.
    pub line: u32,
    /// At a call, the data variables whose trees are handed over.
    pub handed: Option<VarList>,
    /// At a call, the pointer variables among the arguments.
    pub inside: VarList,
    pub asserts: ClaimList,
}

/// The cuts of a triple, in the order in which its code, read from the left, first reaches them.
pub type CutList = Items<Cut>;

/// What holds where a triple starts.
#[derive(Debug, Drop)]
pub struct Start {
    /// The variables that are null or false.
    pub nulls: VarList,
    /// After a call, the data results, whose trees are the returned part.
    pub returned: Option<VarList>,
    /// After a call, the pointer variables among the results.
    pub inside: VarList,
    pub asserts: ClaimList,
}

/// A start, a code, and the cuts that the code reaches. (Hoare 1969; loop-free triples: Møller and Schwartzbach, PLDI 2001.)
#[derive(Debug, Drop)]
pub struct Triple {
    /// The number of the procedure in its text, counted from 0.
    pub proc: u32,
    /// The line of the cut point where the triple starts.
    pub line: u32,
    pub start: Start,
    pub code: Code,
    pub cuts: CutList,
}
