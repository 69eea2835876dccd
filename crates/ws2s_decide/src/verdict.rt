//! What is found of a formula.

use ws2s_core::LabelTree;

/// The verdict on a formula.
#[derive(Debug, Drop)]
pub enum Verdict {
    /// No assignment satisfies it.
    None,
    /// This tree satisfies it, and has this weight, which is the least.
    Witness(LabelTree, u64),
    /// Some assignment satisfies it, but each tree of one of least weight has 2^64 - 1 bits or more, or 2^32 - 1 nodes or more.
    TooLarge,
    /// The shelf has too little room: the formula's Peak exceeds its limit.
    Limit,
}
