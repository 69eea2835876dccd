//! Named predicates.

use crate::assertion::Assertion;
use plain_data::Items;

/// Predicates, each known by its place counted from 0.
pub type Preds = Items<PredDef>;

/// A named predicate.
#[derive(Debug, Drop)]
pub struct PredDef {
    /// How many parameters it has.
    pub params: u32,
    /// What it says of them, by predicates that stand before it alone.
    pub body: Assertion,
}
