//! Blocks of quantified positions: those that are quantified alike, with no quantifier of the other kind over a position between them. It is for
//! the choice of what is conjoined alone, so it promises nothing.

use std::alloc::{AllocError, Global};
use ws2s_core::Track;

/// Where a formula stands among quantifiers and negations.
#[derive(Clone, Copy, Debug)]
struct Spot {
    /// The number of the first position of the innermost block. Those of inner quantifiers are larger.
    first: u32,
    /// Whether there are an odd number of negations since that block's first quantifier.
    is_turned: bool,
}

/// The blocks around the formula that is looked at.
#[derive(Drop)]
pub(crate) struct Blocks {
    here: Spot,
    /// The spots of the quantifiers and negations around it, the innermost one last.
    outer: Vec<Spot>,
}

impl Blocks {
    /// Outside all quantifiers. Takes no memory.
    pub(crate) fn new(alloc: Global) -> Blocks {
        Blocks {
            here: Spot {
                first: 0,
                is_turned: false,
            },
            outer: Vec::new(alloc),
        }
    }

    /// Goes under a negation.
    pub(crate) fn enter_negation(&mut self) -> Result<(), AllocError> {
        self.outer.push(self.here)?;
        self.here.is_turned = !self.here.is_turned;
        Ok(())
    }

    /// Goes under a quantifier of a track. A position begins a block where it isn't quantified as the block's are.
    pub(crate) fn enter_quantifier(
        &mut self,
        t: Track,
        is_position: bool,
    ) -> Result<(), AllocError> {
        self.outer.push(self.here)?;
        if is_position && self.here.is_turned {
            self.here = Spot {
                first: t.0,
                is_turned: false,
            };
        }
        Ok(())
    }

    /// Goes out of the innermost negation or quantifier.
    pub(crate) fn leave(&mut self) {
        if let Some(spot) = self.outer.pop() {
            self.here = spot;
        }
    }

    /// Whether the quantified position is one of the innermost block.
    pub(crate) fn has(&self, t: Track) -> bool {
        t.0 >= self.here.first
    }
}
