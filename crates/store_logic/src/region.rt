//! Regions of a store.

ghost use Rattle.std.specs.Prelude.{◌≡◌, IfOk};

use plain_data::Items;
use std::alloc::{AllocError, Global};
use store_core::VarId;

/// Variables, in order.
pub type VarList = Items<VarId>;

/// The cells of a store on which an assertion is read; all others count as dead there.
#[derive(Debug, Drop)]
pub enum Region {
    /// All live cells.
    All,
    /// The cells reached by data fields from what these data variables hold.
    Part(VarList),
    /// All other live cells.
    Rest(VarList),
}

impl Region {
    /// An equal region, in memory of its own.
    pub fn copy(&self, alloc: Global) -> Result<Region, AllocError>
        ensures { IfOk result (λ copy. copy ≡ self.now) }
    {
        match self {
            Region::All => Ok(Region::All),
            Region::Part(vars) => Ok(Region::Part(VarList::from_slice(alloc, vars.as_slice())?)),
            Region::Rest(vars) => Ok(Region::Rest(VarList::from_slice(alloc, vars.as_slice())?)),
        }
    }
}
