//! Places where a triple can fail.

use plain_data::Items;
use store_exec::Cause;

/// A place where a cause can come, and its line.
#[derive(Clone, Copy, Debug, PartialEq, Eq)]
pub struct Site {
    pub cause: Cause,
    pub line: u32,
}

/// Places where a cause can come, in the order in which a triple reaches them.
pub type SiteList = Items<Site>;
