//! The classes of the states of a space.

use plain_data::Items;

/// Numbers in order.
pub type NumberList = Items<u32>;

/// The classes of the reached states of a space.
#[derive(Debug, Drop)]
pub struct SpaceClasses {
    /// For each state whether it is reached.
    pub reached: Items<bool>,
    /// The class of each state: a number below that of the representatives. That of a state which isn't reached says
    /// nothing.
    pub classes: NumberList,
    /// For each class a reached state of it.
    pub representatives: NumberList,
}

/// The classes of each space, in order.
pub type SpaceClassesList = Items<SpaceClasses>;
