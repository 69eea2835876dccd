//! The frames around a task, and what is bound there.

use crate::bound::Bound;
use crate::task::Frame;
use plain_data::Stack;

/// The frames around a task, the nearest on top, and what the quantifiers around it bind.
#[derive(Drop)]
pub(crate) struct Spine<'a> {
    pub(crate) frames: Stack<Frame<'a>>,
    pub(crate) bound: Bound,
}
