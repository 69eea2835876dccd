//! The guide under which easier formulas are tried.

use std::alloc::{AllocError, Global};
use tree_encode::Layout;
use ws2s_core::Guide;

/// With at most so many variables easier formulas are tried under the plain guide, and with more under the layout's. Under the
/// plain one all nodes are in one space, so what many fields, variants or types in a ring say of each node is told apart once
/// and not once a space; but what is said of variables multiplies there, since all their slots are in that space too.
pub const FEW_VARIABLES: u32 = 2;

/// The guide under which easier formulas on trees of this layout are tried. A verdict is one under any guide: only time and
/// memory depend on which it is.
///
/// # Errors
///
/// Want of memory, as for [`Layout::guide`].
pub fn first_guide(alloc: Global, l: &Layout<'_>) -> Result<Guide, AllocError> {
    if l.vars().vars() <= FEW_VARIABLES {
        Guide::plain(alloc)
    } else {
        l.guide(alloc)
    }
}
