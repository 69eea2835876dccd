//! Which of the listed nodes are under some of what is listed.

ghost use Rattle.std.specs.Prelude.{◌≡◌, ℕ, List, IfOk, length, true, vec_len};
ghost use Rattle.bdd_list.specs.declared.listing.Listed.{Listed};
ghost use Rattle.bdd_list.specs.Listing.{AreOrdered};
ghost use Rattle.gta_classes.specs.Chosen.{is_marked};
ghost use Rattle.gta_reach.specs.Reached.{with_node};
ghost use Rattle.gta_minimise.specs.Marked.{AreUnder, AreTouched, AreSidesMarked, AreMarked};

use bdd_list::Listed;
use gta_classes::mark;
use gta_reach::FormSpace;
use std::alloc::{AllocError, Global};

/// Marks what is listed, where it is a node.
#[inline]
fn touch(marks: &mut Vec<bool>, listed: Listed)
    ensures { marks.new.items ≡ with_node marks.old.items listed }
{
    match listed {
        Listed::Leaf(_state) => {}
        Listed::Inner(index) => mark(marks, index),
    }
}

/// Marks what is listed for the roots.
fn mark_roots(roots: &[Listed], marks: &mut Vec<bool>)
    ensures { AreTouched roots.now marks.old.items marks.new.items }
{
    for root in roots {
        touch(marks, *root);
    }
}

/// Marks the sides of marked nodes: from the last node on, since sides stand before.
fn mark_sides(space: &FormSpace, marks: &mut Vec<bool>)
    requires ordered { AreOrdered space.now.listing.nodes }
    requires many { vec_len marks.old ≡ length space.now.listing.nodes }
    ensures many { length marks.new.items ≡ length marks.old.items }
    ensures kept { (i : ℕ) → is_marked marks.old.items i ≡ true → is_marked marks.new.items i ≡ true }
    ensures under { (roots : List Listed) → AreUnder space.now.listing.nodes roots marks.old.items
        → AreUnder space.now.listing.nodes roots marks.new.items }
    ensures sides { AreSidesMarked space.now.listing.nodes marks.new.items }
{
    for index in (0..marks.len()).rev() {
        if marks[index] {
            let node = space.listing.nodes.as_slice()[index];
            touch(marks, node.low);
            touch(marks, node.high);
        }
    }
}

/// Marks for the nodes that are under some of what is listed.
pub(crate) fn mark_under(
    alloc: Global,
    space: &FormSpace,
    roots: &[Listed],
) -> Result<Vec<bool>, AllocError>
    requires { AreOrdered space.now.listing.nodes }
    ensures { IfOk result (λ marks. AreMarked space.now.listing.nodes roots.now marks.items) }
{
    let mut marks = vec![in alloc; false; space.listing.nodes.len()]?;
    mark_roots(roots, &mut marks);
    mark_sides(space, &mut marks);
    Ok(marks)
}
