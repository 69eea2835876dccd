//! The numbers of all parts of a formula, by a walk down over numbers.

ghost use Rattle.std.specs.Prelude.{◌≡◌, ℕ, ◌+◌, ◌<◌, ◌≤◌, ◌++◌, Some, IfOk, OnOk, length, slice_get};
ghost use Rattle.std.specs.Ordering.{nat_cmp};
ghost use Rattle.std.specs.List.Sorted.{IsPermutation};
ghost use Rattle.std.specs.BinaryHeap.{heap_items, heap_len, KeepsHeap};
ghost use Rattle.ws2s_core.specs.declared.node.Node.{Node};
ghost use Rattle.ws2s_core.specs.Postfix.{parts_of};
ghost use Rattle.ws2s_core.specs.Nodes.{form_of, formulas_of, HasPartsBelow, IsOnceEach};
ghost use Rattle.ws2s_core.specs.Parts.{ArePartsOf, HasMetParts};

use crate::node::{FormulaId, Node};
use plain_data::Items;
use std::alloc::{AllocError, Global};
use std::collections::BinaryHeap;

/// Numbers of formulas, in an order.
pub type FormulaIdList = Items<FormulaId>;

/// Puts the numbers of a node's parts among those that wait.
fn push_parts(waiting: &mut BinaryHeap<u32>, node: Node) -> Result<(), AllocError>
    ensures parts { OnOk result (IsPermutation (parts_of (form_of node) ++ heap_items waiting.old) (heap_items waiting.new)) }
    ensures len { OnOk result (heap_len waiting.new ≤ heap_len waiting.old + 2) }
    ensures heap { OnOk result (KeepsHeap nat_cmp (heap_items waiting.old) (heap_items waiting.new)) }
{
    match node {
        Node::And(left, right) => {
            waiting.push(right.0)?;
            waiting.push(left.0)?;
        }
        Node::Not(inner) | Node::Ex2(_, inner) => waiting.push(inner.0)?,
        Node::Sub(_, _) | Node::Single(_) | Node::Succ0(_, _) | Node::Succ1(_, _) | Node::Root(_) =>
            {}
    }
    Ok(())
}

/// The places of all parts of the formula at a place, the highest first. Parts stand before what they are parts of, so
/// one that waits in several places comes up that often in a row.
fn met_parts(alloc: Global, nodes: &[Node], whole: u32) -> Result<Vec<FormulaId>, AllocError>
    requires inside { whole < length nodes.now }
    requires earlier { (k : ℕ) (node : Node) → slice_get nodes.now k ≡ Some node → HasPartsBelow k node }
    ensures { IfOk result (λ met. HasMetParts nodes.now whole met.items) }
{
    let mut waiting = BinaryHeap::new(alloc);
    waiting.push(whole)?;
    let mut met = Vec::new(alloc);
    let mut below = nodes.len();
    while let Some(place) = waiting.pop() {
        if (place as usize) < below {
            below = place as usize;
            met.push(FormulaId(place))?;
            push_parts(&mut waiting, nodes[below])?;
        }
    }
    Ok(met)
}

/// The places of all parts of the formula at a place, the lowest first.
pub fn parts_at(alloc: Global, nodes: &[Node], whole: u32) -> Result<FormulaIdList, AllocError>
    requires inside { whole < length nodes.now }
    requires earlier { (k : ℕ) (node : Node) → slice_get nodes.now k ≡ Some node → HasPartsBelow k node }
    requires once { IsOnceEach (formulas_of nodes.now) }
    ensures { IfOk result (λ ids. ArePartsOf (formulas_of nodes.now) whole ids) }
{
    let mut ids = met_parts(alloc, nodes, whole)?;
    ids.reverse();
    Ok(Items::from_vec(ids))
}
