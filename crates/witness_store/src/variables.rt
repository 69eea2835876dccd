//! What the variables of a tree hold.

ghost use Rattle.std.specs.Prelude.{◌≡◌, ◌<◌, length, List, IfOk};
ghost use Rattle.ws2s_core.specs.LabelTrees.{IsTree, assignment_of};
ghost use Rattle.tree_encode.specs.Tracks as tracks;
ghost use Rattle.tree_store.specs.Decoded as decoded;
ghost use Rattle.tree_store.specs.Decoded.{Standing, all_where, var_in, vars_in};
ghost use Rattle.witness_store.specs.Finding.{AreFoundAs};

use crate::cells::Found;
use crate::nodes::is_on;
use crate::preorder::root_place;
use plain_data::Items;
use std::alloc::{AllocError, Global};
use store_core::{CellId, CellList, Value, VarId, VarKind};
use tree_encode::Layout;
use ws2s_core::{Track, TreeNode};

/// The cells on a track, by number.
fn cells_on(
    alloc: Global,
    nodes: &[TreeNode],
    cells: &[Found],
    track: Option<Track>,
) -> Result<CellList, AllocError>
    requires { length cells.now < 4294967295 }
    ensures { IfOk result (λ named. (standing : List Standing) → IsTree nodes.now → AreFoundAs nodes.now cells.now standing →
        named ≡ all_where (decoded.is_on (assignment_of nodes.now) track) 1 standing) }
{
    let mut named = CellList::new(alloc);
    let mut number = 1u32;
    for cell in cells {
        if is_on(nodes, Some(cell.node), track) {
            named.push(CellId(number))?;
        }
        number += 1;
    }
    Ok(named)
}

/// What a variable of the kind holds: the truth at the root, the only cell on its track, or the cells on it.
fn value_of(
    alloc: Global,
    l: &Layout<'_>,
    nodes: &[TreeNode],
    cells: &[Found],
    var: VarId,
    kind: VarKind,
) -> Result<Value, AllocError>
    requires tree { IsTree nodes.now }
    requires few { length cells.now < 4294967295 }
    ensures { IfOk result (λ value. (standing : List Standing) → AreFoundAs nodes.now cells.now standing →
        value ≡ var_in (assignment_of nodes.now) standing (tracks.var_track l.now.types l.now.vars var) kind) }
{
    let track = l.var_track(var);
    match kind {
        VarKind::Bool | VarKind::LogicBool => {
            let root = root_place(nodes);
            Ok(Value::Bool(is_on(nodes, root, track)))
        }
        VarKind::Data(_) | VarKind::Pointer(_) => {
            let named = cells_on(alloc, nodes, cells, track)?;
            Ok(Value::Cell(named.get(0)))
        }
        VarKind::LogicSet(_) => {
            let named = cells_on(alloc, nodes, cells, track)?;
            Ok(Value::Cells(named))
        }
    }
}

/// The values of the variables in order.
pub(crate) fn variables_of(
    alloc: Global,
    l: &Layout<'_>,
    nodes: &[TreeNode],
    cells: &[Found],
) -> Result<Items<Value>, AllocError>
    requires tree { IsTree nodes.now }
    requires few { length cells.now < 4294967295 }
    ensures { IfOk result (λ values. (standing : List Standing) → AreFoundAs nodes.now cells.now standing →
        values ≡ vars_in l.now.types l.now.vars (assignment_of nodes.now) standing 0 l.now.vars) }
{
    let mut values = Items::new(alloc);
    for index in 0..l.vars().vars() {
        let var = VarId(index);
        let Some(kind) = l.vars().kind(var) else {
            unreachable!()
        };
        values.push(value_of(alloc, l, nodes, cells, var, *kind)?)?;
    }
    Ok(values)
}
