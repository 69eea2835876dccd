//! Rows of targets: where the states of an atom's children lead to.

ghost use Rattle.std.specs.Prelude.{◌≡◌, IfOk, OnOk};
ghost use Rattle.ws2s_core.specs.Nodes.{Extends};
ghost use Rattle.cert_nodes.specs.Nodes.{AreNodes};
ghost use Rattle.cert_theory.specs.Sections.{atom_states};
ghost use Rattle.cert_parts.specs.Atoms.{atom_function};
ghost use Rattle.cert_parts.specs.Leading.{LeadsTo, AreCells, AreRows};

use crate::choice::{choice_at, states, tracks};
use crate::decide::choose_by;
use cert_nodes::NodeTable;
use cert_tables::TargetList;
use cert_text::Target;
use plain_data::Items;
use std::alloc::{AllocError, Global};
use ws2s_core::Node;

/// Where two states of the children lead to.
fn cell(nodes: &mut NodeTable, atom: Node, p: u32, q: u32) -> Result<Target, AllocError>
    requires { AreNodes nodes.old }
    ensures drawn { AreNodes nodes.new }
    ensures grown { OnOk result (Extends nodes.old nodes.new) }
    ensures leads { IfOk result (λ t. LeadsTo nodes.new t (atom_function atom p q)) }
{
    let (x, y) = tracks(atom);
    choose_by(nodes, x, y, choice_at(atom, p, q))
}

/// Where a state of the left child leads to with each of the right one.
fn row(alloc: Global, nodes: &mut NodeTable, atom: Node, p: u32) -> Result<TargetList, AllocError>
    requires { AreNodes nodes.old }
    ensures drawn { AreNodes nodes.new }
    ensures grown { OnOk result (Extends nodes.old nodes.new) }
    ensures cells { IfOk result (AreCells nodes.new atom p (atom_states atom)) }
{
    let mut row = Items::new(alloc);
    for q in 0..states(atom) {
        let target = cell(nodes, atom, p, q)?;
        row.push(target)?;
    }
    Ok(row)
}

/// Where each two states of the children lead to.
pub(crate) fn rows(
    alloc: Global,
    nodes: &mut NodeTable,
    atom: Node,
) -> Result<Items<TargetList>, AllocError>
    requires { AreNodes nodes.old }
    ensures drawn { AreNodes nodes.new }
    ensures grown { OnOk result (Extends nodes.old nodes.new) }
    ensures rows { IfOk result (AreRows nodes.new atom (atom_states atom)) }
{
    let mut rows = Items::new(alloc);
    for p in 0..states(atom) {
        let targets = row(alloc, nodes, atom, p)?;
        rows.push(targets)?;
    }
    Ok(rows)
}

/// A copy of rows.
pub(crate) fn copy_rows(alloc: Global, rows: &[TargetList]) -> Result<Items<TargetList>, AllocError>
    ensures { IfOk result (λ copy. copy ≡ rows.now) }
{
    let mut copy = Items::new(alloc);
    for row in rows {
        let targets = Items::from_slice(alloc, row.as_slice())?;
        copy.push(targets)?;
    }
    Ok(copy)
}
