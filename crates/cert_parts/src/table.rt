//! The table of an atom.

ghost use Rattle.std.specs.Prelude.{◌≡◌, length, List, IfOk, OnOk};
ghost use Rattle.cert_text.specs.declared.line.NodeLine.{NodeLine};
ghost use Rattle.ws2s_core.specs.Nodes.{Extends};
ghost use Rattle.cert_nodes.specs.Nodes.{AreNodes};
ghost use Rattle.cert_tables.specs.Automata.{table_automaton, AreThere};
ghost use Rattle.cert_theory.specs.Agreeing.{AgreeIn};
ghost use Rattle.cert_parts.specs.Atoms.{atom_automaton, accepting_of};
ghost use Rattle.cert_parts.specs.Leading.{AreNumbered, IsSpaceOf, AreSpacesOf};

use crate::choice::states;
use crate::rows::{copy_rows, rows};
use cert_nodes::NodeTable;
use cert_tables::{SpaceTable, Table, TargetList};
use cert_text::NumberList;
use plain_data::Items;
use std::alloc::{AllocError, Global};
use ws2s_core::{Guide, Node};

/// The numbers below a number, in order.
fn numbers(alloc: Global, count: u32) -> Result<NumberList, AllocError>
    ensures { IfOk result (AreNumbered count) }
{
    let mut numbers = Items::new(alloc);
    for number in 0..count {
        numbers.push(number)?;
    }
    Ok(numbers)
}

/// The automaton in one space: each state is a class of its own.
fn space_table(alloc: Global, count: u32, rows: &[TargetList]) -> Result<SpaceTable, AllocError>
    ensures { IfOk result (IsSpaceOf count rows.now) }
{
    let lefts = numbers(alloc, count)?;
    let rights = numbers(alloc, count)?;
    let roots = copy_rows(alloc, rows)?;
    Ok(SpaceTable {
        states: count,
        initial: 0,
        lefts,
        rights,
        roots,
    })
}

/// The same in every space.
fn space_tables(
    alloc: Global,
    spaces: u32,
    count: u32,
    rows: &[TargetList],
) -> Result<Items<SpaceTable>, AllocError>
    ensures { IfOk result (AreSpacesOf spaces count rows.now) }
{
    let mut tables = Items::new(alloc);
    for _space in 0..spaces {
        let table = space_table(alloc, count, rows)?;
        tables.push(table)?;
    }
    Ok(tables)
}

/// Which states accept, up to the last one that does.
fn accepting(alloc: Global, atom: Node) -> Result<Items<bool>, AllocError>
    ensures { IfOk result (λ accepting. accepting ≡ accepting_of atom) }
{
    match atom {
        Node::Sub(_, _) => Items::from_slice(alloc, &[true]),
        Node::Single(_) => Items::from_slice(alloc, &[false, true]),
        Node::Succ0(_, _) => Items::from_slice(alloc, &[false, false, true]),
        Node::Succ1(_, _) => Items::from_slice(alloc, &[false, false, true]),
        Node::Root(_) => Items::from_slice(alloc, &[false, true]),
        Node::And(_, _) => Ok(Items::new(alloc)),
        Node::Not(_) => Ok(Items::new(alloc)),
        Node::Ex2(_, _) => Ok(Items::new(alloc)),
    }
}

/// The table of an atom, whose new nodes come behind those of other atoms. Another form has a table that accepts nothing.
///
/// # Errors
///
/// Want of memory, also where there are more nodes than a `u32` numbers.
pub fn atom_table(
    alloc: Global,
    g: &Guide,
    nodes: &mut NodeTable,
    atom: Node,
) -> Result<Table, AllocError>
    requires { AreNodes nodes.old }
    ensures drawn { AreNodes nodes.new }
    ensures grown { OnOk result (Extends nodes.old nodes.new) }
    ensures agree { IfOk result (λ table. (told : List NodeLine) →
        AgreeIn g.now (table_automaton (record { atoms = nodes.new; told = told }) table) (atom_automaton atom)) }
    ensures there { IfOk result (λ table. (told : List NodeLine) → AreThere (record { atoms = nodes.new; told = told }) table) }
{
    let made = rows(alloc, nodes, atom)?;
    let spaces = space_tables(alloc, g.spaces(), states(atom), made.as_slice())?;
    let accepting = accepting(alloc, atom)?;
    Ok(Table {
        in_atoms: true,
        spaces,
        accepting,
    })
}
