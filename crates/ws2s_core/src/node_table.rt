//! Formulas as a table of nodes, each node once, over the places of the nodes of its parts.

ghost use Rattle.std.specs.Prelude.{◌≡◌, ℕ, ◌+◌, ◌<◌, ◌≤◌, [], Some, IsSome, IfOk, OnOk, OnErr, All, length, map, reverse, slice_get, vec_len, vec_capacity};
ghost use Rattle.ws2s_core.specs.Postfix.{taken, applied};
ghost use Rattle.ws2s_core.specs.Nodes.{form_of, HasPartsBelow, IsIndexed, HasRoom, AddsAtMost, Extends, stands_for, formulas_of};

use crate::formula::Formula;
use crate::node::{FormulaId, Node};
use crate::postfix::{Symbol, symbols_of};
use std::alloc::{AllocError, Global};
use std::collections::HashMap;

/// How many nodes have a number.
const MOST_NODES: usize = 4_294_967_296;

/// The nodes, and the place of each.
#[derive(Drop)]
pub struct NodeTable {
    pub nodes: Vec<Node>,
    pub places: HashMap<Node, u32>,
}

impl NodeTable {
    /// A table without nodes. Takes no memory.
    pub fn new(alloc: Global) -> NodeTable
        ensures empty { result.nodes.items ≡ [] }
        ensures indexed { IsIndexed result.nodes.items result.places }
    {
        NodeTable {
            nodes: Vec::new(alloc),
            places: HashMap::new(alloc),
        }
    }
}

/// Makes room for so many more nodes.
fn reserve(table: &mut NodeTable, more: usize) -> Result<(), AllocError>
    requires indexed { IsIndexed table.old.nodes.items table.old.places }
    ensures room { OnOk result (HasRoom table.new.nodes table.new.places more) }
    ensures kept { table.new.nodes.items ≡ table.old.nodes.items }
    ensures indexed { IsIndexed table.new.nodes.items table.new.places }
{
    if MOST_NODES - table.nodes.len() < more {
        return Err(AllocError);
    }
    table.nodes.reserve(more)?;
    table.places.reserve(more)
}

/// The place of a node, which is put in where it isn't there.
fn place_of(table: &mut NodeTable, node: Node) -> u32
    requires indexed { IsIndexed table.old.nodes.items table.old.places }
    requires room { HasRoom table.old.nodes table.old.places 1 }
    requires parts { HasPartsBelow (length table.old.nodes.items) node }
    ensures indexed { IsIndexed table.new.nodes.items table.new.places }
    ensures kept { Extends table.old.nodes.items table.new.nodes.items }
    ensures added { AddsAtMost table.old.nodes.items node table.new.nodes.items }
    ensures value { slice_get table.new.nodes.items result ≡ Some node }
    ensures room { (more : ℕ) → HasRoom table.old.nodes table.old.places (more + 1) →
        HasRoom table.new.nodes table.new.places more }
{
    if let Some(place) = table.places.get(&node) {
        return *place;
    }
    let place = table.nodes.len() as u32;
    match table.places.insert(node, place) {
        Ok(_) => {}
        Err(_) => unreachable!(),
    }
    match table.nodes.push(node) {
        Ok(()) => {}
        Err(_) => unreachable!(),
    }
    place
}

/// The node that a symbol makes of the last parts, which are taken off.
fn node_of(parts: &mut Vec<u32>, symbol: Symbol) -> Node
    requires { IsSome (taken symbol (reverse parts.old.items)) }
    ensures value { taken symbol (reverse parts.old.items) ≡ Some (form_of result, reverse parts.new.items) }
    ensures len { vec_len parts.new ≤ vec_len parts.old }
    ensures capacity { vec_capacity parts.old ≤ vec_capacity parts.new }
{
    match symbol {
        Symbol::Sub(x, y) => Node::Sub(x, y),
        Symbol::Single(x) => Node::Single(x),
        Symbol::Succ0(x, y) => Node::Succ0(x, y),
        Symbol::Succ1(x, y) => Node::Succ1(x, y),
        Symbol::Root(x) => Node::Root(x),
        Symbol::And => {
            let right = parts.pop().unwrap();
            let left = parts.pop().unwrap();
            Node::And(FormulaId(left), FormulaId(right))
        }
        Symbol::Not => Node::Not(FormulaId(parts.pop().unwrap())),
        Symbol::Ex2(t) => Node::Ex2(t, FormulaId(parts.pop().unwrap())),
    }
}

/// Puts the place of the node that a symbol makes of the last parts in their place.
fn place_symbol(table: &mut NodeTable, parts: &mut Vec<u32>, symbol: Symbol)
    requires indexed { IsIndexed table.old.nodes.items table.old.places }
    requires room { HasRoom table.old.nodes table.old.places 1 }
    requires room_parts { vec_len parts.old < vec_capacity parts.old }
    requires inside { All (λ part. part < length table.old.nodes.items) parts.old.items }
    requires can { IsSome (taken symbol (reverse parts.old.items)) }
    ensures indexed { IsIndexed table.new.nodes.items table.new.places }
    ensures kept { Extends table.old.nodes.items table.new.nodes.items }
    ensures room { (more : ℕ) → HasRoom table.old.nodes table.old.places (more + 1) →
        HasRoom table.new.nodes table.new.places more }
    ensures inside { All (λ part. part < length table.new.nodes.items) parts.new.items }
    ensures value { applied symbol (stands_for table.new.nodes.items (reverse parts.old.items))
        ≡ Some (stands_for table.new.nodes.items (reverse parts.new.items)) }
    ensures len { vec_len parts.new ≤ vec_len parts.old + 1 }
    ensures capacity { vec_capacity parts.old ≤ vec_capacity parts.new }
{
    let node = node_of(parts, symbol);
    let place = place_of(table, node);
    match parts.push(place) {
        Ok(()) => {}
        Err(_) => unreachable!(),
    }
}

/// The place of a node over places of the table, which is put in where it isn't there.
pub fn place_node(table: &mut NodeTable, node: Node) -> Result<u32, AllocError>
    requires indexed { IsIndexed table.old.nodes.items table.old.places }
    requires parts { HasPartsBelow (length table.old.nodes.items) node }
    ensures indexed { IsIndexed table.new.nodes.items table.new.places }
    ensures kept { Extends table.old.nodes.items table.new.nodes.items }
    ensures added { AddsAtMost table.old.nodes.items node table.new.nodes.items }
    ensures value { IfOk result (λ place. slice_get table.new.nodes.items place ≡ Some node) }
    ensures err { OnErr result (table.new.nodes.items ≡ table.old.nodes.items) }
{
    reserve(table, 1)?;
    Ok(place_of(table, node))
}

/// The place of a formula, whose nodes are put in where they aren't there.
pub fn place_formula(
    alloc: Global,
    table: &mut NodeTable,
    formula: &Formula,
) -> Result<u32, AllocError>
    requires indexed { IsIndexed table.old.nodes.items table.old.places }
    ensures indexed { IsIndexed table.new.nodes.items table.new.places }
    ensures kept { Extends table.old.nodes.items table.new.nodes.items }
    ensures value { IfOk result (λ place. slice_get (formulas_of table.new.nodes.items) place ≡ Some formula.now) }
    ensures err { OnErr result (table.new.nodes.items ≡ table.old.nodes.items) }
{
    let symbols = symbols_of(alloc, formula)?;
    let mut parts = Vec::with_capacity(alloc, symbols.len())?;
    reserve(table, symbols.len())?;
    for symbol in symbols.as_slice() {
        place_symbol(table, &mut parts, *symbol);
    }
    let place = parts.pop().unwrap();
    Ok(place)
}
