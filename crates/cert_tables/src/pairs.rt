//! Whether pairs of states go along with the steps of three automata.

ghost use Rattle.std.specs.Prelude.{◌≡◌, ◌↔◌, ◌⊎◌, List, map, Contains, IsTrue, IfOk, OnOk};
ghost use Rattle.cert_nodes.specs.declared.spots.Spot.{Spot};
ghost use Rattle.cert_nodes.specs.declared.spots.Diagrams.{Diagrams};
ghost use Rattle.cert_nodes.specs.Spots.{AreDrawn};
ghost use Rattle.cert_tables.specs.Automata.{table_automaton};
ghost use Rattle.cert_tables.specs.PairKeys.{named_pair};
ghost use Rattle.cert_tables.specs.Pairs.{spots_of, Goes, AllGo, GoAlong, StartsTogether};
ghost use Rattle.cert_tables.specs.Starts.{IsLedWith, AreLedBy};

use crate::class_triples::{ClassTriple, triples};
use crate::pair_table::PairTable;
use crate::table::{Table, initial, spot};
use cert_nodes::{Diagrams, Spot, SpotListSet, StateList, led_to};
use std::alloc::{AllocError, Global};
use ws2s_core::Guide;

/// Where two triples of classes lead to, in each of the three automata.
fn spots(
    alloc: Global,
    space: u32,
    a: &Table,
    b: &Table,
    c: &Table,
    left: ClassTriple,
    right: ClassTriple,
) -> Result<Vec<Spot>, AllocError>
    ensures { IfOk result (λ spots. spots.items ≡ spots_of space a.now b.now c.now left right) }
{
    let mut spots = Vec::with_capacity(alloc, 3)?;
    spots.push(spot(a, space, left.first, right.first))?;
    spots.push(spot(b, space, left.second, right.second))?;
    spots.push(spot(c, space, left.state, right.state))?;
    Ok(spots)
}

/// Puts in where a triple of classes leads to with each of the right side's.
fn add_starts(
    alloc: Global,
    space: u32,
    a: &Table,
    b: &Table,
    c: &Table,
    left: ClassTriple,
    rights: &[ClassTriple],
    starts: &mut SpotListSet,
) -> Result<(), AllocError>
    ensures { OnOk result ((spots : List Spot) → Contains starts.new spots ↔
        (Contains starts.old spots ⊎ IsLedWith (spots_of space a.now b.now c.now) left rights.now spots)) }
{
    for right in rights {
        let made = spots(alloc, space, a, b, c, left, *right)?;
        starts.insert(made)?;
    }
    Ok(())
}

/// Where the triples of classes of both sides lead to.
fn starts(
    alloc: Global,
    space: u32,
    a: &Table,
    b: &Table,
    c: &Table,
    lefts: &[ClassTriple],
    rights: &[ClassTriple],
) -> Result<SpotListSet, AllocError>
    ensures { IfOk result (AreLedBy (spots_of space a.now b.now c.now) lefts.now rights.now) }
{
    let mut starts = SpotListSet::new(alloc);
    for left in lefts {
        add_starts(alloc, space, a, b, c, *left, rights, &mut starts)?;
    }
    Ok(starts)
}

/// Whether the first two of three states go to the third.
fn goes(pairs: &PairTable, space: u32, states: &[u32]) -> bool
    ensures { IsTrue result ↔ Goes (map named_pair pairs.now) space states.now }
{
    match states {
        [first, second, whole] => match pairs.state(space, *first, *second) {
            Some(state) => state == *whole,
            None => false,
        },
        _ => false,
    }
}

/// Whether in each of the lists the first two states go to the third.
fn all_go(pairs: &PairTable, space: u32, lists: &[StateList]) -> bool
    ensures { IsTrue result ↔ AllGo (map named_pair pairs.now) space lists.now }
{
    for list in lists {
        if !goes(pairs, space, list.as_slice()) {
            return false;
        }
    }
    true
}

/// Whether the pairs go along with the steps in a space. Each two triples of classes that occur are looked at once, and each
/// three places of the nodes on the way down.
pub fn go_along(
    alloc: Global,
    g: &Guide,
    nodes: &Diagrams,
    space: u32,
    a: &Table,
    b: &Table,
    pairs: &PairTable,
    c: &Table,
) -> Result<bool, AllocError>
    requires { AreDrawn nodes.now }
    ensures { IfOk result (λ go. IsTrue go ↔
        GoAlong g.now (table_automaton nodes.now a.now) (table_automaton nodes.now b.now) (map named_pair pairs.now)
        (table_automaton nodes.now c.now) space) }
{
    let (left, right) = g.children(space).unwrap_or((0, 0));
    let lefts = triples(alloc, false, space, left, a, b, c, pairs.as_slice())?;
    let rights = triples(alloc, true, space, right, a, b, c, pairs.as_slice())?;
    let starts = starts(alloc, space, a, b, c, lefts.as_slice(), rights.as_slice())?;
    let lists = led_to(alloc, nodes, 0, starts)?;
    Ok(all_go(pairs, space, lists.as_slice()))
}

/// Whether the initial states of a space go to the initial one.
pub fn start_together(space: u32, a: &Table, b: &Table, pairs: &PairTable, c: &Table) -> bool
    ensures { (nodes : Diagrams) → IsTrue result ↔
        StartsTogether (table_automaton nodes a.now) (table_automaton nodes b.now) (map named_pair pairs.now)
        (table_automaton nodes c.now) space }
{
    match pairs.state(space, initial(a, space), initial(b, space)) {
        Some(state) => state == initial(c, space),
        None => false,
    }
}
