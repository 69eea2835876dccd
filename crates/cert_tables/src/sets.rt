//! Whether sets of states go along with the steps of two automata.

ghost use Rattle.std.specs.Prelude.{◌≡◌, ◌↔◌, ◌⊎◌, ◌++◌, List, map, Contains, IsTrue, IfOk, OnOk};
ghost use Rattle.cert_theory.specs.Tables.{SetGoesTo};
ghost use Rattle.cert_nodes.specs.declared.spots.Spot.{Spot};
ghost use Rattle.cert_nodes.specs.Spots.{AreDrawn};
ghost use Rattle.cert_tables.specs.Automata.{table_automaton};
ghost use Rattle.cert_tables.specs.SetKeys.{named_set};
ghost use Rattle.cert_tables.specs.Sets.{key_of, fixed_spot, row_spots, cells_of, set_spots_of, SetGoes, AllSetsGo, SetsGoAlong};
ghost use Rattle.cert_tables.specs.Starts.{IsLedWith, AreLedBy};

use crate::class_sets::{SetClasses, all_classes};
use crate::members::rising;
use crate::set_table::SetTable;
use crate::table::{Table, spot};
use cert_nodes::{Diagrams, Spot, SpotListSet, StateList, led_to};
use std::alloc::{AllocError, Global};
use ws2s_core::Guide;

/// Where two classes lead to with the dropped track fixed.
fn fixed_spot(a: &Table, space: u32, bit: bool, left: u32, right: u32) -> Spot
    ensures { result ≡ fixed_spot a.now space bit left right }
{
    Spot {
        fixed: Some(bit),
        ..spot(a, space, left, right)
    }
}

/// Puts where a class leads to with each of the right side's.
fn push_row(
    spots: &mut Vec<Spot>,
    a: &Table,
    space: u32,
    bit: bool,
    left: u32,
    rights: &[u32],
) -> Result<(), AllocError>
    ensures { OnOk result (spots.new.items ≡ spots.old.items ++ row_spots a.now space bit rights.now left) }
{
    for right in rights {
        spots.push(fixed_spot(a, space, bit, left, *right))?;
    }
    Ok(())
}

/// Puts where the classes of both sides lead to.
fn push_cells(
    spots: &mut Vec<Spot>,
    a: &Table,
    space: u32,
    bit: bool,
    lefts: &[u32],
    rights: &[u32],
) -> Result<(), AllocError>
    ensures { OnOk result (spots.new.items ≡ spots.old.items ++ cells_of a.now space bit lefts.now rights.now) }
{
    for left in lefts {
        push_row(spots, a, space, bit, *left, rights)?;
    }
    Ok(())
}

/// Where the classes of two sets lead to: in the automaton, and in the part's without the dropped track and with it.
fn set_spots(
    alloc: Global,
    space: u32,
    a: &Table,
    c: &Table,
    left: &SetClasses,
    right: &SetClasses,
) -> Result<Vec<Spot>, AllocError>
    ensures { IfOk result (λ spots. spots.items ≡ set_spots_of space a.now c.now (key_of left.now) (key_of right.now)) }
{
    let mut spots = Vec::new(alloc);
    spots.push(spot(c, space, left.state, right.state))?;
    push_cells(
        &mut spots,
        a,
        space,
        false,
        left.members.as_slice(),
        right.members.as_slice(),
    )?;
    push_cells(
        &mut spots,
        a,
        space,
        true,
        left.members.as_slice(),
        right.members.as_slice(),
    )?;
    Ok(spots)
}

/// Puts in where the classes of a set lead to with each of the right side's.
fn add_set_starts(
    alloc: Global,
    space: u32,
    a: &Table,
    c: &Table,
    left: &SetClasses,
    rights: &[SetClasses],
    starts: &mut SpotListSet,
) -> Result<(), AllocError>
    ensures { OnOk result ((spots : List Spot) → Contains starts.new spots ↔
        (Contains starts.old spots ⊎ IsLedWith (set_spots_of space a.now c.now) (key_of left.now) (map key_of rights.now) spots)) }
{
    for right in rights {
        let made = set_spots(alloc, space, a, c, left, right)?;
        starts.insert(made)?;
    }
    Ok(())
}

/// Where the classes of both sides' sets lead to.
fn set_starts(
    alloc: Global,
    space: u32,
    a: &Table,
    c: &Table,
    lefts: &[SetClasses],
    rights: &[SetClasses],
) -> Result<SpotListSet, AllocError>
    ensures { IfOk result (AreLedBy (set_spots_of space a.now c.now) (map key_of lefts.now) (map key_of rights.now)) }
{
    let mut starts = SpotListSet::new(alloc);
    for left in lefts {
        add_set_starts(alloc, space, a, c, left, rights, &mut starts)?;
    }
    Ok(starts)
}

/// Whether the set of these states, in any order, goes to that state. Takes no memory.
pub fn set_goes_to(sets: &SetTable, space: u32, members: Vec<u32>, state: u32) -> bool
    ensures { IsTrue result ↔ SetGoesTo (map named_set sets.now) space (Contains members.items) state }
{
    match sets.state(space, rising(members)) {
        Some(found) => found == state,
        None => false,
    }
}

/// Whether the set of the later states goes to the first one.
fn set_goes(alloc: Global, sets: &SetTable, space: u32, states: &[u32]) -> Result<bool, AllocError>
    ensures { IfOk result (λ goes. IsTrue goes ↔ SetGoes (map named_set sets.now) space states.now) }
{
    let Some((whole, others)) = states.split_first() else {
        return Ok(false);
    };
    let members = Vec::from_slice(alloc, others)?;
    Ok(set_goes_to(sets, space, members, *whole))
}

/// Whether in each of the lists the set of the later states goes to the first one.
fn all_sets_go(
    alloc: Global,
    sets: &SetTable,
    space: u32,
    lists: &[StateList],
) -> Result<bool, AllocError>
    ensures { IfOk result (λ go. IsTrue go ↔ AllSetsGo (map named_set sets.now) space lists.now) }
{
    for list in lists {
        if !set_goes(alloc, sets, space, list.as_slice())? {
            return Ok(false);
        }
    }
    Ok(true)
}

/// Whether the sets go along with the steps in a space, with a track dropped. Each two keys of classes that occur are looked
/// at once, and each list of places of the nodes on the way down.
pub fn sets_go_along(
    alloc: Global,
    g: &Guide,
    nodes: &Diagrams,
    space: u32,
    a: &Table,
    dropped: u32,
    sets: &SetTable,
    c: &Table,
) -> Result<bool, AllocError>
    requires { AreDrawn nodes.now }
    ensures { IfOk result (λ go. IsTrue go ↔
        SetsGoAlong g.now (table_automaton nodes.now a.now) dropped (map named_set sets.now) (table_automaton nodes.now c.now) space) }
{
    let (left, right) = g.children(space).unwrap_or((0, 0));
    let lefts = all_classes(alloc, false, space, left, a, c, sets.as_slice())?;
    let rights = all_classes(alloc, true, space, right, a, c, sets.as_slice())?;
    let starts = set_starts(alloc, space, a, c, lefts.as_slice(), rights.as_slice())?;
    let lists = led_to(alloc, nodes, dropped, starts)?;
    all_sets_go(alloc, sets, space, lists.as_slice())
}
