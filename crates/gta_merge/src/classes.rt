//! Classes of the states of a child: states whose lines are equal share one.

ghost use Rattle.std.specs.Prelude.{◌<◌, ◌≤◌, ℕ, All, IsSome, IfOk, OnOk, length, map};
ghost use Rattle.gta_merge.specs.Lines.{root_beside};
ghost use Rattle.gta_merge.specs.Classes.{IsLineStep, IsStateStep, IsFirstStep, AreFirsts, HaveLikeRoots, AreToldApart, AreClassed};

use crate::lines::{Side, line_of};
use bdd_nodes::{NodeRef, Shelf};
use bdd_walk::NoMemory;
use gta_core::Auto;
use plain_data::Items;
use std::alloc::{AllocError, Global};
use std::collections::{HashMap, HashSet};

/// The class of each state of a child, in order, and for each class a state that has it.
#[derive(Drop)]
pub(crate) struct Classes {
    pub(crate) of: Items<u32>,
    pub(crate) ones: Items<u32>,
}

/// The lines that came, each with its class.
#[derive(Drop)]
struct Lines {
    classes: HashMap<Vec<NodeRef>, u32>,
    /// For each class the first state that has it.
    ones: Items<u32>,
    /// The class of a state, by the class that it had before.
    known: HashMap<u32, u32>,
}

/// The class of a line of a state; a new one where the line is new.
fn number(
    classes: &mut HashMap<Vec<NodeRef>, u32>,
    ones: &mut Items<u32>,
    line: Vec<NodeRef>,
    state: u32,
) -> Result<u32, AllocError>
    requires { length ones.old ≤ state }
    ensures { IfOk result (λ class. IsLineStep line state classes.old ones.old classes.new ones.new class) }
{
    if let Some(class) = classes.get(&line) {
        return Ok(*class);
    }
    let class = ones.len() as u32;
    classes.insert(line, class)?;
    ones.push(state)?;
    Ok(class)
}

/// The class of a state, by the class that it had or by its line.
#[allow(clippy::too_many_arguments)]
fn class_of(
    alloc: Global,
    a: &Auto,
    shelf: &Shelf,
    space: u32,
    side: Side,
    state: u32,
    had: u32,
    others: &[u32],
    lines: &mut Lines,
) -> Result<u32, NoMemory>
    requires known { All (λ other. IsSome (root_beside shelf.now a.now space side state other)) others.now }
    requires few { length lines.old.ones ≤ state }
    ensures { IfOk result (λ class. IsStateStep (map (root_beside shelf.now a.now space side state) others.now) state had lines.old lines.new class) }
{
    if let Some(class) = lines.known.get(&had) {
        return Ok(*class);
    }
    let line = line_of(alloc, a, shelf, space, side, state, others)?;
    let class = number(&mut lines.classes, &mut lines.ones, line, state)?;
    lines.known.insert(had, class)?;
    Ok(class)
}

/// Lets the state be the first of the class that it had, where none was seen.
fn note_first(
    seen: &mut HashSet<u32>,
    firsts: &mut Items<u32>,
    had: u32,
    state: u32,
) -> Result<(), AllocError>
    ensures { OnOk result (IsFirstStep had state seen.old firsts.old seen.new firsts.new) }
{
    if seen.contains(&had) {
        return Ok(());
    }
    firsts.push(state)?;
    seen.insert(had)?;
    Ok(())
}

/// Of so many states, the first of each class that they had.
pub(crate) fn firsts(alloc: Global, had: &[u32], many: u32) -> Result<Items<u32>, NoMemory>
    requires { many ≤ length had.now }
    ensures { IfOk result (AreFirsts had.now many) }
{
    let mut seen = HashSet::new(alloc);
    let mut firsts = Items::new(alloc);
    for state in 0..many {
        note_first(&mut seen, &mut firsts, had[state as usize], state)?;
    }
    Ok(firsts)
}

/// The classes of so many states of a child: states with equal lines, which tell states apart, share one. States that
/// had one class before have equal lines.
#[allow(clippy::too_many_arguments)]
pub(crate) fn classify(
    alloc: Global,
    a: &Auto,
    shelf: &Shelf,
    space: u32,
    side: Side,
    had: &[u32],
    many: u32,
    others: &[u32],
) -> Result<Classes, NoMemory>
    requires many { many ≤ length had.now }
    requires known { (q : ℕ) → q < many → All (λ other. IsSome (root_beside shelf.now a.now space side q other)) others.now }
    requires like { HaveLikeRoots (root_beside shelf.now a.now space side) had.now }
    requires told { AreToldApart (root_beside shelf.now a.now space side) many others.now }
    ensures { IfOk result (AreClassed (root_beside shelf.now a.now space side) many) }
{
    let mut lines = Lines {
        classes: HashMap::new(alloc),
        ones: Items::new(alloc),
        known: HashMap::new(alloc),
    };
    let mut of = Items::from_vec(Vec::with_capacity(alloc, many as usize)?);
    for state in 0..many {
        let class = class_of(
            alloc,
            a,
            shelf,
            space,
            side,
            state,
            had[state as usize],
            others,
            &mut lines,
        )?;
        of.push(class)?;
    }
    Ok(Classes {
        of,
        ones: lines.ones,
    })
}
