//! What is found of a formula, without its tree.

ghost use Rattle.std.specs.Prelude.{◌≤◌};
ghost use Rattle.gta_keep.specs.Holding.{HasNoTables};

use bdd_nodes::{RefList, Shelf, TableId};
use plain_data::Items;
use std::alloc::{AllocError, Global};
use ws2s_core::{Formula, Guide, LabelTree, Track, TrackList};
use ws2s_decide::{Verdict, decide};

/// What is found of a formula.
#[derive(Clone, Copy, PartialEq)]
pub enum Found {
    Unsatisfiable,
    /// A tree of this weight, and how many nodes it has.
    Tree(u64, usize),
    TooLarge,
    Limit,
}

fn found_tree(tree: &LabelTree, weight: u64) -> Found {
    Found::Tree(weight, tree.nodes().len())
}

fn outcome_of(verdict: Verdict) -> Found {
    match verdict {
        Verdict::None => Found::Unsatisfiable,
        Verdict::Witness(tree, weight) => found_tree(&tree, weight),
        Verdict::TooLarge => Found::TooLarge,
        Verdict::Limit => Found::Limit,
    }
}

/// Track 0, where it is weighed.
fn tracks(alloc: Global, is_weighed: bool) -> Result<TrackList, AllocError> {
    if is_weighed {
        Items::from_slice(alloc, &[Track(0)])
    } else {
        Ok(Items::new(alloc))
    }
}

/// What is found of a formula under a guide on a shelf.
fn found_under(
    alloc: Global,
    f: &Formula,
    g: &Guide,
    is_weighed: bool,
    shelf: &mut Shelf,
) -> Result<Found, AllocError>
    requires { HasNoTables shelf.old }
{
    let weigh = tracks(alloc, is_weighed)?;
    Ok(outcome_of(decide(alloc, f, g, &weigh, shelf)?))
}

/// What is found of a formula under the plain guide on a shelf, and the number of the next table there.
fn decided_on(
    alloc: Global,
    f: &Formula,
    is_weighed: bool,
    shelf: &mut Shelf,
) -> Result<(Found, TableId), AllocError>
    requires { HasNoTables shelf.old }
{
    let g = Guide::plain(alloc)?;
    let found = found_under(alloc, f, &g, is_weighed, shelf)?;
    Ok((found, shelf.add_table(RefList::new(alloc))?))
}

/// The same on a shelf of so many nodes.
pub fn decided(
    alloc: Global,
    f: &Formula,
    is_weighed: bool,
    limit: u32,
) -> Result<(Found, TableId), AllocError>
    requires some { 1 ≤ limit }
    requires small { limit ≤ 16000000 }
{
    let mut shelf = Shelf::open(alloc, limit)?;
    decided_on(alloc, f, is_weighed, &mut shelf)
}
