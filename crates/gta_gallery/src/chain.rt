//! Functions of a chain of states.

ghost use Rattle.std.specs.Prelude.{◌≡◌, ◌<◌, ◌≤◌, ◌^◌, ℕ, suc, IfOk, length, if◌then◌else◌};
ghost use Rattle.labels.specs.Labels.{Label, empty_label};
ghost use Rattle.bdd_nodes.specs.Shelf.{IsShelf, IsSideFor, state_of};
ghost use Rattle.bdd_nodes.specs.Changes.{Keeps};
ghost use Rattle.gta_gallery.specs.Functions.{GoesTo, GoTo};

use bdd_nodes::{Full, NodeRef, RefList, Shelf};
use bdd_walk::Stop;
use std::alloc::Global;

/// The reference that goes to one state where the track is unset, and to another one where it is set.
fn choice(shelf: &mut Shelf, states: u32, track: u32, low: u32, high: u32) -> Result<NodeRef, Full>
    requires few { states ≤ 2 ^ 31 }
    requires low { low < states }
    requires high { high < states }
    ensures goes { IfOk result (GoesTo shelf.new states) }
    ensures value { IfOk result (λ made. (label : Label) → state_of shelf.new made label ≡ (if label track then high else low)) }
    ensures side { IfOk result (λ made. (before : ℕ) → before < track → IsSideFor shelf.new before made) }
    ensures kept { Keeps shelf.old shelf.new }
    ensures shelf { IsShelf shelf.new }
{
    let unset = Shelf::leaf(low);
    let set = Shelf::leaf(high);
    shelf.make(track, unset, set)
}

/// The reference of the first state of a chain: track 0 leads to the last one, else track 1 to the next one.
fn first(shelf: &mut Shelf, states: u32) -> Result<NodeRef, Full>
    requires some { 0 < states }
    requires few { states ≤ 2 ^ 31 }
    ensures goes { IfOk result (GoesTo shelf.new states) }
    ensures value { IfOk result (λ made. state_of shelf.new made empty_label ≡ 0) }
    ensures kept { Keeps shelf.old shelf.new }
    ensures shelf { IsShelf shelf.new }
{
    let on = choice(shelf, states, 1, 0, 1 % states)?;
    let last = Shelf::leaf(states - 1);
    shelf.make(0, on, last)
}

/// The references of a chain of states: from each one track 1 leads to the next one, and it begins anew where the track
/// is unset. From the first one track 0 leads to the last one at once.
pub(crate) fn chain(alloc: Global, states: u32, shelf: &mut Shelf) -> Result<RefList, Stop>
    requires some { 0 < states }
    requires few { states ≤ 2 ^ 31 }
    ensures many { IfOk result (λ refs. length refs ≡ states) }
    ensures goes { IfOk result (GoTo shelf.new states) }
    ensures shelf { IfOk result (λ _. IsShelf shelf.new) }
{
    let mut refs = RefList::new(alloc);
    let start = first(shelf, states)?;
    refs.push(start)?;
    for state in 1..states {
        let next = (state + 1) % states;
        let made = choice(shelf, states, 1, 0, next)?;
        refs.push(made)?;
    }
    Ok(refs)
}
