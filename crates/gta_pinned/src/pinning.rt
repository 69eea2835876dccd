//! The call.

ghost use Rattle.std.specs.Prelude.{◌≡◌, ◌↔◌, ℕ, IfOk, OnErr};
ghost use Rattle.bdd_nodes.specs.Shelf.{IsShelf, limit_of};
ghost use Rattle.bdd_nodes.specs.Changes.{Keeps, SameTables};
ghost use Rattle.gta_theory.specs.Assignments.{Assignment, Covers};
ghost use Rattle.gta_theory.specs.Automata.{Accepts};
ghost use Rattle.ws2s_core.specs.LabelTrees.{assignment_of};
ghost use Rattle.gta_core.specs.Auto.{automaton_of, IsAuto};
ghost use Rattle.gta_core.specs.Changes.{RegistersTable};
ghost use Rattle.gta_pinned.specs.Alike.{AreAlikeOn};

use crate::parts::{only, parts};
use crate::states::shapes_of;
use bdd_nodes::Shelf;
use bdd_walk::Stop;
use gta_core::Auto;
use std::alloc::Global;
use ws2s_core::{Guide, LabelTree, TrackList};

/// The automaton that accepts exactly the trees which have, on each of the tracks, the set that the given tree has. The tracks
/// may come in any order, and more than once.
///
/// # Errors
///
/// `Limit` where the shelf has no room for a node, or where the table of a space would have more than 16 roots for each node of
/// the limit. Want of memory, also where a space has more shapes than there are state numbers, or the roots are more than a
/// `u32` counts. After a stop no table is left.
pub fn pinned(
    alloc: Global,
    g: &Guide,
    tree: &LabelTree,
    tracks: &TrackList,
    shelf: &mut Shelf,
) -> Result<Auto, Stop>
    // The result.
    ensures auto { IfOk result (IsAuto g.now shelf.new) }
    ensures accepts { IfOk result (λ auto. (n : ℕ) (a : Assignment) → Covers n a →
        Accepts g.now (automaton_of shelf.new auto) a ↔ AreAlikeOn tracks.now (assignment_of tree.now) a) }
    ensures table { IfOk result (λ auto. RegistersTable shelf.old shelf.new auto.table) }

    // What the call leaves, whatever it answers.
    ensures kept { Keeps shelf.old shelf.new }
    ensures tables { OnErr result (SameTables shelf.old shelf.new) }
    ensures same_limit { limit_of shelf.new ≡ limit_of shelf.old }
    ensures shelf { IsShelf shelf.new }
{
    let limit = shelf.limit();
    let made = shapes_of(alloc, g, tree, tracks, shelf)?;
    let spaces = parts(alloc, g, &made.shapes, limit, shelf)?;
    let accepting = only(alloc, made.root, made.shapes[0].len() as u32 + 1)?;
    let auto = Auto::build(alloc, g, spaces, accepting, shelf)?;
    Ok(auto)
}
