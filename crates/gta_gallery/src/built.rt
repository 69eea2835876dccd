//! An automaton with a state that isn't reached, over two spaces, one of which no position has.

ghost use Rattle.std.specs.Prelude.{◌≡◌, ◌∷◌, [], length, IfOk, if◌then◌else◌};
ghost use Rattle.labels.specs.Labels.{Label};
ghost use Rattle.bdd_nodes.specs.Shelf.{IsShelf, IsValid, state_of};
ghost use Rattle.gta_core.specs.Auto.{IsAuto};
ghost use Rattle.gta_core.specs.declared.build.SpacePart.{SpacePart};
ghost use Rattle.gta_gallery.specs.Told.{two_spaces, told_part, told_parts};

use crate::steps::go_on;
use bdd_nodes::{Full, NodeRef, Shelf};
use bdd_walk::Stop;
use gta_core::{Auto, SpacePart, SpacePartList};
use plain_data::Items;
use plain_writer::Writer;
use std::alloc::{AllocError, Global};
use ws2s_core::Guide;

/// A root that tells whether a node has track 0.
fn told(shelf: &mut Shelf) -> Result<NodeRef, Full>
    ensures valid { IfOk result (IsValid shelf.new) }
    ensures states { IfOk result (λ root. (label : Label) → state_of shelf.new root label ≡ (if label 0 then 1 else 0)) }
    ensures shelf { IsShelf shelf.new }
{
    let zero = Shelf::leaf(0);
    let one = Shelf::leaf(1);
    shelf.make(0, zero, one)
}

/// A space of three states with this root for each pair.
fn part(alloc: Global, root: NodeRef) -> Result<SpacePart, AllocError>
    ensures { IfOk result (λ part. part ≡ told_part root) }
{
    Ok(SpacePart {
        states: 3,
        initial: 0,
        roots: Items::from_slice(
            alloc,
            &[root, root, root, root, root, root, root, root, root],
        )?,
    })
}

fn parts(alloc: Global, root: NodeRef) -> Result<SpacePartList, AllocError>
    ensures { IfOk result (λ parts. parts ≡ told_parts root) }
{
    let mut parts = Items::new(alloc);
    parts.push(part(alloc, root)?)?;
    parts.push(part(alloc, root)?)?;
    Ok(parts)
}

fn guide(alloc: Global) -> Result<Guide, AllocError>
    ensures { IfOk result (λ guide. guide ≡ two_spaces) }
{
    Guide::new(alloc, Items::from_slice(alloc, &[(0, 0), (1, 1)])?)
}

/// The automaton with these accepting states: 1 where the root has track 0, 0 where it hasn't, and 2 never.
fn built(
    alloc: Global,
    g: &Guide,
    accepting: (bool, bool, bool),
    shelf: &mut Shelf,
) -> Result<Auto, Stop>
    requires { g.now ≡ two_spaces }
    ensures auto { IfOk result (IsAuto g.now shelf.new) }
    ensures shelf { IfOk result (λ _. IsShelf shelf.new) }
{
    let root = told(shelf)?;
    let spaces = parts(alloc, root)?;
    let accepting = Items::from_slice(alloc, &[accepting.0, accepting.1, accepting.2])?;
    Ok(Auto::build(alloc, g, spaces, accepting, shelf)?)
}

/// Writes what words ask for of the automaton with these accepting states.
fn go_from_built(
    alloc: Global,
    g: &Guide,
    accepting: (bool, bool, bool),
    words: &str,
    shelf: &mut Shelf,
    out: &mut Writer,
) -> Result<(), Stop>
    requires { g.now ≡ two_spaces }
{
    let a = built(alloc, g, accepting, shelf)?;
    go_on(alloc, g, a, words, shelf, out)
}

/// Writes what the words behind the first one ask for. The first one says which states accept, as `011`.
pub(crate) fn answer_built(alloc: Global, line: &str, out: &mut Writer) -> Result<(), Stop> {
    let (states, words) = line.split_once(' ').unwrap_or((line, ""));
    let accepting = (
        states.starts_with('1'),
        states.starts_with("01") || states.starts_with("11"),
        states.ends_with('1'),
    );
    let g = guide(alloc)?;
    let mut shelf = Shelf::open(alloc, 100)?;
    go_from_built(alloc, &g, accepting, words, &mut shelf, out)
}
