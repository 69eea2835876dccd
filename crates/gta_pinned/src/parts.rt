//! The parts of the automaton whose states are shapes.

ghost use Rattle.std.specs.Prelude.{◌≡◌, ℕ, IfOk, length, slice_get, Some};
ghost use Rattle.bdd_nodes.specs.Shelf.{IsShelf};
ghost use Rattle.gta_theory.specs.Guides.{IsSpace};
ghost use Rattle.gta_core.specs.declared.build.SpacePart.{SpacePart};
ghost use Rattle.gta_pinned.specs.Making.{Makes};
ghost use Rattle.gta_pinned.specs.Parts.{AreUsable, AreAllUsable, AreRoots, IsPartIn, are_only};

use crate::choosing::choose;
use crate::shapes::{ASTRAY, EMPTY, Shape, Shapes};
use bdd_nodes::{RefList, Shelf};
use bdd_walk::{NoMemory, Stop};
use gta_core::{BoolList, SpacePart, SpacePartList};
use plain_data::Items;
use std::alloc::Global;
use ws2s_core::Guide;

/// The most roots that a space may have for each node of the shelf's limit: they stand outside the shelf.
const ROOTS_A_NODE: usize = 16;

/// The parts of all spaces.
pub(crate) fn parts(
    alloc: Global,
    g: &Guide,
    shapes: &Vec<Shapes>,
    limit: u32,
    shelf: &mut Shelf,
) -> Result<SpacePartList, Stop>
    requires shelf { IsShelf shelf.old }
    requires usable { AreAllUsable g.now shelf.old shapes.now.items }
    ensures many { IfOk result (λ spaces. length spaces ≡ length g.now) }
    ensures parts { IfOk result (λ spaces. (s : ℕ) (part : SpacePart) → slice_get spaces s ≡ Some part →
        IsPartIn g.now shelf.new shapes.now.items s part) }
    ensures makes { Makes shelf.old shelf.new }
{
    let mut spaces = Items::new(alloc);
    for space in 0..g.spaces() {
        let part = part_in(alloc, g, shapes, space, limit, shelf)?;
        spaces.push(part)?;
    }
    Ok(spaces)
}

/// The part of a space. `Limit` also where it would have too many roots.
fn part_in(
    alloc: Global,
    g: &Guide,
    shapes: &Vec<Shapes>,
    space: u32,
    limit: u32,
    shelf: &mut Shelf,
) -> Result<SpacePart, Stop>
    requires shelf { IsShelf shelf.old }
    requires inside { IsSpace g.now space }
    requires usable { AreAllUsable g.now shelf.old shapes.now.items }
    ensures part { IfOk result (IsPartIn g.now shelf.new shapes.now.items space) }
    ensures makes { Makes shelf.old shelf.new }
{
    let (left, right) = g.children(space).unwrap_or((0, 0));
    let here = &shapes[space as usize];
    let height = shapes[left as usize].len() + 1;
    let width = shapes[right as usize].len() + 1;
    if height * width > ROOTS_A_NODE * limit as usize {
        return Err(Stop::Limit);
    }
    let roots = roots_of(alloc, here.as_slice(), height, width, shelf)?;
    Ok(SpacePart {
        states: here.len() as u32 + 1,
        initial: EMPTY,
        roots,
    })
}

/// The roots for the pairs of so many states at the left and at the right.
fn roots_of(
    alloc: Global,
    shapes: &[Shape],
    height: usize,
    width: usize,
    shelf: &mut Shelf,
) -> Result<RefList, Stop>
    requires shelf { IsShelf shelf.old }
    requires usable { AreUsable shelf.old shapes.now height width }
    ensures roots { IfOk result (AreRoots shelf.new shapes.now (length shapes.now) height width) }
    ensures makes { Makes shelf.old shelf.new }
{
    let mut roots = vec![in alloc; Shelf::leaf(ASTRAY); height * width]?;
    for k in 0..shapes.len() {
        let shape = shapes[k];
        let place = shape.left as usize * width + shape.right as usize;
        let root = choose(alloc, shape.test, k as u32 + 1, roots[place], shelf)?;
        roots[place] = root;
    }
    Ok(Items::from_vec(roots))
}

/// For each of so many states whether it is that one.
pub(crate) fn only(alloc: Global, state: u32, many: u32) -> Result<BoolList, NoMemory>
    ensures { IfOk result (λ accepting. accepting ≡ are_only state many) }
{
    let mut accepting = Items::new(alloc);
    for other in 0..many {
        accepting.push(other == state)?;
    }
    Ok(accepting)
}
