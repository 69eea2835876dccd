//! The shapes of a tree's subtrees.

ghost use Rattle.std.specs.Prelude.{◌≡◌, ◌<◌, [], ◌∷◌, IfSome, IfOk, OnOk, length, vec_len, replicate};
ghost use Rattle.std.specs.List.Sorted.{IsStrictlyIncreasing};
ghost use Rattle.ws2s_core.specs.LabelTrees.{IsTree};
ghost use Rattle.gta_theory.specs.Guides.{IsGuide, IsSpace, left, right};
ghost use Rattle.gta_core.specs.Accepting.{AreSpacesFrom};
ghost use Rattle.bdd_nodes.specs.Shelf.{IsShelf};
ghost use Rattle.gta_pinned.specs.Making.{Makes};
ghost use Rattle.gta_pinned.specs.Shapes.{AreShapes, KeepsShapes, IsShaped, shapes_in};
ghost use Rattle.gta_pinned.specs.States.{child_state, IsNodeState, AreStates, AreOfTree};

use crate::shapes::{EMPTY, Shape, Shapes};
use crate::spaces::spaces_of;
use crate::telling::{rising_of, telling};
use bdd_nodes::Shelf;
use bdd_walk::{NoMemory, Stop};
use std::alloc::Global;
use ws2s_core::{Guide, LabelTree, TrackList, TreeNode};

/// The shapes of each space, and the state of a whole tree.
#[derive(Drop)]
pub(crate) struct TreeShapes {
    pub(crate) shapes: Vec<Shapes>,
    pub(crate) root: u32,
}

/// The shapes of a tree's subtrees on the tracks.
pub(crate) fn shapes_of(
    alloc: Global,
    g: &Guide,
    tree: &LabelTree,
    tracks: &TrackList,
    shelf: &mut Shelf,
) -> Result<TreeShapes, Stop>
    requires { IsShelf shelf.old }
    ensures shapes { IfOk result (λ made. AreOfTree g.now shelf.new tracks.now tree.now made.shapes.items made.root) }
    ensures makes { Makes shelf.old shelf.new }
{
    let nodes = tree.nodes();
    let rising = rising_of(alloc, tracks)?;
    let mut shapes = empty_shapes(alloc, g, &rising, shelf)?;
    let spaces = spaces_of(alloc, g, nodes)?;
    let states = states_of(alloc, g, nodes, &spaces, &rising, &mut shapes, shelf)?;
    let root = match states.last() {
        Some(state) => *state,
        None => EMPTY,
    };
    Ok(TreeShapes { shapes, root })
}

/// For each space the shape of the empty tree.
fn empty_shapes(
    alloc: Global,
    g: &Guide,
    rising: &[u32],
    shelf: &mut Shelf,
) -> Result<Vec<Shapes>, Stop>
    requires shelf { IsShelf shelf.old }
    requires rises { IsStrictlyIncreasing rising.now }
    ensures shapes { IfOk result (λ shapes. AreShapes g.now shelf.new rising.now shapes.items) }
    ensures makes { Makes shelf.old shelf.new }
    ensures guide { OnOk result (IsGuide g.now) }
{
    let test = telling(rising, &[], shelf)?;
    let empty = Shape {
        left: EMPTY,
        right: EMPTY,
        test,
    };
    let shapes = one_each(alloc, empty, g.spaces())?;
    Ok(shapes)
}

/// The shape alone in each of so many spaces.
fn one_each(alloc: Global, shape: Shape, many: u32) -> Result<Vec<Shapes>, NoMemory>
    ensures { IfOk result (λ spaces. spaces.items ≡ replicate many (shape ∷ [])) }
{
    let mut spaces = Vec::new(alloc);
    for _space in 0..many {
        spaces.push(Shapes::of(alloc, shape)?)?;
    }
    Ok(spaces)
}

/// The state of each node, whose shapes come where they weren't there.
fn states_of(
    alloc: Global,
    g: &Guide,
    nodes: &[TreeNode],
    spaces: &[u32],
    rising: &[u32],
    shapes: &mut Vec<Shapes>,
    shelf: &mut Shelf,
) -> Result<Vec<u32>, Stop>
    requires shelf { IsShelf shelf.old }
    requires guide { IsGuide g.now }
    requires tree { IsTree nodes.now }
    requires spaces { AreSpacesFrom g.now nodes.now 0 spaces.now }
    requires rises { IsStrictlyIncreasing rising.now }
    requires shapes { AreShapes g.now shelf.old rising.now shapes.old.items }
    ensures shapes { OnOk result (AreShapes g.now shelf.new rising.now shapes.new.items) }
    ensures many { IfOk result (λ states. vec_len states ≡ length nodes.now) }
    ensures states { IfOk result (λ states. AreStates shelf.new rising.now shapes.new.items nodes.now spaces.now states.items) }
    ensures makes { Makes shelf.old shelf.new }
{
    let mut states = Vec::with_capacity(alloc, nodes.len())?;
    for k in 0..nodes.len() {
        let state = state_of(g, &nodes[k], spaces[k], rising, &states, shapes, shelf)?;
        states.push(state)?;
    }
    Ok(states)
}

/// The state of a node in its space, by those of the nodes before it. Its shape comes where it wasn't there.
fn state_of(
    _g: &Guide,
    node: &TreeNode,
    space: u32,
    rising: &[u32],
    states: &[u32],
    shapes: &mut Vec<Shapes>,
    shelf: &mut Shelf,
) -> Result<u32, Stop>
    requires shelf { IsShelf shelf.old }
    requires inside { IsSpace _g.now space }
    requires rises { IsStrictlyIncreasing rising.now }
    requires at_left { IfSome node.now.left (λ j. j < length states.now) }
    requires at_right { IfSome node.now.right (λ j. j < length states.now) }
    requires left { IsShaped shapes.old.items (left _g.now space) (child_state states.now node.now.left) }
    requires right { IsShaped shapes.old.items (right _g.now space) (child_state states.now node.now.right) }
    requires shapes { AreShapes _g.now shelf.old rising.now shapes.old.items }
    ensures shapes { OnOk result (AreShapes _g.now shelf.new rising.now shapes.new.items) }
    ensures kept { OnOk result (KeepsShapes shapes.old.items shapes.new.items) }
    ensures state { IfOk result (IsNodeState shelf.new rising.now (shapes_in shapes.new.items space) states.now node.now) }
    ensures makes { Makes shelf.old shelf.new }
{
    let test = telling(rising, node.tracks.as_slice(), shelf)?;
    let shape = Shape {
        left: child_state(states, node.left),
        right: child_state(states, node.right),
        test,
    };
    let state = shapes[space as usize].state(shape)?;
    Ok(state)
}

/// The state of a child.
fn child_state(states: &[u32], child: Option<u32>) -> u32
    requires { IfSome child (λ j. j < length states.now) }
    ensures { result ≡ child_state states.now child }
{
    match child {
        Some(j) => states[j as usize],
        None => EMPTY,
    }
}
