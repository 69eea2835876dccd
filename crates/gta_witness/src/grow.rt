//! The tree of a state: children are made before their parents, by a stack, so that no call goes deep.

ghost use Rattle.std.specs.Prelude.{◌≡◌, ◌<◌, ◌∷◌, List, length, IfOk, None};
ghost use Rattle.ws2s_core.specs.declared.label_tree.TreeNode.{TreeNode};
ghost use Rattle.gta_witness.specs.declared.goal.Goal.TheVariants.{State};
ghost use Rattle.gta_witness.specs.declared.goal.Weight.{Weight};
ghost use Rattle.gta_witness.specs.declared.grow.Task.{Task};
ghost use Rattle.gta_witness.specs.Searching.{found_by, IsSettled};
ghost use Rattle.gta_witness.specs.Reading.{IsReadable};
ghost use Rattle.gta_witness.specs.Growing.{Want, rounds, Grows, IsTreeTo};

use crate::read::step_of;
use crate::relax::Search;
use gta_reach::Form;
use plain_data::{Items, Stack};
use std::alloc::{AllocError, Global};
use ws2s_core::{LabelTree, Track, TrackList, TreeNode};

/// What is to be done.
#[derive(Drop)]
pub(crate) enum Task {
    /// To make the tree of a state.
    Visit { space: u32, state: u32 },
    /// To put the last two trees under a node with these tracks.
    Join { tracks: TrackList },
}

/// Puts what makes the tree of a state on the stack.
fn visit(
    alloc: Global,
    form: &Form,
    weigh: &[Track],
    search: &Search,
    tasks: &mut Stack<Task>,
    made: &mut Stack<Option<u32>>,
    space: u32,
    state: u32,
) -> Result<(), AllocError>
    requires readable { IsReadable form.now weigh.now (found_by search.now) }
    requires settled { (w : Weight) × IsSettled (found_by search.now) (State space state) w }
    ensures { (nodes : List TreeNode) (out : Want) → Grows form.now weigh.now (found_by search.now) nodes (Task.Visit space state ∷ tasks.old) made.old out
        → IfOk result (λ done. Grows form.now weigh.now (found_by search.now) nodes tasks.new made.new out
        × (rounds (found_by search.now) tasks.new < rounds (found_by search.now) (Task.Visit space state ∷ tasks.old))) }
{
    match step_of(alloc, form, weigh, search, space, state)? {
        None => {
            made.push(None)?;
        }
        Some(step) => {
            let Some(part) = form.spaces.get(space as usize) else {
                unreachable!()
            };
            let (left, right) = part.children;
            tasks.push(Task::Join {
                tracks: step.tracks,
            })?;
            tasks.push(Task::Visit {
                space: right,
                state: step.right,
            })?;
            tasks.push(Task::Visit {
                space: left,
                state: step.left,
            })?;
        }
    }
    Ok(())
}

/// Puts the last two trees under a node.
fn join(
    form: &Form,
    weigh: &[Track],
    search: &Search,
    nodes: &mut Items<TreeNode>,
    made: &mut Stack<Option<u32>>,
    tracks: TrackList,
) -> Result<(), AllocError>
    requires readable { IsReadable form.now weigh.now (found_by search.now) }
    requires few { length nodes.old < 4294967294 }
    ensures { (tasks : List Task) (out : Want) → Grows form.now weigh.now (found_by search.now) nodes.old (Task.Join tracks ∷ tasks) made.old out
        → IfOk result (λ done. Grows form.now weigh.now (found_by search.now) nodes.new tasks made.new out) }
{
    let right = made.take_or(None);
    let left = made.take_or(None);
    let place = nodes.len();
    nodes.push(TreeNode {
        tracks,
        left,
        right,
    })?;
    made.push(Some(place as u32))?;
    Ok(())
}

/// The tree of a state of space 0.
pub(crate) fn grow(
    alloc: Global,
    form: &Form,
    weigh: &[Track],
    search: &Search,
    state: u32,
) -> Result<LabelTree, AllocError>
    requires readable { IsReadable form.now weigh.now (found_by search.now) }
    requires settled { (w : Weight) × IsSettled (found_by search.now) (State 0 state) w × (w.nodes < 4294967295) }
    ensures { IfOk result (IsTreeTo form.now weigh.now (found_by search.now) state) }
{
    let mut nodes = Items::new(alloc);
    let mut made = Stack::new(alloc);
    let mut tasks = Stack::new(alloc);
    tasks.push(Task::Visit { space: 0, state })?;
    loop {
        match tasks.pop() {
            None => return Ok(LabelTree::new(nodes)),
            Some(Task::Visit { space, state }) => {
                visit(
                    alloc, form, weigh, search, &mut tasks, &mut made, space, state,
                )?;
            }
            Some(Task::Join { tracks }) => {
                join(form, weigh, search, &mut nodes, &mut made, tracks)?;
            }
        }
    }
}
