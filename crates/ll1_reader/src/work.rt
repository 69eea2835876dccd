//! What is still to be read, and what happened so far.

ghost use Rattle.std.specs.Prelude.{◌≡◌, [], ◌∷◌, ◌++◌, IfOk, OnOk};
ghost use Rattle.ll1_reader.specs.declared.symbol.Event.TheVariants as event;
ghost use Rattle.ll1_reader.specs.Readings.{Row, Bottom};
ghost use Rattle.ll1_reader.specs.Frames.{stack_of};

use crate::symbol::{Event, Symbol};
use plain_data::Items;
use std::alloc::{AllocError, Global};

/// The rest of a row, and how many levels are open there.
#[derive(Drop)]
pub(crate) struct Frame<'a, N, A, K> {
    pub(crate) rest: &'a [Symbol<N, A, K>],
    pub(crate) depth: u32,
}

/// A reading under way: the rows that are still to be read, the last one first, and what happened so far.
#[derive(Drop)]
pub(crate) struct Work<'a, N, A, K> {
    pub(crate) frames: Vec<Frame<'a, N, A, K>>,
    pub(crate) events: Items<Event<A>>,
}

/// A reading of this row, of which nothing is read.
pub(crate) fn begin<'a, N: Copy, A: Copy, K: Copy>(
    alloc: Global,
    text: &'a [Symbol<N, A, K>],
) -> Result<Work<'a, N, A, K>, AllocError>
    ensures stack { IfOk result (λ work. stack_of work ≡ Row text.now 0 Bottom) }
    ensures events { IfOk result (λ work. work.events ≡ []) }
{
    let mut work = Work {
        frames: Vec::new(alloc),
        events: Items::new(alloc),
    };
    push_row(&mut work, text, 0)?;
    Ok(work)
}

/// Puts a row on top.
pub(crate) fn push_row<'a, N: Copy, A: Copy, K: Copy>(
    work: &mut Work<'a, N, A, K>,
    rest: &'a [Symbol<N, A, K>],
    depth: u32,
) -> Result<(), AllocError>
    ensures stack { OnOk result (stack_of work.new ≡ Row rest.now depth (stack_of work.old)) }
    ensures events { OnOk result (work.new.events ≡ work.old.events) }
{
    work.frames.push(Frame { rest, depth })?;
    Ok(())
}

/// Puts two rows on top, this one above that one.
pub(crate) fn push_rows<'a, N: Copy, A: Copy, K: Copy>(
    work: &mut Work<'a, N, A, K>,
    below: &'a [Symbol<N, A, K>],
    above: &'a [Symbol<N, A, K>],
    depth: u32,
) -> Result<(), AllocError>
    ensures stack { OnOk result (stack_of work.new ≡ Row above.now depth (Row below.now depth (stack_of work.old))) }
    ensures events { OnOk result (work.new.events ≡ work.old.events) }
{
    push_row(work, below, depth)?;
    push_row(work, above, depth)
}

/// Puts a row on top, before which an act was done.
pub(crate) fn push_done<'a, N: Copy, A: Copy, K: Copy>(
    work: &mut Work<'a, N, A, K>,
    act: A,
    rest: &'a [Symbol<N, A, K>],
    depth: u32,
) -> Result<(), AllocError>
    ensures stack { OnOk result (stack_of work.new ≡ Row rest.now depth (stack_of work.old)) }
    ensures events { OnOk result (work.new.events ≡ work.old.events ++ event.Act act ∷ []) }
{
    work.events.push(Event::Act(act))?;
    push_row(work, rest, depth)
}
