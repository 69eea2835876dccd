//! What follows from a goal that is settled.

ghost use Rattle.std.specs.Prelude.{◌≡◌, ◌≤◌, ◌+◌, ◌⊎◌, IfOk, length, All, Contains};
ghost use Rattle.gta_witness.specs.declared.goal.Goal.TheVariants.{State, Node, Row, Column};
ghost use Rattle.gta_witness.specs.Rules.{bit_cost, key};
ghost use Rattle.gta_witness.specs.Searching.{found_by, weighs_in, IsSettled, IsSearch, GoesOn, AreListed, IsExpanded, list_at};
ghost use Rattle.gta_witness.specs.Following.{FollowsRow, FollowsColumn, FollowsState, FollowsCell, FollowsNode};

use crate::goal::{Goal, Reason, Weight, goal_of};
use crate::relax::{Search, relax};
use gta_reach::Form;
use plain_data::Items;
use std::alloc::AllocError;
use std::collections::HashSet;

/// The classes of each space that are settled.
#[derive(Drop)]
pub(crate) struct Lines {
    pub rows: Vec<Items<u32>>,
    pub columns: Vec<Items<u32>>,
}

/// From a state comes its class among the left states of a space.
fn expand_to_row(
    form: &Form,
    weighed: &HashSet<u32>,
    search: &mut Search,
    t: u32,
    space: u32,
    state: u32,
    weight: Weight,
) -> Result<(), AllocError>
    requires search { IsSearch form.now (weighs_in weighed.now) (key weight) search.old }
    requires settled { IsSettled (found_by search.old) (State space state) weight }
    ensures goes_on { IfOk result (λ done. GoesOn form.now (weighs_in weighed.now) (key weight) search.old search.new) }
    ensures row { IfOk result (λ done. FollowsRow form.now (found_by search.new) t space state weight) }
{
    let Some(part) = form.spaces.get(t as usize) else {
        return Ok(());
    };
    if part.children.0 != space {
        return Ok(());
    }
    let Some(class) = part.rows.get(state as usize) else {
        return Ok(());
    };
    let row = Goal::Row {
        space: t,
        class: *class,
    };
    relax(search, row, weight, Reason::Member { state })?;
    Ok(())
}

/// From a state comes its class among the right states of a space.
fn expand_to_column(
    form: &Form,
    weighed: &HashSet<u32>,
    search: &mut Search,
    t: u32,
    space: u32,
    state: u32,
    weight: Weight,
) -> Result<(), AllocError>
    requires search { IsSearch form.now (weighs_in weighed.now) (key weight) search.old }
    requires settled { IsSettled (found_by search.old) (State space state) weight }
    ensures goes_on { IfOk result (λ done. GoesOn form.now (weighs_in weighed.now) (key weight) search.old search.new) }
    ensures column { IfOk result (λ done. FollowsColumn form.now (found_by search.new) t space state weight) }
{
    let Some(part) = form.spaces.get(t as usize) else {
        return Ok(());
    };
    if part.children.1 != space {
        return Ok(());
    }
    let Some(class) = part.columns.get(state as usize) else {
        return Ok(());
    };
    let column = Goal::Column {
        space: t,
        class: *class,
    };
    relax(search, column, weight, Reason::Member { state })?;
    Ok(())
}

/// From a state come its classes.
fn expand_state(
    form: &Form,
    weighed: &HashSet<u32>,
    search: &mut Search,
    space: u32,
    state: u32,
    weight: Weight,
) -> Result<(), AllocError>
    requires search { IsSearch form.now (weighs_in weighed.now) (key weight) search.old }
    requires settled { IsSettled (found_by search.old) (State space state) weight }
    ensures goes_on { IfOk result (λ done. GoesOn form.now (weighs_in weighed.now) (key weight) search.old search.new) }
    ensures expanded { IfOk result (λ done. IsExpanded form.now (weighs_in weighed.now) (found_by search.new) (State space state)) }
{
    if form.spaces.len() > u32::MAX as usize {
        return Err(AllocError);
    }
    let many = form.spaces.len() as u32;
    for t in 0..many {
        expand_to_row(form, weighed, search, t, space, state, weight)?;
        expand_to_column(form, weighed, search, t, space, state, weight)?;
    }
    Ok(())
}

/// From two classes comes where their function begins.
fn expand_cell(
    form: &Form,
    weighed: &HashSet<u32>,
    search: &mut Search,
    space: u32,
    row: u32,
    column: u32,
    weight: Weight,
) -> Result<(), AllocError>
    requires search { IsSearch form.now (weighs_in weighed.now) (key weight) search.old }
    requires settled { IsSettled (found_by search.old) (Row space row) weight ⊎ IsSettled (found_by search.old) (Column space column) weight }
    ensures goes_on { IfOk result (λ done. GoesOn form.now (weighs_in weighed.now) (key weight) search.old search.new) }
    ensures cell { IfOk result (λ done. FollowsCell form.now (found_by search.new) space row column) }
{
    let Some(left) = search.settled(Goal::Row { space, class: row }) else {
        return Ok(());
    };
    let Some(right) = search.settled(Goal::Column {
        space,
        class: column,
    }) else {
        return Ok(());
    };
    let Some(part) = form.spaces.get(space as usize) else {
        return Ok(());
    };
    let Some(cell) = part
        .cells
        .get(row as usize * part.width as usize + column as usize)
    else {
        return Ok(());
    };
    let Some(listed) = part.listing.roots.get(*cell as usize) else {
        return Ok(());
    };
    let goal = goal_of(space, *listed);
    let sum = left.under_node(right);
    relax(search, goal, sum, Reason::Cell { row, column })?;
    Ok(())
}

/// From a class of left states come the functions with the classes of right ones.
fn expand_row(
    form: &Form,
    weighed: &HashSet<u32>,
    columns: &[u32],
    search: &mut Search,
    space: u32,
    row: u32,
    weight: Weight,
) -> Result<(), AllocError>
    requires search { IsSearch form.now (weighs_in weighed.now) (key weight) search.old }
    requires settled { IsSettled (found_by search.old) (Row space row) weight }
    ensures goes_on { IfOk result (λ done. GoesOn form.now (weighs_in weighed.now) (key weight) search.old search.new) }
    ensures cells { IfOk result (λ done. All (FollowsCell form.now (found_by search.new) space row) columns.now) }
{
    for column in columns {
        expand_cell(form, weighed, search, space, row, *column, weight)?;
    }
    Ok(())
}

/// From a class of right states come the functions with the classes of left ones.
fn expand_column(
    form: &Form,
    weighed: &HashSet<u32>,
    rows: &[u32],
    search: &mut Search,
    space: u32,
    column: u32,
    weight: Weight,
) -> Result<(), AllocError>
    requires search { IsSearch form.now (weighs_in weighed.now) (key weight) search.old }
    requires settled { IsSettled (found_by search.old) (Column space column) weight }
    ensures goes_on { IfOk result (λ done. GoesOn form.now (weighs_in weighed.now) (key weight) search.old search.new) }
    ensures cells { IfOk result (λ done. All (λ row. FollowsCell form.now (found_by search.new) space row column) rows.now) }
{
    for row in rows {
        expand_cell(form, weighed, search, space, *row, column, weight)?;
    }
    Ok(())
}

/// What a bit of the track costs.
#[inline]
fn cost(weighed: &HashSet<u32>, track: u32) -> u64
    ensures { result ≡ bit_cost (weighs_in weighed.now) track }
{
    if weighed.contains(&track) { 1 } else { 0 }
}

/// From a node come its sides.
fn expand_node(
    form: &Form,
    weighed: &HashSet<u32>,
    search: &mut Search,
    space: u32,
    index: u32,
    weight: Weight,
) -> Result<(), AllocError>
    requires search { IsSearch form.now (weighs_in weighed.now) (key weight) search.old }
    requires settled { IsSettled (found_by search.old) (Node space index) weight }
    ensures goes_on { IfOk result (λ done. GoesOn form.now (weighs_in weighed.now) (key weight) search.old search.new) }
    ensures node { IfOk result (λ done. FollowsNode form.now (weighs_in weighed.now) (found_by search.new) space index weight) }
{
    let Some(part) = form.spaces.get(space as usize) else {
        return Ok(());
    };
    let Some(node) = part.listing.nodes.get(index as usize) else {
        return Ok(());
    };
    let node = *node;
    let low = goal_of(space, node.low);
    let high = goal_of(space, node.high);
    let more = weight.with_bits(cost(weighed, node.track));
    relax(
        search,
        low,
        weight,
        Reason::Side {
            index,
            is_high: false,
        },
    )?;
    relax(
        search,
        high,
        more,
        Reason::Side {
            index,
            is_high: true,
        },
    )?;
    Ok(())
}

/// The list of a space.
fn line<'a>(lists: &'a [Items<u32>], space: u32) -> &'a [u32]
    ensures { result.now ≡ list_at lists.now space }
{
    match lists.get(space as usize) {
        Some(list) => list.as_slice(),
        None => &[],
    }
}

/// Gives a weight to all that follows from a goal that is settled.
pub(crate) fn expand(
    form: &Form,
    weighed: &HashSet<u32>,
    lines: &Lines,
    search: &mut Search,
    goal: Goal,
    weight: Weight,
) -> Result<(), AllocError>
    requires search { IsSearch form.now (weighs_in weighed.now) (key weight) search.old }
    requires settled { IsSettled (found_by search.old) goal weight }
    requires listed { AreListed (found_by search.old) lines.now.rows.items lines.now.columns.items }
    ensures goes_on { IfOk result (λ done. GoesOn form.now (weighs_in weighed.now) (key weight) search.old search.new) }
    ensures expanded { IfOk result (λ done. IsExpanded form.now (weighs_in weighed.now) (found_by search.new) goal) }
{
    match goal {
        Goal::State { space, state } => {
            expand_state(form, weighed, search, space, state, weight)?;
        }
        Goal::Row { space, class } => {
            let columns = line(lines.columns.as_slice(), space);
            expand_row(form, weighed, columns, search, space, class, weight)?;
        }
        Goal::Column { space, class } => {
            let rows = line(lines.rows.as_slice(), space);
            expand_column(form, weighed, rows, search, space, class, weight)?;
        }
        Goal::Node { space, index } => {
            expand_node(form, weighed, search, space, index, weight)?;
        }
    }
    Ok(())
}
