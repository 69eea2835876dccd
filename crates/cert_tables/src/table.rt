//! Automata as tables.

ghost use Rattle.std.specs.Prelude.{◌≡◌, Some, slice_get, unwrap_or};
ghost use Rattle.cert_tables.specs.Automata.{space_in, class_at, class_by, class_in, initial_in, cell_by, spot_in, accepts_in, accepts_signed};

use cert_nodes::Spot;
use cert_text::{NumberList, Target};
use plain_data::{Items, at};

/// A row of targets, one for each class of the right child space.
pub type TargetList = Items<Target>;

/// An automaton in one space.
#[derive(Debug, Drop)]
pub struct SpaceTable {
    /// How many states there are.
    pub states: u32,
    pub initial: u32,
    /// The class of each state of the left child space.
    pub lefts: NumberList,
    /// The class of each state of the right child space.
    pub rights: NumberList,
    /// For each class of the left child space a row.
    pub roots: Items<TargetList>,
}

/// An automaton: its spaces in order, and for each state of space 0 whether it accepts.
#[derive(Debug, Drop)]
pub struct Table {
    /// Whether its targets stand in the nodes of the atoms.
    pub in_atoms: bool,
    pub spaces: Items<SpaceTable>,
    pub accepting: Items<bool>,
}

/// The state that comes from no children. 0 where there is no such space. Takes no memory.
pub fn initial(table: &Table, space: u32) -> u32
    ensures { result ≡ initial_in table.now space }
{
    match table.spaces.get(space as usize) {
        Some(space) => space.initial,
        None => 0,
    }
}

/// The class of a state of a child space: of the right one, or of the left one. Takes no memory.
pub fn class(table: &Table, is_right: bool, space: u32, state: u32) -> u32
    ensures { result ≡ class_in table.now is_right space state }
{
    match table.spaces.get(space as usize) {
        Some(space) => class_of(space, is_right, state),
        None => 0,
    }
}

fn class_of(space: &SpaceTable, is_right: bool, state: u32) -> u32
    ensures { result ≡ class_by (Some space.now) is_right state }
{
    let lefts = class_at(space.lefts.as_slice(), state);
    let rights = class_at(space.rights.as_slice(), state);
    if is_right { rights } else { lefts }
}

/// The class of a state; one past the end has the last one's.
fn class_at(classes: &[u32], state: u32) -> u32
    ensures { result ≡ class_at classes.now state }
{
    let last = classes.len().saturating_sub(1);
    match at(classes, (state as usize).min(last)) {
        Some(class) => *class,
        None => 0,
    }
}

/// Where two classes lead to. Takes no memory.
pub fn spot(table: &Table, space: u32, left: u32, right: u32) -> Spot
    ensures { result ≡ spot_in table.now space left right }
{
    Spot {
        in_atoms: table.in_atoms,
        target: cell(table, space, left, right),
        fixed: None,
    }
}

fn cell(table: &Table, space: u32, left: u32, right: u32) -> Target
    ensures { result ≡ cell_by (space_in table.now space) left right }
{
    match table.spaces.get(space as usize) {
        Some(space) => match space.roots.get(left as usize) {
            Some(row) => target_at(row.as_slice(), right),
            None => Target::State(0),
        },
        None => Target::State(0),
    }
}

fn target_at(row: &[Target], right: u32) -> Target
    ensures { result ≡ unwrap_or (slice_get row.now right) (Target.State 0) }
{
    match at(row, right as usize) {
        Some(target) => *target,
        None => Target::State(0),
    }
}

/// Whether a state of space 0 accepts. Takes no memory.
pub fn accepts(table: &Table, state: u32) -> bool
    ensures { result ≡ accepts_in table.now state }
{
    match table.accepting.get(state as usize) {
        Some(accepts) => *accepts,
        None => false,
    }
}

/// Whether a state of space 0 accepts in the automaton, or in its complement.
pub(crate) fn accepts_signed(table: &Table, is_negated: bool, state: u32) -> bool
    ensures { result ≡ accepts_signed table.now is_negated state }
{
    let accepting = accepts(table, state);
    if is_negated { !accepting } else { accepting }
}
