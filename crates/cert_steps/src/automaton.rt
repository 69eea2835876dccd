//! The automaton of a step.

ghost use Rattle.std.specs.Prelude.{◌≡◌, ◌++◌, length, map, IfOk, OnOk};
ghost use Rattle.cert_nodes.specs.Spots.{AreDrawn};
ghost use Rattle.cert_steps.specs.Places.{greatests_of};
ghost use Rattle.cert_steps.specs.Reading.{ReadsAutomaton, ReadsHeads, ReadsTables};

use crate::accepting::read_accepting;
use crate::classes::{read_classes, states_in};
use crate::drawing::Drawing;
use crate::fault::Stop;
use crate::rows::read_roots;
use crate::spaces::read_spaces;
use cert_tables::{SpaceTable, Table};
use cert_text::{ClassLine, Line, SpaceLine};
use plain_data::Items;
use std::alloc::{AllocError, Global};
use ws2s_core::Guide;

/// The states and the classes of all spaces.
#[derive(Drop)]
struct Heads<'a> {
    spaces: Items<SpaceLine>,
    lefts: Vec<&'a ClassLine>,
    rights: Vec<&'a ClassLine>,
}

/// The states and the classes of all spaces, and what follows their lines.
fn read_heads<'a>(
    alloc: Global,
    g: &Guide,
    lines: &'a [Line],
) -> Result<(Heads<'a>, &'a [Line]), Stop>
    ensures { IfOk result (λ cut. ReadsHeads g.now lines.now cut.0.spaces (map (λ l. l.now) cut.0.lefts.items)
        (map (λ l. l.now) cut.0.rights.items) cut.1.now) }
{
    let (spaces, left) = read_spaces(alloc, g.spaces(), lines)?;
    let (lefts, left) = read_classes(alloc, g, false, spaces.as_slice(), left)?;
    let (rights, left) = read_classes(alloc, g, true, spaces.as_slice(), left)?;
    Ok((
        Heads {
            spaces,
            lefts,
            rights,
        },
        left,
    ))
}

/// The tables of all spaces, how many states space 0 has, and what follows their lines.
fn read_tables<'a>(
    alloc: Global,
    g: &Guide,
    drawing: &mut Drawing,
    lines: &'a [Line],
) -> Result<(Items<SpaceTable>, u32, &'a [Line]), Stop>
    requires drawn { AreDrawn drawing.old.nodes }
    requires known { drawing.old.greatest ≡ greatests_of drawing.old.nodes.told }
    ensures drawn { OnOk result (AreDrawn drawing.new.nodes) }
    ensures known { OnOk result (drawing.new.greatest ≡ greatests_of drawing.new.nodes.told) }
    ensures atoms { OnOk result (drawing.new.nodes.atoms ≡ drawing.old.nodes.atoms) }
    ensures found { IfOk result (λ cut. ReadsTables g.now drawing.old.nodes.told drawing.new.nodes.told lines.now cut.0 cut.1 cut.2.now) }
{
    let (heads, left) = read_heads(alloc, g, lines)?;
    let (tables, rest) = read_roots(
        alloc,
        drawing,
        heads.spaces.as_slice(),
        heads.lefts.as_slice(),
        heads.rights.as_slice(),
        left,
    )?;
    Ok((tables, states_in(heads.spaces.as_slice(), 0), rest))
}

/// The table of a step's automaton, its nodes drawn, and what follows its lines.
///
/// # Errors
///
/// The first line that is wrong in its place; want of memory.
pub fn read_automaton<'a>(
    alloc: Global,
    g: &Guide,
    drawing: &mut Drawing,
    lines: &'a [Line],
) -> Result<(Table, &'a [Line]), Stop>
    requires drawn { AreDrawn drawing.old.nodes }
    requires known { drawing.old.greatest ≡ greatests_of drawing.old.nodes.told }
    ensures drawn { OnOk result (AreDrawn drawing.new.nodes) }
    ensures known { OnOk result (drawing.new.greatest ≡ greatests_of drawing.new.nodes.told) }
    ensures atoms { OnOk result (drawing.new.nodes.atoms ≡ drawing.old.nodes.atoms) }
    ensures found { IfOk result (λ cut. ReadsAutomaton g.now drawing.old.nodes.told drawing.new.nodes lines.now cut.0 cut.1.now) }
{
    let (spaces, states, left) = read_tables(alloc, g, drawing, lines)?;
    let (accepting, rest) = read_accepting(alloc, states, left)?;
    let table = Table {
        in_atoms: false,
        spaces,
        accepting,
    };
    Ok((table, rest))
}
