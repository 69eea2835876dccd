//! Rows of roots, and the rows of all spaces.

ghost use Rattle.std.specs.Prelude.{◌≡◌, ◌<◌, length, map, IfOk, OnOk};
ghost use Rattle.cert_nodes.specs.Spots.{AreDrawn};
ghost use Rattle.cert_steps.specs.Places.{greatests_of};
ghost use Rattle.cert_steps.specs.Reading.{ReadsRoots, ReadsRows, ReadsSpace, ReadsSpaces};

use crate::classes::count_of;
use crate::drawing::Drawing;
use crate::fault::Stop;
use crate::roots::{RootPlace, read_root};
use cert_tables::{SpaceTable, TargetList};
use cert_text::{ClassLine, Line, SpaceLine};
use plain_data::Items;
use std::alloc::{AllocError, Global};

/// The targets of a row, a root for each class on the right, and what follows it.
fn read_row<'a>(
    alloc: Global,
    drawing: &mut Drawing,
    lefts: &[&ClassLine],
    rights: &[&ClassLine],
    place: RootPlace,
    count: usize,
    lines: &'a [Line],
) -> Result<(TargetList, &'a [Line]), Stop>
    requires drawn { AreDrawn drawing.old.nodes }
    requires known { drawing.old.greatest ≡ greatests_of drawing.old.nodes.told }
    ensures drawn { OnOk result (AreDrawn drawing.new.nodes) }
    ensures known { OnOk result (drawing.new.greatest ≡ greatests_of drawing.new.nodes.told) }
    ensures atoms { OnOk result (drawing.new.nodes.atoms ≡ drawing.old.nodes.atoms) }
    ensures found { IfOk result (λ cut. ReadsRoots drawing.old.nodes.told drawing.new.nodes.told place.states place.space place.left
        count lines.now cut.0 cut.1.now) }
{
    let mut targets = Items::new(alloc);
    let mut left = lines;
    for right in 0..count {
        let (target, rest) = read_root(drawing, lefts, rights, RootPlace { right, ..place }, left)?;
        targets.push(target)?;
        left = rest;
    }
    Ok((targets, left))
}

/// The rows of a space, a row for each class on the left, and what follows them.
fn read_rows<'a>(
    alloc: Global,
    drawing: &mut Drawing,
    lefts: &[&ClassLine],
    rights: &[&ClassLine],
    place: RootPlace,
    lines: &'a [Line],
) -> Result<(Items<TargetList>, &'a [Line]), Stop>
    requires drawn { AreDrawn drawing.old.nodes }
    requires known { drawing.old.greatest ≡ greatests_of drawing.old.nodes.told }
    ensures drawn { OnOk result (AreDrawn drawing.new.nodes) }
    ensures known { OnOk result (drawing.new.greatest ≡ greatests_of drawing.new.nodes.told) }
    ensures atoms { OnOk result (drawing.new.nodes.atoms ≡ drawing.old.nodes.atoms) }
    ensures found { IfOk result (λ cut. ReadsRows drawing.old.nodes.told drawing.new.nodes.told place.states place.space place.left place.right
        lines.now cut.0 cut.1.now) }
{
    let mut rows = Items::new(alloc);
    let mut left = lines;
    for class in 0..place.left {
        let row = RootPlace {
            left: class,
            ..place
        };
        let (targets, rest) = read_row(alloc, drawing, lefts, rights, row, place.right, left)?;
        rows.push(targets)?;
        left = rest;
    }
    Ok((rows, left))
}

/// The table of a space, and what follows its rows.
fn read_space<'a>(
    alloc: Global,
    drawing: &mut Drawing,
    spaces: &[SpaceLine],
    lefts: &[&ClassLine],
    rights: &[&ClassLine],
    space: usize,
    lines: &'a [Line],
) -> Result<(SpaceTable, &'a [Line]), Stop>
    requires drawn { AreDrawn drawing.old.nodes }
    requires known { drawing.old.greatest ≡ greatests_of drawing.old.nodes.told }
    requires in_spaces { space < length spaces.now }
    requires in_lefts { space < length lefts.now }
    requires in_rights { space < length rights.now }
    ensures drawn { OnOk result (AreDrawn drawing.new.nodes) }
    ensures known { OnOk result (drawing.new.greatest ≡ greatests_of drawing.new.nodes.told) }
    ensures atoms { OnOk result (drawing.new.nodes.atoms ≡ drawing.old.nodes.atoms) }
    ensures found { IfOk result (λ cut. ReadsSpace drawing.old.nodes.told drawing.new.nodes.told spaces.now (map (λ l. l.now) lefts.now)
        (map (λ l. l.now) rights.now) space lines.now cut.0 cut.1.now) }
{
    let line = spaces[space];
    let left = lefts[space].classes.as_slice();
    let right = rights[space].classes.as_slice();
    let place = RootPlace {
        states: line.states,
        space: line.space,
        left: count_of(left),
        right: count_of(right),
    };
    let (roots, rest) = read_rows(alloc, drawing, lefts, rights, place, lines)?;
    let table = SpaceTable {
        states: line.states,
        initial: line.initial,
        lefts: Items::from_slice(alloc, left)?,
        rights: Items::from_slice(alloc, right)?,
        roots,
    };
    Ok((table, rest))
}

/// The tables of all spaces in order, and what follows their rows.
pub(crate) fn read_roots<'a>(
    alloc: Global,
    drawing: &mut Drawing,
    spaces: &[SpaceLine],
    lefts: &[&ClassLine],
    rights: &[&ClassLine],
    lines: &'a [Line],
) -> Result<(Items<SpaceTable>, &'a [Line]), Stop>
    requires drawn { AreDrawn drawing.old.nodes }
    requires known { drawing.old.greatest ≡ greatests_of drawing.old.nodes.told }
    requires as_lefts { length spaces.now ≡ length lefts.now }
    requires as_rights { length spaces.now ≡ length rights.now }
    ensures drawn { OnOk result (AreDrawn drawing.new.nodes) }
    ensures known { OnOk result (drawing.new.greatest ≡ greatests_of drawing.new.nodes.told) }
    ensures atoms { OnOk result (drawing.new.nodes.atoms ≡ drawing.old.nodes.atoms) }
    ensures found { IfOk result (λ cut. ReadsSpaces drawing.old.nodes.told drawing.new.nodes.told spaces.now (map (λ l. l.now) lefts.now)
        (map (λ l. l.now) rights.now) (length spaces.now) lines.now cut.0 cut.1.now) }
{
    let mut tables = Items::new(alloc);
    let mut left = lines;
    for space in 0..spaces.len() {
        let (table, rest) = read_space(alloc, drawing, spaces, lefts, rights, space, left)?;
        tables.push(table)?;
        left = rest;
    }
    Ok((tables, left))
}
