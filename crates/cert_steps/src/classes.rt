//! The lines of the classes of child spaces' states.

ghost use Rattle.std.specs.Prelude.{◌≡◌, ◌↔◌, ◌∷◌, [], ◌++◌, ◌+◌, max, length, map, IfOk, OnOk, IsTrue, MatchOption};
ghost use Rattle.cert_steps.specs.Places.{states_in, class_count, AreClassesFrom, IsClassLine, AreClassLines};
ghost use Rattle.cert_steps.specs.Sides.{side_line, child_of};

use crate::fault::{FaultKind, Stop, wrong_form};
use crate::firsts::first_classes;
use cert_text::{ClassLine, Line, SpaceLine};
use plain_data::at;
use std::alloc::{AllocError, Global};
use ws2s_core::Guide;

/// How many classes there are with one more.
fn count_with(count: usize, class: u32) -> usize
    ensures { result ≡ max count (class + 1) }
{
    count.max(class as usize + 1)
}

/// How many classes there are.
pub(crate) fn count_of(classes: &[u32]) -> usize
    ensures { result ≡ class_count classes.now }
{
    let mut count = 0;
    for class in classes {
        count = count_with(count, *class);
    }
    count
}

/// Whether classes are counted from 0: each is one that there is, or the next one.
fn are_counted(classes: &[u32]) -> bool
    ensures { IsTrue result ↔ AreClassesFrom 0 classes.now }
{
    let mut count = 0;
    for class in classes {
        if *class as usize > count {
            return false;
        }
        count = count_with(count, *class);
    }
    true
}

/// How many states a space has. 0 for another space.
pub(crate) fn states_in(spaces: &[SpaceLine], space: u32) -> u32
    ensures { result ≡ states_in spaces.now space }
{
    match at(spaces, space as usize) {
        Some(line) => line.states,
        None => 0,
    }
}

/// What is wrong with the line of a space's classes.
fn class_fault(spaces: &[SpaceLine], space: u32, child: u32, line: &ClassLine) -> Option<FaultKind>
    ensures { MatchOption result (IsClassLine spaces.now space child line.now) (λ kind. ¬ IsClassLine spaces.now space child line.now) }
{
    let is_long = line.classes.len() == states_in(spaces, child) as usize;
    if line.space == space && is_long && are_counted(line.classes.as_slice()) {
        None
    } else if (line.space as usize) < spaces.len() {
        Some(FaultKind::Table)
    } else {
        Some(FaultKind::Unknown)
    }
}

/// The line of a space's classes on one side, and what follows it.
fn class_line<'a>(
    is_right: bool,
    spaces: &[SpaceLine],
    space: u32,
    child: u32,
    lines: &'a [Line],
) -> Result<(&'a ClassLine, &'a [Line]), Stop>
    ensures { IfOk result (λ cut. (lines.now ≡ side_line is_right cut.0.now ∷ cut.1.now) × IsClassLine spaces.now space child cut.0.now) }
{
    let Some((line, rest)) = first_classes(is_right, lines) else {
        return Err(wrong_form(lines));
    };
    match class_fault(spaces, space, child, line) {
        None => Ok((line, rest)),
        Some(kind) => Err(Stop::Fault(lines.len(), kind)),
    }
}

/// Puts a line behind others.
fn push_line<'a>(lines: &mut Vec<&'a ClassLine>, line: &'a ClassLine) -> Result<(), AllocError>
    ensures { OnOk result (map (λ l. l.now) lines.new.items ≡ map (λ l. l.now) lines.old.items ++ line.now ∷ []) }
{
    lines.push(line)?;
    Ok(())
}

/// The child space of a space on one side. 0 for another space.
fn child_of(g: &Guide, is_right: bool, space: u32) -> u32
    ensures { result ≡ child_of g.now is_right space }
{
    let (left, right) = g.children(space).unwrap_or((0, 0));
    if is_right { right } else { left }
}

/// The lines of the spaces' classes on one side, one a space in order, and what follows them.
pub(crate) fn read_classes<'a>(
    alloc: Global,
    g: &Guide,
    is_right: bool,
    spaces: &[SpaceLine],
    lines: &'a [Line],
) -> Result<(Vec<&'a ClassLine>, &'a [Line]), Stop>
    ensures { IfOk result (λ cut. (lines.now ≡ map (side_line is_right) (map (λ l. l.now) cut.0.items) ++ cut.1.now)
        × AreClassLines spaces.now (child_of g.now is_right) (length g.now) (map (λ l. l.now) cut.0.items)) }
{
    let mut read = Vec::new(alloc);
    let mut left = lines;
    for space in 0..g.spaces() {
        let child = child_of(g, is_right, space);
        let (line, rest) = class_line(is_right, spaces, space, child, left)?;
        push_line(&mut read, line)?;
        left = rest;
    }
    Ok((read, left))
}
