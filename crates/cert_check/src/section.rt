//! Sections of certificates.

ghost use Rattle.std.specs.Prelude.{◌≡◌, ◌∷◌, [], length, IsTrue, IfErr, IfOk, OnOk};
ghost use Rattle.gta_theory.specs.Assignments.{Assignment, IsFinite};
ghost use Rattle.ws2s_core.specs.Satisfaction.{WSat};
ghost use Rattle.cert_nodes.specs.Spots.{AreDrawn};
ghost use Rattle.cert_check.specs.Told.{ShowsNone};
ghost use Rattle.cert_check.specs.Ending.{IsHead, IsEmpty, IsWithin};

use crate::board::Board;
use crate::firsts::{first_end, first_section};
use crate::nodes::check_nodes;
use crate::numbering::nodes_of;
use cert_steps::{Drawing, FaultKind, Stop, wrong_form};
use cert_text::Line;
use plain_data::Items;
use std::alloc::{AllocError, Global};
use ws2s_core::{Formula, Guide};

/// The first line of a section that is wrong, counted from 1, and what is wrong with it.
#[derive(Clone, Copy, Debug, PartialEq, Eq)]
pub struct CertFault {
    pub line: usize,
    pub kind: FaultKind,
}

/// Why lines aren't a section.
#[derive(Clone, Copy, Debug, PartialEq, Eq)]
pub enum SectionStop {
    /// The first line that is wrong; it is one past the last where one is missing.
    Refused(CertFault),
    /// Memory ran out, which says nothing of the lines.
    NoMemory,
}

/// What follows the first line of a section, on a formula with so many parts.
fn read_head(parts: usize, lines: &[Line]) -> Result<&[Line], Stop>
    ensures { IfOk result (λ rest. IsHead parts lines.now rest.now) }
{
    let Some((head, rest)) = first_section(lines) else {
        return Err(wrong_form(lines));
    };
    if head.parts as usize == parts {
        Ok(rest)
    } else {
        Err(Stop::Fault(lines.len(), FaultKind::Formula))
    }
}

/// Whether the last part reaches no accepting state.
fn is_empty(board: &Board) -> bool
    ensures { IsTrue result → IsEmpty board.now }
{
    let Some(part) = board.parts.as_slice().last() else {
        return false;
    };
    let Some(base) = board.bases.get(part.base) else {
        return false;
    };
    if part.is_negated {
        base.never_rejects
    } else {
        base.never_accepts
    }
}

/// The end of a section, behind all of its steps.
fn read_end(board: &Board, lines: &[Line]) -> Result<(), Stop>
    ensures lines { OnOk result (lines.now ≡ Line.End ∷ []) }
    ensures empty { OnOk result (IsEmpty board.now) }
{
    let Some(rest) = first_end(lines) else {
        return Err(wrong_form(lines));
    };
    if !is_empty(board) {
        return Err(Stop::Fault(lines.len(), FaultKind::NotEmpty));
    }
    if !rest.is_empty() {
        return Err(Stop::Fault(rest.len(), FaultKind::Syntax));
    }
    Ok(())
}

/// A board without parts. Takes no memory.
fn new_board(alloc: Global) -> Board
    ensures bases { result.bases ≡ [] }
    ensures parts { result.parts ≡ [] }
{
    Board {
        bases: Items::new(alloc),
        parts: Items::new(alloc),
    }
}

/// Reads a section of a formula.
fn read_section(alloc: Global, f: &Formula, g: &Guide, lines: &[Line]) -> Result<(), Stop>
    ensures { OnOk result (ShowsNone g.now f.now lines.now) }
{
    let nodes = nodes_of(alloc, f)?;
    let body = read_head(nodes.len(), lines)?;
    let mut drawing = Drawing::new(alloc);
    let mut board = new_board(alloc);
    let rest = check_nodes(alloc, g, nodes.as_slice(), &mut drawing, &mut board, body)?;
    read_end(&board, rest)
}

/// Whether lines are a section that shows that a formula has no satisfying assignment.
///
/// Takes time for each two classes that occur in a space, and for each list of places on the way down from them.
///
/// # Errors
///
/// The first line that is wrong, with its kind; want of memory.
pub fn check_section(
    alloc: Global,
    f: &Formula,
    g: &Guide,
    lines: &[Line],
) -> Result<(), SectionStop>
    ensures shows { OnOk result (ShowsNone g.now f.now lines.now) }
    ensures fault { IfErr result (IsWithin (length lines.now)) }
    ensures none { OnOk result ((a : Assignment) → IsFinite a → ¬ WSat f.now a) }
{
    let _spaces = g.spaces();
    match read_section(alloc, f, g, lines) {
        Ok(()) => Ok(()),
        Err(stop) => Err(section_stop(lines.len(), stop)),
    }
}

/// Why so many lines aren't a section.
fn section_stop(lines: usize, stop: Stop) -> SectionStop
    ensures { IsWithin lines result }
{
    match stop {
        Stop::Fault(left, kind) => refused(lines, left, kind),
        Stop::Open(left) => refused(lines, left, FaultKind::Table),
        Stop::NoMemory => SectionStop::NoMemory,
    }
}

/// A fault of the line at which so many of all lines are left.
fn refused(lines: usize, left: usize, kind: FaultKind) -> SectionStop
    ensures { IsWithin lines result }
{
    SectionStop::Refused(CertFault {
        line: lines.saturating_sub(left).saturating_add(1),
        kind,
    })
}
