//! The steps on a formula's parts, one after the other.

ghost use Rattle.std.specs.Prelude.{◌≡◌, ◌∷◌, [], ◌++◌, ◌+◌, ◌<◌, ℕ, List, length, false, not, slice_get, Some, IfOk, OnOk};
ghost use Rattle.ws2s_core.specs.declared.node.Node.{Node};
ghost use Rattle.ws2s_core.specs.Nodes.{Extends, HasPartsBelow};
ghost use Rattle.cert_text.specs.declared.line.Line.{Line};
ghost use Rattle.cert_nodes.specs.Spots.{AreDrawn};
ghost use Rattle.cert_steps.specs.Places.{greatests_of};
ghost use Rattle.cert_check.specs.declared.board.Part.{Part};
ghost use Rattle.cert_check.specs.Boards.{AreInside};
ghost use Rattle.cert_check.specs.Standing.{IsAtomBase, IsConjunctionBase, IsQuantifiedBase, AddsBase, Stands};

use crate::board::{Base, Board, Part, automaton_of};
use crate::due::fault_behind;
use crate::firsts::{first_and, first_ex};
use crate::steps::{read_conjunction, read_quantified};
use cert_parts::atom_table;
use cert_steps::{Drawing, FaultKind, Stop, lines_from, wrong_form};
use cert_text::Line;
use std::alloc::{AllocError, Global};
use ws2s_core::{FormulaId, Guide, Node, Track};

/// Puts the automaton of a part behind the others.
fn push_base(board: &mut Board, base: Base) -> Result<(), AllocError>
    ensures bases { OnOk result (board.new.bases ≡ board.old.bases ++ base ∷ []) }
    ensures parts { OnOk result (board.new.parts ≡ board.old.parts ++ (record { base = length board.old.bases; is_negated = false }) ∷ []) }
{
    let place = board.bases.len();
    board.bases.push(base)?;
    board.parts.push(Part {
        base: place,
        is_negated: false,
    })?;
    Ok(())
}

/// Puts the complement of a part's automaton behind the others.
fn push_negation(board: &mut Board, inner: FormulaId) -> Result<(), AllocError>
    requires { inner.0 < length board.old.parts }
    ensures bases { OnOk result (board.new.bases ≡ board.old.bases) }
    ensures parts { OnOk result ((part : Part) → slice_get board.old.parts inner.0 ≡ Some part →
        board.new.parts ≡ board.old.parts ++ (record { base = part.base; is_negated = not part.is_negated }) ∷ []) }
{
    let part = board.parts.as_slice()[inner.0 as usize];
    board.parts.push(Part {
        base: part.base,
        is_negated: !part.is_negated,
    })
}

/// Puts the automaton of an atom behind the others.
fn add_atom(
    alloc: Global,
    g: &Guide,
    drawing: &mut Drawing,
    board: &mut Board,
    atom: Node,
) -> Result<(), AllocError>
    requires { AreDrawn drawing.old.nodes }
    ensures drawn { AreDrawn drawing.new.nodes }
    ensures told { drawing.new.nodes.told ≡ drawing.old.nodes.told }
    ensures greatest { drawing.new.greatest ≡ drawing.old.greatest }
    ensures atoms { OnOk result (Extends drawing.old.nodes.atoms drawing.new.nodes.atoms) }
    ensures added { OnOk result (AddsBase (IsAtomBase g.now drawing.new.nodes atom) board.old board.new) }
{
    let table = atom_table(alloc, g, &mut drawing.nodes.atoms, atom)?;
    push_base(
        board,
        Base {
            table,
            never_accepts: false,
            never_rejects: false,
        },
    )
}

/// What follows the first line of the step on a conjunction.
fn and_line(number: usize, count: usize, lines: &[Line]) -> Result<&[Line], Stop>
    ensures { IfOk result (λ rest. lines.now ≡ Line.And number ∷ rest.now) }
{
    let Some((named, rest)) = first_and(lines) else {
        return Err(wrong_form(lines));
    };
    named_part(number, count, named as usize, lines.len())?;
    Ok(rest)
}

/// What follows the first line of the step on a quantified formula.
fn ex_line(number: usize, count: usize, lines: &[Line]) -> Result<&[Line], Stop>
    ensures { IfOk result (λ rest. lines.now ≡ Line.Ex number ∷ rest.now) }
{
    let Some((named, rest)) = first_ex(lines) else {
        return Err(wrong_form(lines));
    };
    named_part(number, count, named as usize, lines.len())?;
    Ok(rest)
}

/// Whether a line names the part that is due, where so many lines are left.
fn named_part(number: usize, count: usize, named: usize, left: usize) -> Result<(), Stop>
    ensures { OnOk result (named ≡ number) }
{
    if named == number {
        Ok(())
    } else if named < count {
        Err(Stop::Fault(left, FaultKind::Table))
    } else {
        Err(Stop::Fault(left, FaultKind::Unknown))
    }
}

/// The step on a conjunction of two parts, and what follows its lines.
fn add_conjunction<'a>(
    alloc: Global,
    g: &Guide,
    drawing: &mut Drawing,
    board: &mut Board,
    first: FormulaId,
    second: FormulaId,
    lines: &'a [Line],
) -> Result<&'a [Line], Stop>
    requires drawn { AreDrawn drawing.old.nodes }
    requires known { drawing.old.greatest ≡ greatests_of drawing.old.nodes.told }
    requires inside { AreInside board.old.bases board.old.parts }
    requires first { first.0 < length board.old.parts }
    requires second { second.0 < length board.old.parts }
    ensures drawn { OnOk result (AreDrawn drawing.new.nodes) }
    ensures known { OnOk result (drawing.new.greatest ≡ greatests_of drawing.new.nodes.told) }
    ensures atoms { OnOk result (drawing.new.nodes.atoms ≡ drawing.old.nodes.atoms) }
    ensures added { IfOk result (λ rest. AddsBase (IsConjunctionBase g.now drawing.old.nodes.told drawing.new.nodes board.old first.0 second.0
        lines.now rest.now) board.old board.new) }
{
    let bases = board.bases.as_slice();
    let parts = board.parts.as_slice();
    let (a, a_negated) = automaton_of(bases, parts, first);
    let (b, b_negated) = automaton_of(bases, parts, second);
    let (base, rest) = read_conjunction(alloc, g, drawing, a, a_negated, b, b_negated, lines)?;
    push_base(board, base)?;
    Ok(rest)
}

/// The step on a quantified part, and what follows its lines.
fn add_quantified<'a>(
    alloc: Global,
    g: &Guide,
    drawing: &mut Drawing,
    board: &mut Board,
    track: Track,
    inner: FormulaId,
    lines: &'a [Line],
) -> Result<&'a [Line], Stop>
    requires drawn { AreDrawn drawing.old.nodes }
    requires known { drawing.old.greatest ≡ greatests_of drawing.old.nodes.told }
    requires inside { AreInside board.old.bases board.old.parts }
    requires inner { inner.0 < length board.old.parts }
    ensures drawn { OnOk result (AreDrawn drawing.new.nodes) }
    ensures known { OnOk result (drawing.new.greatest ≡ greatests_of drawing.new.nodes.told) }
    ensures atoms { OnOk result (drawing.new.nodes.atoms ≡ drawing.old.nodes.atoms) }
    ensures added { IfOk result (λ rest. AddsBase (IsQuantifiedBase g.now drawing.old.nodes.told drawing.new.nodes board.old track.0 inner.0
        lines.now rest.now) board.old board.new) }
{
    let (a, a_negated) = automaton_of(board.bases.as_slice(), board.parts.as_slice(), inner);
    let (base, rest) = read_quantified(alloc, g, drawing, a, a_negated, track.0, lines)?;
    push_base(board, base)?;
    Ok(rest)
}

/// The step on the part with a number, of so many, and what follows its lines.
fn check_node<'a>(
    alloc: Global,
    g: &Guide,
    drawing: &mut Drawing,
    board: &mut Board,
    count: usize,
    number: usize,
    node: Node,
    lines: &'a [Line],
) -> Result<&'a [Line], Stop>
    requires drawn { AreDrawn drawing.old.nodes }
    requires known { drawing.old.greatest ≡ greatests_of drawing.old.nodes.told }
    requires inside { AreInside board.old.bases board.old.parts }
    requires many { length board.old.parts ≡ number }
    requires below { HasPartsBelow number node }
    ensures drawn { OnOk result (AreDrawn drawing.new.nodes) }
    ensures known { OnOk result (drawing.new.greatest ≡ greatests_of drawing.new.nodes.told) }
    ensures inside { OnOk result (AreInside board.new.bases board.new.parts) }
    ensures stands { IfOk result (λ rest. (nodes : List Node) (body : List Line) → slice_get nodes number ≡ Some node →
        Stands g.now nodes drawing.old.nodes board.old number body lines.now →
        Stands g.now nodes drawing.new.nodes board.new (number + 1) body rest.now) }
{
    match node {
        Node::And(first, second) => {
            let left = and_line(number, count, lines)?;
            let rest = add_conjunction(alloc, g, drawing, board, first, second, left)?;
            Ok(rest)
        }
        Node::Ex2(track, inner) => {
            let left = ex_line(number, count, lines)?;
            let rest = add_quantified(alloc, g, drawing, board, track, inner, left)?;
            Ok(rest)
        }
        Node::Not(inner) => {
            push_negation(board, inner)?;
            Ok(lines)
        }
        _ => {
            add_atom(alloc, g, drawing, board, node)?;
            Ok(lines)
        }
    }
}

/// The steps on all parts in order, and what follows their lines.
pub(crate) fn check_nodes<'a>(
    alloc: Global,
    g: &Guide,
    nodes: &[Node],
    drawing: &mut Drawing,
    board: &mut Board,
    lines: &'a [Line],
) -> Result<&'a [Line], Stop>
    requires drawn { AreDrawn drawing.old.nodes }
    requires known { drawing.old.greatest ≡ greatests_of drawing.old.nodes.told }
    requires inside { AreInside board.old.bases board.old.parts }
    requires earlier { (k : ℕ) (node : Node) → slice_get nodes.now k ≡ Some node → HasPartsBelow k node }
    requires starts { Stands g.now nodes.now drawing.old.nodes board.old 0 lines.now lines.now }
    ensures drawn { OnOk result (AreDrawn drawing.new.nodes) }
    ensures stands { IfOk result (λ rest. Stands g.now nodes.now drawing.new.nodes board.new (length nodes.now) lines.now rest.now) }
{
    let mut left = lines;
    for (number, node) in nodes.iter().enumerate() {
        match check_node(alloc, g, drawing, board, nodes.len(), number, *node, left) {
            Ok(rest) => left = rest,
            Err(stop) => return Err(located(nodes, number, lines, stop)),
        }
    }
    Ok(left)
}

/// Why lines are read no further, where lists that fail a check as a whole are those of the part with a number.
fn located(nodes: &[Node], number: usize, lines: &[Line], stop: Stop) -> Stop {
    match stop {
        Stop::Open(left) => {
            let behind = lines_from(lines, lines.len().saturating_sub(left));
            let (_, later) = nodes.split_at(number.saturating_add(1).min(nodes.len()));
            fault_behind(later, nodes.len(), behind)
        }
        other => other,
    }
}
