//! The fault at the line behind lists that fail a check as a whole.

use cert_steps::{FaultKind, Stop};
use cert_text::Line;
use ws2s_core::Node;

/// The next of these nodes that has lines.
fn next_step(nodes: &[Node]) -> Option<Node> {
    for node in nodes {
        match node {
            Node::And(_, _) => return Some(*node),
            Node::Ex2(_, _) => return Some(*node),
            _ => {}
        }
    }
    None
}

/// Whether a line may begin what follows a step: the next step, or the end. `None` where it has another form; else whether the
/// part that it names is there.
fn begins(next: Option<Node>, count: usize, line: &Line) -> Option<bool> {
    match (line, next) {
        (Line::And(number), Some(Node::And(_, _))) => Some((*number as usize) < count),
        (Line::Ex(number), Some(Node::Ex2(_, _))) => Some((*number as usize) < count),
        (Line::End, None) => Some(true),
        (Line::Set(_), _) => Some(true),
        _ => None,
    }
}

/// The fault of lists that fail a check as a whole, at the first of the lines behind them, by the nodes behind theirs: what is wrong
/// with that line, and else the check.
pub(crate) fn fault_behind(nodes: &[Node], count: usize, lines: &[Line]) -> Stop {
    let Some(line) = lines.first() else {
        return Stop::Fault(0, FaultKind::Missing);
    };
    let kind = match begins(next_step(nodes), count, line) {
        None => FaultKind::Syntax,
        Some(false) => FaultKind::Unknown,
        Some(true) => FaultKind::Table,
    };
    Stop::Fault(lines.len(), kind)
}
