//! The first of some lines, where it has a form.

ghost use Rattle.std.specs.Prelude.{◌≡◌, ◌∷◌, MatchOption};
ghost use Rattle.cert_steps.specs.Sides.{side_line};

use cert_text::{ClassLine, Line, NodeLine, NumberList, RootLine, SpaceLine};

/// The line of a space's states that stands first, and what follows it.
pub(crate) fn first_space(lines: &[Line]) -> Option<(SpaceLine, &[Line])>
    ensures { MatchOption result (Unit {0}) (λ cut. lines.now ≡ Line.Space cut.0 ∷ cut.1.now) }
{
    let (first, rest) = lines.split_first()?;
    match first {
        Line::Space(line) => Some((*line, rest)),
        _ => None,
    }
}

/// The line of a node that stands first, and what follows it.
pub(crate) fn first_node(lines: &[Line]) -> Option<(NodeLine, &[Line])>
    ensures { MatchOption result (Unit {0}) (λ cut. lines.now ≡ Line.Node cut.0 ∷ cut.1.now) }
{
    let (first, rest) = lines.split_first()?;
    match first {
        Line::Node(line) => Some((*line, rest)),
        _ => None,
    }
}

/// The line of a root that stands first, and what follows it.
pub(crate) fn first_root(lines: &[Line]) -> Option<(RootLine, &[Line])>
    ensures { MatchOption result (Unit {0}) (λ cut. lines.now ≡ Line.Root cut.0 ∷ cut.1.now) }
{
    let (first, rest) = lines.split_first()?;
    match first {
        Line::Root(line) => Some((*line, rest)),
        _ => None,
    }
}

/// The line of accepting states that stands first, and what follows it.
pub(crate) fn first_accepting(lines: &[Line]) -> Option<(&NumberList, &[Line])>
    ensures { MatchOption result (Unit {0}) (λ cut. lines.now ≡ Line.Accept cut.0.now ∷ cut.1.now) }
{
    let (first, rest) = lines.split_first()?;
    match first {
        Line::Accept(line) => Some((line, rest)),
        _ => None,
    }
}

/// The line of classes on one side that stands first, and what follows it.
pub(crate) fn first_classes(is_right: bool, lines: &[Line]) -> Option<(&ClassLine, &[Line])>
    ensures { MatchOption result (Unit {0}) (λ cut. lines.now ≡ side_line is_right cut.0.now ∷ cut.1.now) }
{
    let (first, rest) = lines.split_first()?;
    match first {
        Line::Left(line) => { if is_right { None } else { Some((line, rest)) } }
        Line::Right(line) => { if is_right { Some((line, rest)) } else { None } }
        _ => None,
    }
}
