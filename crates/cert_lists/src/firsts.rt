//! The first of some lines, where it has a form.

ghost use Rattle.std.specs.Prelude.{◌≡◌, ◌∷◌, MatchOption};

use cert_text::{Line, PairLine, SetLine, SettleLine, StartLine};

/// The line of a pair that stands first, and what follows it.
pub(crate) fn first_pair(lines: &[Line]) -> Option<(PairLine, &[Line])>
    ensures { MatchOption result (Unit {0}) (λ cut. lines.now ≡ Line.Pair cut.0 ∷ cut.1.now) }
{
    let (first, rest) = lines.split_first()?;
    match first {
        Line::Pair(line) => Some((*line, rest)),
        _ => None,
    }
}

/// The line of an initial state that stands first, and what follows it.
pub(crate) fn first_start(lines: &[Line]) -> Option<(StartLine, &[Line])>
    ensures { MatchOption result (Unit {0}) (λ cut. lines.now ≡ Line.Start cut.0 ∷ cut.1.now) }
{
    let (first, rest) = lines.split_first()?;
    match first {
        Line::Start(line) => Some((*line, rest)),
        _ => None,
    }
}

/// The line of a state that settles that stands first, and what follows it.
pub(crate) fn first_settle(lines: &[Line]) -> Option<(SettleLine, &[Line])>
    ensures { MatchOption result (Unit {0}) (λ cut. lines.now ≡ Line.Settle cut.0 ∷ cut.1.now) }
{
    let (first, rest) = lines.split_first()?;
    match first {
        Line::Settle(line) => Some((*line, rest)),
        _ => None,
    }
}

/// The line of a set that stands first, and what follows it.
pub(crate) fn first_set(lines: &[Line]) -> Option<(&SetLine, &[Line])>
    ensures { MatchOption result (Unit {0}) (λ cut. lines.now ≡ Line.Set cut.0.now ∷ cut.1.now) }
{
    let (first, rest) = lines.split_first()?;
    match first {
        Line::Set(line) => Some((line, rest)),
        _ => None,
    }
}
