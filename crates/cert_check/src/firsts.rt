//! The first of some lines, where it has a form.

ghost use Rattle.std.specs.Prelude.{◌≡◌, ◌∷◌, MatchOption};

use cert_text::{Line, SectionLine};

/// The line of a section that stands first, and what follows it.
pub(crate) fn first_section(lines: &[Line]) -> Option<(SectionLine, &[Line])>
    ensures { MatchOption result (Unit {0}) (λ cut. lines.now ≡ Line.Section cut.0 ∷ cut.1.now) }
{
    let (first, rest) = lines.split_first()?;
    match first {
        Line::Section(line) => Some((*line, rest)),
        _ => None,
    }
}

/// The number of the conjunction on which a step's first line stands first, and what follows it.
pub(crate) fn first_and(lines: &[Line]) -> Option<(u32, &[Line])>
    ensures { MatchOption result (Unit {0}) (λ cut. lines.now ≡ Line.And cut.0 ∷ cut.1.now) }
{
    let (first, rest) = lines.split_first()?;
    match first {
        Line::And(number) => Some((*number, rest)),
        _ => None,
    }
}

/// The number of the quantified formula on which a step's first line stands first, and what follows it.
pub(crate) fn first_ex(lines: &[Line]) -> Option<(u32, &[Line])>
    ensures { MatchOption result (Unit {0}) (λ cut. lines.now ≡ Line.Ex cut.0 ∷ cut.1.now) }
{
    let (first, rest) = lines.split_first()?;
    match first {
        Line::Ex(number) => Some((*number, rest)),
        _ => None,
    }
}

/// What follows an end that stands first.
pub(crate) fn first_end(lines: &[Line]) -> Option<&[Line]>
    ensures { MatchOption result (Unit {0}) (λ rest. lines.now ≡ Line.End ∷ rest.now) }
{
    let (first, rest) = lines.split_first()?;
    match first {
        Line::End => Some(rest),
        _ => None,
    }
}
