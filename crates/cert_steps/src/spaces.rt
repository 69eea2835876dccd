//! The lines of the spaces' states.

ghost use Rattle.std.specs.Prelude.{◌≡◌, ◌∷◌, ◌++◌, length, map, IfOk, MatchOption};
ghost use Rattle.cert_steps.specs.Places.{IsSpaceLine, AreSpaceLines};

use crate::fault::{FaultKind, Stop, wrong_form};
use crate::firsts::first_space;
use cert_text::{Line, SpaceLine};
use plain_data::Items;
use std::alloc::{AllocError, Global};

/// What is wrong with the line of a space's states, of so many spaces.
fn space_fault(spaces: u32, space: u32, line: SpaceLine) -> Option<FaultKind>
    ensures { MatchOption result (IsSpaceLine space line) (λ kind. ¬ IsSpaceLine space line) }
{
    if line.space == space && line.initial < line.states {
        None
    } else if line.space < spaces {
        Some(FaultKind::Table)
    } else {
        Some(FaultKind::Unknown)
    }
}

/// The line of a space's states, and what follows it.
fn space_line<'a>(
    spaces: u32,
    space: u32,
    lines: &'a [Line],
) -> Result<(SpaceLine, &'a [Line]), Stop>
    ensures { IfOk result (λ cut. (lines.now ≡ Line.Space cut.0 ∷ cut.1.now) × IsSpaceLine space cut.0) }
{
    let Some((line, rest)) = first_space(lines) else {
        return Err(wrong_form(lines));
    };
    match space_fault(spaces, space, line) {
        None => Ok((line, rest)),
        Some(kind) => Err(Stop::Fault(lines.len(), kind)),
    }
}

/// The lines of the spaces' states, one a space in order, and what follows them.
pub(crate) fn read_spaces<'a>(
    alloc: Global,
    spaces: u32,
    lines: &'a [Line],
) -> Result<(Items<SpaceLine>, &'a [Line]), Stop>
    ensures { IfOk result (λ cut. (lines.now ≡ map Line.Space cut.0 ++ cut.1.now) × AreSpaceLines spaces cut.0) }
{
    let mut read = Items::new(alloc);
    let mut left = lines;
    for space in 0..spaces {
        let (line, rest) = space_line(spaces, space, left)?;
        read.push(line)?;
        left = rest;
    }
    Ok((read, left))
}
