//! The two core formulas of texts, spelled out. What they mean, the texts of `crates/pale_gallery/texts/formulas.bundle` show.

mod rows;

ghost use Rattle.std.specs.Prelude.{◌<◌, length};

use crate::formulas::is;
use rows::{ATOMS, CONNECTIVES, PREDICATES, QUANTIFIERS, ROWS, Row};
use std::alloc::{AllocError, Global};
use std::test::Fail;
use ws2s_core::Track;
use ws2s_read::read_ws2s;
use ws2s_reduce::{Reduced, reduce};

/// The reduction of a text.
fn reduced(alloc: Global, text: &[u8]) -> Result<Reduced, Fail>
    requires { length text.now < u32.MAX }
{
    let text = read_ws2s(alloc, text)?;
    match reduce(alloc, &text) {
        Ok(reduced) => Ok(reduced),
        Err(_) => Err(Fail::from(AllocError)),
    }
}

/// Whether these are the tracks 0, 1 and so on, so many.
fn are_first(tracks: &[Track], count: u32) -> bool {
    let mut next = 0u32;
    for track in tracks {
        if track.0 != next {
            return false;
        }
        next = next.wrapping_add(1);
    }
    next == count
}

/// Whether the reduction is as the row has it.
fn is_as(alloc: Global, made: &Reduced, (_, free, holds, breaks): &Row) -> Result<bool, Fail> {
    Ok(
        are_first(made.free.as_slice(), *free)
            && is(alloc, &made.holds, holds)?
            && is(alloc, &made.breaks, breaks)?,
    )
}

/// Whether a text is reduced as the row has it.
fn is_row(alloc: Global, row: &Row) -> Result<bool, Fail> {
    if row.0.len() >= 1000 {
        return Ok(false);
    }
    let made = reduced(alloc, row.0)?;
    is_as(alloc, &made, row)
}

#[test]
fn texts_are_reduced(rt: HostRuntime) -> Result<(), Fail> {
    for rows in [ROWS, ATOMS, CONNECTIVES, QUANTIFIERS, PREDICATES] {
        for row in rows {
            assert!(rt; is_row(rt.alloc(), row)?, "to {}", row.2);
        }
    }
    Ok(())
}
