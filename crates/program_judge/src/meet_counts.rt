//! The totals of starts.

ghost use Rattle.std.specs.Prelude.{◌≡◌, count_by, IfOk};
ghost use Rattle.program_judge.specs.Meets as meets;

use crate::meet_way::MeetWay;
use crate::totals::push_count;
use std::alloc::{AllocError, Global};

fn met_count(ways: &[MeetWay]) -> usize
    ensures { result ≡ count_by meets.is_met ways.now }
{
    ways.iter()
        .filter(|way| matches!(**way, MeetWay::Met))
        .count()
}

fn empty_count(ways: &[MeetWay]) -> usize
    ensures { result ≡ count_by meets.is_empty ways.now }
{
    ways.iter()
        .filter(|way| matches!(**way, MeetWay::Empty))
        .count()
}

fn limit_count(ways: &[MeetWay]) -> usize
    ensures { result ≡ count_by meets.is_at_limit ways.now }
{
    ways.iter()
        .filter(|way| matches!(**way, MeetWay::Limit))
        .count()
}

/// `triples T met M empty E limit X`
///
/// # Errors
///
/// Want of memory.
pub fn meet_totals(alloc: Global, ways: &[MeetWay]) -> Result<Vec<u8>, AllocError>
    ensures { IfOk result (λ text. text.items ≡ meets.totals_of ways.now) }
{
    let mut text = Vec::new(alloc);
    push_count(alloc, &mut text, b"triples ", ways.len())?;
    push_count(alloc, &mut text, b" met ", met_count(ways))?;
    push_count(alloc, &mut text, b" empty ", empty_count(ways))?;
    push_count(alloc, &mut text, b" limit ", limit_count(ways))?;
    text.extend_from_slice(b"\n")?;
    Ok(text)
}
