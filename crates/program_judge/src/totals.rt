//! The totals of triples.

ghost use Rattle.std.specs.Prelude.{◌≡◌, ◌++◌, count_by, IfOk, OnOk};
ghost use Rattle.std.specs.Fmt.{decimal};
ghost use Rattle.program_judge.specs.Reports as reports;

use crate::TripleWay;
use std::alloc::{AllocError, Global};
use store_words::push_number;

/// How many triples are valid. Takes no memory.
pub fn valid_count(ways: &[TripleWay]) -> usize
    ensures { result ≡ count_by reports.is_valid ways.now }
{
    ways.iter()
        .filter(|way| matches!(**way, TripleWay::Valid))
        .count()
}

/// How many triples are invalid. Takes no memory.
pub fn invalid_count(ways: &[TripleWay]) -> usize
    ensures { result ≡ count_by reports.is_invalid ways.now }
{
    ways.iter()
        .filter(|way| matches!(**way, TripleWay::Invalid))
        .count()
}

/// How many triples met the limit. Takes no memory.
pub fn limit_count(ways: &[TripleWay]) -> usize
    ensures { result ≡ count_by reports.is_at_limit ways.now }
{
    ways.iter()
        .filter(|way| matches!(**way, TripleWay::Limit))
        .count()
}

/// The word and the number behind it.
pub(crate) fn push_count(
    alloc: Global,
    text: &mut Vec<u8>,
    word: &[u8],
    count: usize,
) -> Result<(), AllocError>
    ensures { OnOk result (text.new.items ≡ text.old.items ++ (word.now ++ decimal count)) }
{
    text.extend_from_slice(word)?;
    push_number(alloc, text, count as u64)
}

/// `triples T valid V invalid I limit X`
pub fn totals_text(alloc: Global, ways: &[TripleWay]) -> Result<Vec<u8>, AllocError>
    ensures { IfOk result (λ text. text.items ≡ reports.totals_of ways.now) }
{
    let mut text = Vec::new(alloc);
    push_count(alloc, &mut text, b"triples ", ways.len())?;
    push_count(alloc, &mut text, b" valid ", valid_count(ways))?;
    push_count(alloc, &mut text, b" invalid ", invalid_count(ways))?;
    push_count(alloc, &mut text, b" limit ", limit_count(ways))?;
    text.extend_from_slice(b"\n")?;
    Ok(text)
}
