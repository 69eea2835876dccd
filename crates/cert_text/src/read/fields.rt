//! The fields of a line, one after the other.

ghost use Rattle.std.specs.Prelude.{◌≡◌, option_map, IfOk};
ghost use Rattle.cert_text.specs.Reading.{number_next, way_next, target_next, bit_next, numbers_of, ended};

use crate::line::{Line, NumberList, Target, Way};
use crate::read::numbers::{bit_of, number_of, target_of, way_of};
use crate::read::words::next_word;
use plain_data::Items;
use std::alloc::{AllocError, Global};

/// A number, and what follows it.
#[tactic(auto, unfolding(crate::specs::Reading::number_next))]
pub fn number_next(bytes: &[u8]) -> Option<(u32, &[u8])>
    ensures { option_map (λ field. (field.0, field.1.now)) result ≡ number_next bytes.now }
{
    let (word, others) = next_word(bytes)?;
    let number = number_of(word)?;
    Some((number, others))
}

/// A way, and what follows it.
#[tactic(auto, unfolding(crate::specs::Reading::way_next))]
pub fn way_next(bytes: &[u8]) -> Option<(Way, &[u8])>
    ensures { option_map (λ field. (field.0, field.1.now)) result ≡ way_next bytes.now }
{
    let (word, others) = next_word(bytes)?;
    let way = way_of(word)?;
    Some((way, others))
}

/// A state or a node, and what follows it.
#[tactic(auto, unfolding(crate::specs::Reading::target_next))]
pub fn target_next(bytes: &[u8]) -> Option<(Target, &[u8])>
    ensures { option_map (λ field. (field.0, field.1.now)) result ≡ target_next bytes.now }
{
    let (word, others) = next_word(bytes)?;
    let target = target_of(word)?;
    Some((target, others))
}

/// Whether the bound track is set, and what follows it.
#[tactic(auto, unfolding(crate::specs::Reading::bit_next))]
pub fn bit_next(bytes: &[u8]) -> Option<(bool, &[u8])>
    ensures { option_map (λ field. (field.0, field.1.now)) result ≡ bit_next bytes.now }
{
    let (word, others) = next_word(bytes)?;
    let bit = bit_of(word)?;
    Some((bit, others))
}

/// The numbers up to the end of the line.
#[tactic(auto, unfolding(crate::specs::Reading::numbers_of))]
pub fn numbers_of(alloc: Global, bytes: &[u8]) -> Result<Option<NumberList>, AllocError>
    ensures { IfOk result (λ numbers. numbers ≡ numbers_of bytes.now) }
{
    let mut numbers = Items::new(alloc);
    let mut left = bytes;
    for _ in 0..bytes.len() {
        if left.is_empty() {
            return Ok(Some(numbers));
        }
        let Some((number, others)) = number_next(left) else {
            return Ok(None);
        };
        numbers.push(number)?;
        left = others;
    }
    if left.is_empty() {
        Ok(Some(numbers))
    } else {
        Ok(None)
    }
}

/// The line, where nothing is left of its text.
pub fn ended(left: &[u8], line: Line) -> Option<Line>
    ensures { result ≡ ended left.now line }
{
    if left.is_empty() { Some(line) } else { None }
}
