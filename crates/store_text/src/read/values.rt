//! Words read as names, numbers and values.

ghost use Rattle.std.specs.Prelude.{◌≡◌, option_map, IfOk};
ghost use Rattle.std.specs.List.{list_all};
ghost use Rattle.store_text.specs.Spelling.{is_name_part, is_name, name_of, number_after, number_of, all_of, before_close, numbers_of, counted_of, value_of};

use crate::read::lines::parts_of;
use crate::read::spelled::Spelled;
use plain_data::Items;
use std::alloc::{AllocError, Global};
use store_core::ByteList;

/// The greatest number of a cell in a text.
const MOST: u32 = 1_000_000;

/// Whether a byte may stand in a name after its first.
fn is_name_part(byte: u8) -> bool
    ensures { result ≡ is_name_part byte }
{
    byte.is_ascii_alphanumeric() || byte == b'_'
}

/// Whether each byte may stand in a name after its first.
fn are_name_parts(bytes: &[u8]) -> bool
    ensures { result ≡ list_all is_name_part bytes.now }
{
    bytes.iter().all(|byte| is_name_part(*byte))
}

/// Whether a word is a name.
fn is_name(word: &[u8]) -> bool
    ensures { result ≡ is_name word.now }
{
    let Some((first, others)) = word.split_first() else {
        return false;
    };
    first.is_ascii_alphabetic() && are_name_parts(others)
}

/// The name that a word is.
#[tactic(auto, unfolding(crate::specs::Spelling::name_of))]
pub fn name_of(alloc: Global, word: &[u8]) -> Result<Option<ByteList>, AllocError>
    ensures { IfOk result (λ name. name ≡ name_of word.now) }
{
    if !is_name(word) {
        return Ok(None);
    }
    Ok(Some(Items::from_slice(alloc, word)?))
}

/// The number that digits spell, up to the greatest.
fn number_after(digits: &[u8]) -> Option<u32>
    ensures { result ≡ number_after 0 digits.now }
{
    let mut number: u32 = 0;
    for digit in digits {
        if !digit.is_ascii_digit() || number > MOST / 10 {
            return None;
        }
        number = number * 10 + u32::from(*digit - b'0');
    }
    if number > MOST { None } else { Some(number) }
}

/// The number that a word spells, without leading zeros.
#[tactic(auto, unfolding(crate::specs::Spelling::number_of))]
pub fn number_of(word: &[u8]) -> Option<u32>
    ensures { result ≡ number_of word.now }
{
    let Some((first, _)) = word.split_first() else {
        return None;
    };
    if *first == b'0' {
        return None;
    }
    number_after(word)
}

/// What stands before a closing brace that comes last.
fn before_close(word: &[u8]) -> Option<&[u8]>
    ensures { option_map (λ front. front.now) result ≡ before_close word.now }
{
    let Some((last, front)) = word.split_last() else {
        return None;
    };
    if *last == b'}' { Some(front) } else { None }
}

/// The numbers that words spell, where each spells one.
fn all_numbers(alloc: Global, words: &[ByteList]) -> Result<Option<Items<u32>>, AllocError>
    ensures { IfOk result (λ numbers. numbers ≡ all_of number_of words.now) }
{
    let mut numbers = Items::new(alloc);
    for word in words {
        let Some(number) = number_of(word.as_slice()) else {
            return Ok(None);
        };
        numbers.push(number)?;
    }
    Ok(Some(numbers))
}

/// The numbers in braces.
#[tactic(auto, unfolding(crate::specs::Spelling::numbers_of))]
fn numbers_of(alloc: Global, inside: &[u8]) -> Result<Option<Items<u32>>, AllocError>
    ensures { IfOk result (λ numbers. numbers ≡ numbers_of inside.now) }
{
    if inside.is_empty() {
        return Ok(Some(Items::new(alloc)));
    }
    let words = parts_of(alloc, inside)?;
    all_numbers(alloc, words.as_slice())
}

/// A number, or numbers in braces.
#[tactic(auto, unfolding(crate::specs::Spelling::counted_of))]
fn counted_of(alloc: Global, word: &[u8]) -> Result<Option<Spelled>, AllocError>
    ensures { IfOk result (λ value. value ≡ counted_of word.now) }
{
    let Some((first, others)) = word.split_first() else {
        return Ok(None);
    };
    if *first != b'{' {
        return match number_of(word) {
            None => Ok(None),
            Some(number) => Ok(Some(Spelled::Number(number))),
        };
    }
    let Some(inside) = before_close(others) else {
        return Ok(None);
    };
    match numbers_of(alloc, inside)? {
        None => Ok(None),
        Some(numbers) => Ok(Some(Spelled::Numbers(numbers))),
    }
}

/// The value that a word spells.
#[tactic(auto, unfolding(crate::specs::Spelling::value_of))]
pub fn value_of(alloc: Global, word: &[u8]) -> Result<Option<Spelled>, AllocError>
    ensures { IfOk result (λ value. value ≡ value_of word.now) }
{
    if word == b"true".as_slice() {
        return Ok(Some(Spelled::Truth(true)));
    }
    if word == b"false".as_slice() {
        return Ok(Some(Spelled::Truth(false)));
    }
    if word == b"null".as_slice() {
        return Ok(Some(Spelled::Null));
    }
    counted_of(alloc, word)
}
