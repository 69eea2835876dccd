//! A text cut into lines, and a line into its parts.

ghost use Rattle.std.specs.Prelude.{◌≡◌, ◌<◌, ◌∷◌, ◌==◌, ◌&&◌, not, length, position, option_map, IfOk};
ghost use Rattle.store_text.specs.Lines.{lines_of, parts_of, braced_after};
ghost use Rattle.store_text.specs.Spelling.{cut_at};

use plain_data::Items;
use std::alloc::{AllocError, Global};
use std::mem;
use store_core::ByteList;

/// The place of the first such byte.
fn place_of(byte: u8, text: &[u8]) -> Option<usize>
    ensures { result ≡ position (λ b. b == byte) text.now }
{
    text.iter().position(|b| *b == byte)
}

/// The first line of a text that isn't over, without its LF, and the lines after it.
pub fn split_line(text: &[u8]) -> (&[u8], &[u8])
    requires { 0 < length text.now }
    ensures lines { lines_of text.now ≡ result.0.now ∷ lines_of result.1.now }
    ensures less { length result.1.now < length text.now }
{
    match place_of(b'\n', text) {
        Some(end) => (&text[..end], &text[end + 1..]),
        None => (text, &text[text.len()..]),
    }
}

/// Whether what follows this byte stands in braces.
fn braced_after(braced: bool, byte: u8) -> bool
    ensures { result ≡ braced_after braced byte }
{
    match byte {
        b'{' => true,
        b'}' => false,
        _ => braced,
    }
}

/// Whether a line is cut at this byte.
fn is_cut(braced: bool, byte: u8) -> bool
    ensures { result ≡ (not braced && byte == 32) }
{
    !braced && byte == b' '
}

/// The parts of a line, cut at each space that doesn't stand in braces.
pub fn parts_of(alloc: Global, line: &[u8]) -> Result<Items<ByteList>, AllocError>
    ensures { IfOk result (λ parts. parts ≡ parts_of line.now) }
{
    let mut parts = Items::new(alloc);
    let mut part = Items::new(alloc);
    let mut braced = false;
    for byte in line {
        if is_cut(braced, *byte) {
            parts.push(mem::replace(&mut part, Items::new(alloc)))?;
        } else {
            part.push(*byte)?;
            braced = braced_after(braced, *byte);
        }
    }
    parts.push(part)?;
    Ok(parts)
}

/// What stands before and after the first such byte. Takes no memory.
pub fn cut_at(byte: u8, word: &[u8]) -> Option<(&[u8], &[u8])>
    ensures { option_map (λ cut. (cut.0.now, cut.1.now)) result ≡ cut_at byte word.now }
{
    let place = place_of(byte, word)?;
    Some((&word[..place], &word[place + 1..]))
}
