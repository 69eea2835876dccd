//! A text read line by line.

ghost use Rattle.std.specs.Prelude.{◌≡◌, ◌==◌, ℕ, List, ◌++◌, position, option_map, IfOk, MatchResult};
ghost use Rattle.cert_text.specs.declared.line.Line.{Line};
ghost use Rattle.cert_text.specs.declared.fault.TextFault.TheVariants as faults;
ghost use Rattle.cert_text.specs.Spelling.{line_text, IsLine};
ghost use Rattle.cert_text.specs.Reading.{line_of, cut_line, line_at, listing_line};

mod fields;
mod forms;
mod numbers;
mod words;

use crate::fault::TextFault;
use crate::line::Line;
use crate::read::forms::listing_line;
use crate::read::words::{cut_word, place_of};
use std::alloc::{AllocError, Global};

/// What stands before and after the first LF. Takes no memory.
fn cut_line(text: &[u8]) -> Option<(&[u8], &[u8])>
    ensures { option_map (λ cut. (cut.0.now, cut.1.now)) result ≡ cut_line text.now }
{
    let end = place_of(b'\n', text)?;
    Some((&text[..end], &text[end + 1..]))
}

/// The line that these bytes spell, without its LF.
#[tactic(auto, unfolding(crate::specs::Reading::line_of))]
fn line_of(alloc: Global, bytes: &[u8]) -> Result<Option<Line>, AllocError>
    ensures { IfOk result (λ line. line ≡ line_of bytes.now) }
{
    let (word, fields) = cut_word(bytes);
    listing_line(alloc, word, fields)
}

/// The line that a text begins with, and what follows it.
#[tactic(auto, unfolding(crate::specs::Reading::line_at))]
fn line_at(alloc: Global, text: &[u8]) -> Result<Option<(Line, &[u8])>, AllocError>
    ensures { IfOk result (λ found. option_map (λ cut. (cut.0, cut.1.now)) found ≡ line_at text.now) }
{
    let Some((bytes, after)) = cut_line(text) else {
        return Ok(None);
    };
    match line_of(alloc, bytes)? {
        None => Ok(None),
        Some(line) => Ok(Some((line, after))),
    }
}

/// The line that a text begins with, its LF included, and what follows it. Takes memory for a line's list alone.
///
/// # Errors
///
/// `Syntax` exactly where the text doesn't begin with a line; want of memory.
pub fn read_line(alloc: Global, text: &[u8]) -> Result<(Line, &[u8]), TextFault>
    ensures found { IfOk result (λ cut. IsLine cut.0 × (text.now ≡ line_text cut.0 ++ cut.1.now)) }
    ensures only { (line : Line) (after : List ℕ) → IsLine line → text.now ≡ line_text line ++ after →
        MatchResult result (λ cut. (cut.0 ≡ line) × (cut.1.now ≡ after)) (λ fault. fault ≡ faults.NoMemory) }
{
    match line_at(alloc, text)? {
        Some(found) => Ok(found),
        None => Err(TextFault::Syntax),
    }
}
