//! The line that asks for a whole run.

ghost use Rattle.std.specs.Prelude.{◌≡◌, ◌==◌, ℕ, List, IfSome, IfNone, option_map, position};
ghost use Rattle.std.specs.List.{list_all};
ghost use Rattle.store_text.specs.Spelling.{cut_at, is_name, is_name_part};
ghost use Rattle.pale_parts.specs.Parts.{IsRunLine};

use crate::parts::number_of;

/// The most steps of a run in a text.
const MOST_STEPS: u32 = 100_000;

/// Whether a byte may stand in a name after its first.
fn is_name_part(byte: u8) -> bool
    ensures { result ≡ is_name_part byte }
{
    byte.is_ascii_alphanumeric() || byte == b'_'
}

/// Whether each byte may stand in a name after its first.
fn are_name_parts(bytes: &[u8]) -> bool
    ensures { result ≡ list_all is_name_part bytes.now }
{
    bytes.iter().all(|byte| is_name_part(*byte))
}

/// Whether a word is a name.
fn is_name(word: &[u8]) -> bool
    ensures { result ≡ is_name word.now }
{
    let Some((first, others)) = word.split_first() else {
        return false;
    };
    first.is_ascii_alphabetic() && are_name_parts(others)
}

/// The place of the first space.
fn first_space(words: &[u8]) -> Option<usize>
    ensures { result ≡ position (λ byte. byte == 32) words.now }
{
    words.iter().position(|byte| *byte == b' ')
}

/// What stands before and after the first space.
fn cut_at_space(words: &[u8]) -> Option<(&[u8], &[u8])>
    ensures { option_map (λ cut. (cut.0.now, cut.1.now)) result ≡ cut_at 32 words.now }
{
    let place = first_space(words)?;
    Some((&words[..place], &words[place + 1..]))
}

/// The name of the procedure and the number of steps in a line `run PROC STEPS`.
pub fn run_in(line: &[u8]) -> Option<(&[u8], u32)>
    ensures some { IfSome result (λ run. IsRunLine line.now run.0.now run.1) }
    ensures none { IfNone result ((name : List ℕ) (steps : ℕ) → IsRunLine line.now name steps → ⊥) }
{
    let words = line.strip_prefix(b"run ".as_slice())?;
    let (name, word) = cut_at_space(words)?;
    let steps = number_of(word)?;
    if steps <= MOST_STEPS && is_name(name) {
        Some((name, steps))
    } else {
        None
    }
}
