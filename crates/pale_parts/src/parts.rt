//! The parts of a text that has more than a program: the program, a line `---`, and what follows it.

ghost use Rattle.std.specs.Prelude.{◌≡◌, ◌<◌, ◌≤◌, ◌==◌, ◌∷◌, ◌++◌, ◌⊎◌, [], ℕ, length, codes, position, IfSome, IfNone};
ghost use Rattle.std.specs.Str.{bytes_eq};
ghost use Rattle.store_text.specs.Lines.{lines_of};
ghost use Rattle.store_text.specs.Spelling.{number_of, number_after};
ghost use Rattle.pale_parts.specs.Parts.{cut_line, IsCutAs, HasNoCut, IsTripleLine};

/// The greatest number of a triple in a text.
const MOST: u32 = 1_000_000;

/// The place of the first LF.
fn end_of_line(text: &[u8]) -> Option<usize>
    ensures { result ≡ position (λ byte. byte == 10) text.now }
{
    text.iter().position(|byte| *byte == b'\n')
}

/// The first line of a text that isn't over, without its LF, and what follows it.
pub fn split_line(text: &[u8]) -> (&[u8], &[u8])
    requires { 0 < length text.now }
    ensures lines { lines_of text.now ≡ result.0.now ∷ lines_of result.1.now }
    ensures bytes { (text.now ≡ result.0.now ++ 10 ∷ result.1.now) ⊎ ((text.now ≡ result.0.now) × (result.1.now ≡ [])) }
    ensures less { length result.1.now < length text.now }
{
    match end_of_line(text) {
        Some(end) => (&text[..end], &text[end + 1..]),
        None => (text, &text[text.len()..]),
    }
}

/// Whether a line is `---`.
fn is_cut_line(line: &[u8]) -> bool
    ensures { result ≡ bytes_eq line.now cut_line }
{
    line == b"---".as_slice()
}

/// The program's part of a text, and what follows the first line `---`, where there is one.
pub fn cut_text(text: &[u8]) -> (&[u8], Option<&[u8]>)
    ensures cut { IfSome result.1 (λ after. IsCutAs text.now result.0.now after.now) }
    ensures whole { IfNone result.1 ((result.0.now ≡ text.now) × HasNoCut text.now) }
    ensures shorter { length result.0.now ≤ length text.now }
    ensures less { IfSome result.1 (λ after. length after.now < length text.now) }
{
    let mut start = 0;
    while start < text.len() {
        let (line, after) = split_line(&text[start..]);
        if is_cut_line(line) {
            return (&text[..start], Some(after));
        }
        start = text.len() - after.len();
    }
    (text, None)
}

/// The number that digits spell, up to the greatest.
fn number_after(digits: &[u8]) -> Option<u32>
    ensures { result ≡ number_after 0 digits.now }
{
    let mut number: u32 = 0;
    for digit in digits {
        if !digit.is_ascii_digit() || number > MOST / 10 {
            return None;
        }
        number = number * 10 + u32::from(*digit - b'0');
    }
    if number > MOST { None } else { Some(number) }
}

/// The number that a word spells: 1 to 1,000,000, without a leading zero.
#[tactic(auto, unfolding(store_text::specs::Spelling::number_of))]
pub(crate) fn number_of(word: &[u8]) -> Option<u32>
    ensures { result ≡ number_of word.now }
{
    let Some((first, _)) = word.split_first() else {
        return None;
    };
    if *first == b'0' {
        return None;
    }
    number_after(word)
}

/// The number in a line `triple K`.
pub fn triple_in(line: &[u8]) -> Option<u32>
    ensures some { IfSome result (λ number. IsTripleLine line.now number × (0 < number)) }
    ensures none { IfNone result ((number : ℕ) → IsTripleLine line.now number → ⊥) }
{
    let word = line.strip_prefix(b"triple ".as_slice())?;
    number_of(word)
}
