//! A line cut into its words.

ghost use Rattle.std.specs.Prelude.{◌≡◌, ◌==◌, position, option_map};
ghost use Rattle.cert_text.specs.Reading.{cut_word, next_word};

/// The place of the first such byte.
pub fn place_of(byte: u8, text: &[u8]) -> Option<usize>
    ensures { result ≡ position (λ b. b == byte) text.now }
{
    text.iter().position(|b| *b == byte)
}

/// The bytes up to the first space, and those from it on. Takes no memory.
pub fn cut_word(bytes: &[u8]) -> (&[u8], &[u8])
    ensures { (result.0.now, result.1.now) ≡ cut_word bytes.now }
{
    let end = place_of(b' ', bytes).unwrap_or(bytes.len());
    (&bytes[..end], &bytes[end..])
}

/// A space and the word behind it, and what follows that. Takes no memory.
#[tactic(auto, unfolding(crate::specs::Reading::next_word))]
pub fn next_word(bytes: &[u8]) -> Option<(&[u8], &[u8])>
    ensures { option_map (λ cut. (cut.0.now, cut.1.now)) result ≡ next_word bytes.now }
{
    let (first, others) = bytes.split_first()?;
    if *first == b' ' {
        Some(cut_word(others))
    } else {
        None
    }
}
