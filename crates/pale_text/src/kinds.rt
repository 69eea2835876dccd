//! How a language tells tokens apart.

ghost use Rattle.std.specs.Prelude.{◌≡◌, map};
ghost use Rattle.std.specs.List.{find};
ghost use Rattle.std.specs.Str.{bytes_eq};
ghost use Rattle.pale_text.specs.Kinds.{kind_among};

/// The first of these words that is the one wanted.
fn entry_of<'w, K: Copy>(words: &[(&'w [u8], K)], wanted: &[u8]) -> Option<(&'w [u8], K)>
    ensures { result ≡ find (λ word. bytes_eq word.0.now wanted.now) words.now }
{
    words.iter().copied().find(|word| word.0 == wanted)
}

/// The kind that stands beside a word, and the other kind where the word is not among these.
pub fn kind_among<K: Copy>(words: &[(&[u8], K)], other: K, wanted: &[u8]) -> K
    ensures { result ≡ kind_among (map (λ word. (word.0.now, word.1)) words.now) other wanted.now }
{
    match entry_of(words, wanted) {
        Some(word) => word.1,
        None => other,
    }
}
