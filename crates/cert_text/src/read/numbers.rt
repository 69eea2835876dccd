//! Words read as numbers, ways, targets and bits.

ghost use Rattle.std.specs.Prelude.{◌≡◌};
ghost use Rattle.cert_text.specs.Reading.{number_after, number_of, way_of, target_of, bit_of};

use crate::line::{Target, Way};

/// The greatest number of a text.
const MOST: u64 = 4_294_967_295;

/// The number that digits spell, up to the greatest.
fn number_after(digits: &[u8]) -> Option<u32>
    ensures { result ≡ number_after 0 digits.now }
{
    let mut number: u64 = 0;
    for digit in digits {
        if !digit.is_ascii_digit() || number > MOST / 10 {
            return None;
        }
        number = number * 10 + u64::from(*digit - b'0');
    }
    if number > MOST {
        None
    } else {
        Some(number as u32)
    }
}

/// The number that a word spells, without leading zeros.
#[tactic(auto, unfolding(crate::specs::Reading::number_of))]
pub fn number_of(word: &[u8]) -> Option<u32>
    ensures { result ≡ number_of word.now }
{
    let (first, others) = word.split_first()?;
    if *first == b'0' && !others.is_empty() {
        return None;
    }
    number_after(word)
}

/// `easier` or `whole`.
#[tactic(auto, unfolding(crate::specs::Reading::way_of))]
pub fn way_of(word: &[u8]) -> Option<Way>
    ensures { result ≡ way_of word.now }
{
    if word == b"easier".as_slice() {
        return Some(Way::Easier);
    }
    if word == b"whole".as_slice() {
        return Some(Way::Whole);
    }
    None
}

/// `=Q`, or the number of a node.
#[tactic(auto, unfolding(crate::specs::Reading::target_of))]
pub fn target_of(word: &[u8]) -> Option<Target>
    ensures { result ≡ target_of word.now }
{
    let (first, others) = word.split_first()?;
    if *first == b'=' {
        Some(Target::State(number_of(others)?))
    } else {
        Some(Target::Node(number_of(word)?))
    }
}

/// `1` or `0`.
#[tactic(auto, unfolding(crate::specs::Reading::bit_of))]
pub fn bit_of(word: &[u8]) -> Option<bool>
    ensures { result ≡ bit_of word.now }
{
    if word == b"1".as_slice() {
        return Some(true);
    }
    if word == b"0".as_slice() {
        return Some(false);
    }
    None
}
