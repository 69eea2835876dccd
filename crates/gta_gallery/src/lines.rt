//! The words of a line, and what is written for them.

use plain_writer::Writer;

/// What the digits of a `u64` stand for.
const UNITS: [u64; 20] = [
    10_000_000_000_000_000_000,
    1_000_000_000_000_000_000,
    100_000_000_000_000_000,
    10_000_000_000_000_000,
    1_000_000_000_000_000,
    100_000_000_000_000,
    10_000_000_000_000,
    1_000_000_000_000,
    100_000_000_000,
    10_000_000_000,
    1_000_000_000,
    100_000_000,
    10_000_000,
    1_000_000,
    100_000,
    10_000,
    1_000,
    100,
    10,
    1,
];

/// The word at this place of a line, counted from 0; it is empty behind the last one.
pub(crate) fn word_at(line: &str, place: usize) -> &str {
    line.split_whitespace().skip(place).next().unwrap_or("")
}

/// The number of a word; 0 where it is none.
pub(crate) fn number_of(word: &str) -> u32 {
    match word.parse() {
        Ok(number) => number,
        Err(_) => 0,
    }
}

/// Writes a mark and the number in decimal.
pub(crate) fn write_number(out: &mut Writer, mark: &[u8], number: u64) {
    out.push_all(mark);
    for unit in UNITS {
        let digit = number.checked_div(unit).unwrap_or(0) % 10;
        if unit <= number || unit == 1 {
            out.push(b'0'.wrapping_add(digit as u8));
        }
    }
}

/// Writes whether something is so.
pub(crate) fn write_truth(out: &mut Writer, is_so: bool) {
    out.push_all(if is_so { b" true" } else { b" false" });
}

/// Writes that a word isn't known.
pub(crate) fn write_unknown(out: &mut Writer) {
    out.push_all(b" unknown");
}
