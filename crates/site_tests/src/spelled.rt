//! Numbers, and formulas in short.

use plain_writer::Writer;
use ws2s_core::{Formula, Track};

/// What the digits of a `u32` stand for.
const UNITS: [u32; 10] = [
    1_000_000_000,
    100_000_000,
    10_000_000,
    1_000_000,
    100_000,
    10_000,
    1_000,
    100,
    10,
    1,
];

/// Writes a mark and the number in decimal.
pub(crate) fn push_number(out: &mut Writer, mark: &[u8], number: u32) {
    out.push_all(mark);
    for unit in UNITS {
        let digit = number.checked_div(unit).unwrap_or(0) % 10;
        if unit <= number || unit == 1 {
            out.push(b'0'.wrapping_add(digit as u8));
        }
    }
}

/// Writes two tracks and what stands between them.
fn push_two(out: &mut Writer, one: Track, mark: &[u8], other: Track) {
    push_number(out, b"", one.0);
    push_number(out, mark, other.0);
}

/// A formula, each form before its parts.
pub(crate) fn push_formula(out: &mut Writer, formula: &Formula) {
    match formula {
        Formula::Sub(one, other) => push_two(out, *one, b"<", *other),
        Formula::Single(track) => push_number(out, b"one", track.0),
        Formula::Succ0(one, other) => push_two(out, *one, b".0=", *other),
        Formula::Succ1(one, other) => push_two(out, *one, b".1=", *other),
        Formula::Root(track) => push_number(out, b"root", track.0),
        Formula::And(left, right) => {
            out.push_all(b"& ");
            push_formula(out, left.get());
            out.push(b' ');
            push_formula(out, right.get());
        }
        Formula::Not(inner) => {
            out.push(b'~');
            push_formula(out, inner.get());
        }
        Formula::Ex2(track, inner) => {
            push_number(out, b"E", track.0);
            out.push(b' ');
            push_formula(out, inner.get());
        }
    }
}
