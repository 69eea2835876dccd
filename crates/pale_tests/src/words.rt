//! The words of a call, with what they ask for.

use crate::calls::words_of;
use pale_words::{Mode, WordsStop, read_words};
use std::alloc::{AllocError, Global};
use std::test::Fail;

/// The words of a call, and its mode, limit and seed; `None` where it is refused.
type Row = (&'static str, Option<(Mode, u32, u32)>);

/// Calls for `check`, `replay` and `ws2s`, and those that are refused.
static CALLS: &[Row] = &[
    ("", None),
    ("pale", None),
    ("pale check", Some((Mode::Check, 2_000_000, 0))),
    ("--help check", Some((Mode::Check, 2_000_000, 0))),
    ("pale replay", Some((Mode::Replay, 2_000_000, 0))),
    ("pale ws2s --limit 58", Some((Mode::Ws2s, 58, 0))),
    ("pale check extra", None),
    ("pale check check", None),
    ("pale CHECK", None),
    ("pale --help", None),
    ("pale -h", None),
    ("pale help", None),
    ("pale check --help", None),
    ("pale check --limit", None),
    ("pale check --limit 0", None),
    ("pale check --limit 1", Some((Mode::Check, 1, 0))),
    (
        "pale check --limit 16000000",
        Some((Mode::Check, 16_000_000, 0)),
    ),
    ("pale check --limit 16000001", None),
    ("pale check --limit x", None),
    ("pale check --limit +5", Some((Mode::Check, 5, 0))),
    ("pale check --limit 5 --limit 6", None),
    ("pale check --limit=7", Some((Mode::Check, 7, 0))),
    ("pale check --lim 7", None),
    (
        "pale check --seed 1000000",
        Some((Mode::Check, 2_000_000, 1_000_000)),
    ),
    ("pale check --seed 1000001", None),
    ("pale --seed 3 --limit 9 check", Some((Mode::Check, 9, 3))),
    ("pale --limit 9 -- check", Some((Mode::Check, 9, 0))),
    ("pale --limit 9", None),
];

/// Calls for `gen`.
static GEN_CALLS: &[Row] = &[
    ("pale gen", Some((Mode::Gen, 2_000_000, 0))),
    ("pale gen --seed 39", Some((Mode::Gen, 2_000_000, 39))),
    ("pale --seed 5 gen --limit 7", Some((Mode::Gen, 7, 5))),
    ("pale gen --seed", None),
    ("pale gen --seed -1", None),
    ("pale gen --seed 1000001", None),
    ("pale gen 5", None),
    ("pale check gen", None),
    ("pale generate", None),
];

/// Calls for `format`.
static FORMAT_CALLS: &[Row] = &[
    ("pale format", Some((Mode::Format, 2_000_000, 0))),
    ("pale format --limit 5 --seed 9", Some((Mode::Format, 5, 9))),
    (
        "pale --seed 3 -- format",
        Some((Mode::Format, 2_000_000, 3)),
    ),
    ("pale format extra", None),
    ("pale format check", None),
    ("pale check format", None),
    ("pale FORMAT", None),
    ("pale form", None),
    ("pale formats", None),
    ("pale format --limit 0", None),
];

/// Whether the words of a line give what the row has.
fn gives(alloc: Global, (line, wanted): &Row) -> Result<bool, AllocError> {
    let words = words_of(alloc, line)?;
    Ok(match read_words(alloc, &words) {
        Ok(it) => *wanted == Some((it.mode, it.limit, it.seed)),
        Err(stop) => stop == WordsStop::Refused && wanted.is_none(),
    })
}

#[test]
fn words_give_their_settings_or_are_refused(rt: HostRuntime) -> Result<(), Fail> {
    for rows in [CALLS, GEN_CALLS, FORMAT_CALLS] {
        for row in rows {
            assert!(rt; gives(rt.alloc(), row)?, "{}", row.0);
        }
    }
    Ok(())
}
