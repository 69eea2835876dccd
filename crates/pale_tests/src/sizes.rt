//! Texts that are made by repetition, at the bounds of what is read.

use crate::calls::writes;
use plain_writer::Writer;
use std::alloc::{AllocError, Global};
use std::test::Fail;

/// A piece so many times, between two others. Where a third one is there, each piece is a number from 1 on between two.
type Parts = (
    &'static str,
    &'static str,
    Option<&'static str>,
    u32,
    &'static str,
);

/// Words, a text, what is written for it, and the status.
static REPEATED: &[(&str, Parts, &str, u8)] = &[
    // One byte more is too long, and then nothing is looked at.
    (
        "pale check",
        ("", " ", None, 1_048_576, ""),
        "triples 0 valid 0 invalid 0 limit 0\n",
        0,
    ),
    (
        "pale check",
        ("", " ", None, 1_048_577, ""),
        "refused too-long\n",
        3,
    ),
    ("pale format", ("", " ", None, 1_048_576, ""), "", 0),
    (
        "pale format",
        ("", " ", None, 1_048_577, ""),
        "refused too-long\n",
        3,
    ),
    (
        "pale format",
        ("% ", " ", None, 1_048_576, ""),
        "refused too-long\n",
        3,
    ),
    // Levels that are open at once.
    (
        "pale check",
        ("proc p() pre [", "(", None, 201, ""),
        "refused 1:215 deep\n",
        3,
    ),
    (
        "pale format",
        ("proc p() pre [", "(", None, 201, ""),
        "refused 1:215 deep\n",
        3,
    ),
    // Nodes of a formula: of the second there are six, and one for each `&`.
    (
        "pale check",
        ("proc p(bool a) pre [a", " <=> a", None, 15, "] { }\n"),
        "refused 1:20 big-formula\n",
        3,
    ),
    (
        "pale ws2s",
        ("ws2s; true", " & true", None, 10_000, ";"),
        "refused 1:1 big-formula\n",
        3,
    ),
    // Of formulas that are too large one more than the most.
    (
        "pale ws2s",
        ("ws2s; var2 X;", "X sub X;", None, 10_000, ""),
        "valid\n",
        0,
    ),
    (
        "pale ws2s",
        ("ws2s; var2 X;", "X sub X;", None, 32_768, ""),
        "valid\n",
        0,
    ),
    (
        "pale ws2s",
        ("ws2s; var2 X;", "X sub X;", None, 32_769, ""),
        "refused 1:1 big-formula\n",
        3,
    ),
    (
        "pale ws2s",
        ("ws2s; var2 X; X sub X", " & X sub X", None, 32_767, ";"),
        "valid\n",
        0,
    ),
    (
        "pale ws2s",
        ("ws2s; var2 X; X sub X", " & X sub X", None, 32_768, ";"),
        "refused 1:1 big-formula\n",
        3,
    ),
    (
        "pale ws2s",
        ("ws2s; var2 X; X sub X", " | X sub X", None, 13_106, ";"),
        "valid\n",
        0,
    ),
    (
        "pale ws2s",
        ("ws2s; var2 X; X sub X", " | X sub X", None, 13_107, ";"),
        "refused 1:1 big-formula\n",
        3,
    ),
    (
        "pale ws2s",
        ("ws2s; var2 X; X sub X", " <=> X sub X", None, 4_999, ";"),
        "refused 1:1 big-formula\n",
        3,
    ),
    (
        "pale ws2s --limit 1",
        ("ws2s; var2 X; root", ".0", None, 21_843, " in X;"),
        "limit\n",
        4,
    ),
    (
        "pale ws2s",
        ("ws2s; var2 X; root", ".0", None, 21_844, " in X;"),
        "refused 1:1 big-formula\n",
        3,
    ),
    // Nodes of a route, and fields of a path.
    (
        "pale check",
        (
            "type T = { data f: T; pointer p: T [f",
            "*",
            None,
            1_024,
            "]; }\n",
        ),
        "refused 1:36 big-route\n",
        3,
    ),
    (
        "pale check --limit 1",
        (
            "type T = { data f: T; pointer p: T [$",
            "*",
            None,
            100_000,
            "]; }\n",
        ),
        "refused 1:36 big-route\n",
        3,
    ),
    (
        "pale check",
        (
            "type T = { data f: T; } proc p(data x: T) { x",
            ".f",
            None,
            1_025,
            " = null; }\n",
        ),
        "refused 1:45 long-path\n",
        3,
    ),
    (
        "pale check",
        (
            "type T = { data f: T; } proc p(data x: T) { x = x",
            ".f",
            None,
            200_000,
            "; }\n",
        ),
        "refused 1:49 long-path\n",
        3,
    ),
    // Steps of a triple.
    (
        "pale check",
        ("proc p(bool a) {\n", "a = a;\n", None, 129, "}\n"),
        "refused 1:1 long-part\n",
        3,
    ),
    (
        "pale check",
        (
            "type N = { } proc p(data x: N) {\n",
            "x = new N;\n",
            None,
            65,
            "}\n",
        ),
        "refused 1:14 many-new\n",
        3,
    ),
    // Names.
    (
        "pale check",
        ("", "type T", Some(" = { }\n"), 33, ""),
        "refused 33:6 many-types\n",
        3,
    ),
    (
        "pale check",
        ("type T = {", " bool f", Some(";"), 33, " }\n"),
        "refused 1:328 many-fields\n",
        3,
    ),
    (
        "pale check",
        ("type T = { }", " | v", Some(" { }"), 17, "\n"),
        "refused 1:167 many-variants\n",
        3,
    ),
    (
        "pale check",
        ("proc p(bool v0", ", bool v", Some(""), 64, ") { }\n"),
        "refused 1:643 many-vars\n",
        3,
    ),
    // Nodes of a formula: one for each name that is bound, and two for each position, with seven for what breaks the text.
    (
        "pale ws2s",
        ("ws2s; var2 X; ex2 n0", ", n", Some(""), 65533, ": X sub X;"),
        "valid\n",
        0,
    ),
    (
        "pale ws2s",
        ("ws2s; var2 X; ex2 n0", ", n", Some(""), 65534, ": X sub X;"),
        "refused 1:1 big-formula\n",
        3,
    ),
    (
        "pale ws2s --limit 1",
        ("ws2s; var1 x0", ", x", Some(""), 32763, ";"),
        "limit\n",
        4,
    ),
    (
        "pale ws2s",
        ("ws2s; var1 x0", ", x", Some(""), 32764, ";"),
        "refused 1:1 big-formula\n",
        3,
    ),
];

/// What the digits of numbers stand for.
const UNITS: [u32; 5] = [10_000, 1_000, 100, 10, 1];

/// Writes the number, which is below 100,000.
fn push_number(text: &mut Writer, number: u32) {
    for unit in UNITS {
        let digit = number.checked_div(unit).unwrap_or(0) % 10;
        if unit <= number {
            text.push(b'0'.wrapping_add(digit as u8));
        }
    }
}

/// The text of these parts.
fn repeated(
    alloc: Global,
    (front, piece, behind, count, back): Parts,
) -> Result<Vec<u8>, AllocError> {
    let mut text = Writer::new(alloc);
    text.push_all(front.as_bytes());
    for k in 0..count {
        text.push_all(piece.as_bytes());
        if let Some(behind) = behind {
            push_number(&mut text, k + 1);
            text.push_all(behind.as_bytes());
        }
    }
    text.push_all(back.as_bytes());
    text.finish()
}

/// Whether `pale`, with these words, writes this for the text of these parts, with this status.
fn writes_repeated(
    alloc: Global,
    words: &str,
    parts: Parts,
    want: &str,
    number: u8,
) -> Result<bool, AllocError> {
    let text = repeated(alloc, parts)?;
    writes(alloc, words, &text, want.as_bytes(), number)
}

#[test]
fn each_part_and_each_number_of_names_has_its_bound(rt: HostRuntime) -> Result<(), Fail> {
    for (words, parts, want, number) in REPEATED {
        let is_so = writes_repeated(rt.alloc(), words, *parts, want, *number)?;
        assert!(rt; is_so, "{want}");
    }
    Ok(())
}

/// A text of 200 levels.
fn levels(alloc: Global) -> Result<Vec<u8>, AllocError> {
    let mut text = Writer::new(alloc);
    text.push_all(b"proc p() pre [");
    for _ in 0..200 {
        text.push(b'(');
    }
    text.push_all(b"true");
    for _ in 0..200 {
        text.push(b')');
    }
    text.push_all(b"] { }");
    text.finish()
}

/// Whether 200 levels are read.
fn levels_are_read(alloc: Global) -> Result<bool, AllocError> {
    let text = levels(alloc)?;
    let want = b"proc p ( ) pre [ true ] {\n}\n";
    writes(alloc, "pale format", &text, want, 0)
}

#[test]
fn the_last_level_is_read(rt: HostRuntime) -> Result<(), Fail> {
    assert!(rt; levels_are_read(rt.alloc())?);
    Ok(())
}
