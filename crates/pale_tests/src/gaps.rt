//! Texts with bytes that no page shows: tabs, carriage returns, and what is no text.

use crate::calls::writes;
use std::test::Fail;

/// Words, a text, what is written for it, and the status.
static GAPS: &[(&str, &[u8], &[u8], u8)] = &[
    (
        "pale check",
        b"",
        b"triples 0 valid 0 invalid 0 limit 0\n",
        0,
    ),
    (
        "pale check",
        b" \t\r\n",
        b"triples 0 valid 0 invalid 0 limit 0\n",
        0,
    ),
    (
        "pale check",
        b"# nothing but \xff and \x00",
        b"triples 0 valid 0 invalid 0 limit 0\n",
        0,
    ),
    (
        "pale check",
        b"proc p()\r\n{\tskip\t;\r\n}\r\n",
        b"triple 1 p line 1 valid\ntriples 1 valid 1 invalid 0 limit 0\n",
        0,
    ),
    (
        "pale format",
        b"\n\n  proc p() # the head\r\n{\tskip\t;skip;\r\n}\r\n",
        b"proc p ( ) {\nskip ;\nskip ;\n}\n",
        0,
    ),
    ("pale format", b" \t\r\n", b"", 0),
    ("pale format", b"# nothing but a comment \xff\x00", b"", 0),
    (
        "pale format",
        b"proc\tp\r(\r\n)\t{\r}",
        b"proc p ( ) {\n}\n",
        0,
    ),
    (
        "pale format",
        b"proc # \x00\xff { ~\r\np() { } # the end",
        b"proc p ( ) {\n}\n",
        0,
    ),
    ("pale ws2s", b"ws2s # a comment\r\n\t;", b"valid\n", 0),
    // Lines end by LF alone, and each byte is a column.
    ("pale ws2s", b" \t", b"refused 1:3 syntax\n", 3),
    ("pale format", b"proc a\r\n\tb", b"refused 2:2 syntax\n", 3),
    ("pale format", b"type\r\n\tb", b"refused 2:3 syntax\n", 3),
    (
        "pale format",
        b"#\xff\x00\xf0\r\n;",
        b"refused 2:1 syntax\n",
        3,
    ),
    // Bytes that begin no token.
    ("pale format", b"\x80", b"refused 1:1 char\n", 3),
    ("pale format", b"# \x80\n\xc3", b"refused 2:1 char\n", 3),
    ("pale format", b"a\x0bb", b"refused 1:2 char\n", 3),
    ("pale format", b"\x00", b"refused 1:1 char\n", 3),
    ("pale format", b"ab % \x80", b"refused 1:4 char\n", 3),
];

#[test]
fn gaps_and_comments_take_any_bytes(rt: HostRuntime) -> Result<(), Fail> {
    for (words, text, want, number) in GAPS {
        assert!(rt; writes(rt.alloc(), words, text, want, *number)?, "{text:?}");
    }
    Ok(())
}
