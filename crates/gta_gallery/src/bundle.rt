//! The texts of a bundle, one after the other.

ghost use Rattle.std.specs.Prelude.{◌≤◌};

use crate::built::answer_built;
use crate::chains::answer_chain;
use crate::lines::{number_of, word_at, write_unknown};
use crate::steps::answer_literal;
use anyhow::Result;
use bdd_walk::Stop;
use pale_io::{Sink, write_all};
use plain_writer::Writer;
use std::alloc::Global;

/// What stands in front of the name in each head.
const HEAD: &str = "\n=== ";

/// The most nodes that a shelf may have.
const MOST_NODES: u32 = 16_000_000;

/// The limit of a word: at least 1, and not too high.
fn limit_of(word: &str) -> u32
    ensures some { 1 ≤ result }
    ensures small { result ≤ 16000000 }
{
    let limit = number_of(word);
    if limit == 0 {
        1
    } else if limit > MOST_NODES {
        MOST_NODES
    } else {
        limit
    }
}

/// Writes what a line asks for.
fn answer(alloc: Global, head: &str, line: &str, out: &mut Writer) -> Result<(), Stop> {
    match word_at(head, 1) {
        "automata" => {
            let limit = limit_of(word_at(head, 3));
            answer_literal(alloc, word_at(head, 2), limit, line, out)
        }
        "built" => answer_built(alloc, line, out),
        "chains" => answer_chain(alloc, line, out),
        _ => {
            write_unknown(out);
            Ok(())
        }
    }
}

/// Writes each line of a text with what it asks for.
fn answer_lines(alloc: Global, head: &str, text: &str, out: &mut Writer) -> Result<(), Stop> {
    for line in text.lines() {
        out.push_all(line.as_bytes());
        out.push(b':');
        answer(alloc, head, line, out)?;
        out.push(b'\n');
    }
    Ok(())
}

/// Writes a head as it stands in the bundle, and what the lines of its text ask for.
fn answer_text(alloc: Global, head: &str, text: &str, out: &mut Writer) -> Result<(), Stop> {
    out.push_all(b"=== ");
    out.push_all(head.as_bytes());
    out.push(b'\n');
    answer_lines(alloc, head, text, out)
}

/// Writes what each text of a bundle asks for.
fn answer_texts(alloc: Global, bundle: &str, out: &mut Writer) -> Result<(), Stop> {
    for part in bundle.split(HEAD).skip(1) {
        let (head, text) = part.split_once('\n').unwrap_or((part, ""));
        answer_text(alloc, head, text, out)?;
    }
    Ok(())
}

/// What is written for a bundle.
fn answers(alloc: Global, bundle: &str) -> Result<Vec<u8>, Stop> {
    let mut out = Writer::new(alloc);
    answer_texts(alloc, bundle, &mut out)?;
    Ok(out.finish()?)
}

/// Shows each text of a bundle.
pub(crate) fn show_texts<K: Sink>(alloc: Global, bundle: &[u8], sink: &mut K) -> Result<()> {
    let text = answers(alloc, str::from_utf8(bundle)?)?;
    Ok(write_all(sink, &text)?)
}
