//! Answers each text of a bundle by the crates of decision nodes and core formulas, of which no text of `pale` shows what stands
//! here. The file `stdin` has the bundle, and `stdout` what has to be written for it.
//!
//! What stands in front of the first head is a comment. A head is a line `=== NAME OPERATION WORDS`. The text goes from behind
//! the head up to the newline before the next head, or to the end of the bundle. For each text the head is written, and then
//! each line with a colon and what the operation gives for it. An unknown word is answered by `unknown`.
//!
//! - `joins LIMIT`: what joins, restrictions and renamings give of two functions in a shelf of its own, and what is left there.
//! - `graph`: a line is a form over tracks and numbers, which gets a number, or asks for what has one: `parts 3` and `form 3`, or
//!   the number of a large formula, `negations 9`, `zigzag 9` or `doubled 9`, with its size.
#![tactic(auto)]

mod bundle;
mod graphs;
mod joins;
mod lines;

use crate::bundle::show_texts;
use anyhow::Result;
use pale_io::{StdSink, StdSource, read_all};

/// The most bytes that a bundle may have.
const MOST_BYTES: usize = 16_777_216;

fn main(rt: HostRuntime) -> Result<()> {
    let mut source = StdSource::new(rt.stdin());
    let bundle = read_all(rt.alloc(), &mut source, MOST_BYTES)?;
    show_texts(rt.alloc(), &bundle, &mut StdSink::new(rt.stdout()))
}
