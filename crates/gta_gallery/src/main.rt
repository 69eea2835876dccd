//! Answers each text of a bundle by the crates of automata, of which no text of `pale` shows what stands here. The file `stdin` has
//! the bundle, and `stdout` what has to be written for it.
//!
//! What stands in front of the first head is a comment. A head is a line `=== NAME OPERATION WORDS`. The text goes from behind
//! the head up to the newline before the next head, or to the end of the bundle. For each text the head is written, and then
//! each line with a colon and what the operation gives for it. An unknown word is answered by `unknown`.
//!
//! - `automata GUIDE LIMIT`: each line makes an automaton in a shelf of its own with room for so many nodes (`guides`). The first
//!   word is a literal, whose minimal automaton is made (`literals`); each further word is a step to the next automaton (`steps`)
//!   or something that is written of it (`looks`). A full shelf ends the line with `limit`. At its end stands how many nodes are
//!   left without the last automaton.
//! - `built`: the same of an automaton by hand, where the first word says which of its three states accept.
//! - `chains`: a line has rows, columns and `least` with tracks, as in `looks`: the lightest tree of a chain of states in a grid.
#![tactic(auto)]

mod agreeing;
mod built;
mod bundle;
mod chain;
mod chains;
mod grid;
mod guides;
mod lines;
mod literals;
mod looks;
mod steps;
mod trees;

use crate::bundle::show_texts;
use anyhow::Result;
use pale_io::{StdSink, StdSource, read_all};

/// The most bytes that a bundle may have.
const MOST_BYTES: usize = 16_777_216;

fn main(rt: HostRuntime) -> Result<()> {
    let mut source = StdSource::new(rt.stdin());
    let bundle = read_all(rt.alloc(), &mut source, MOST_BYTES)?;
    show_texts(rt.alloc(), &bundle, &mut StdSink::new(rt.stdout()))
}
