//! Answers each text of a bundle by the crates of stores and their trees: layouts, trees, stores that are read off trees, and
//! formulas after heap events, which no text of `pale` shows. The file `stdin` has the bundle, and `stdout` what has to be written.
//!
//! What stands in front of the first head is a comment. A head is a line `=== NAME OPERATION WORDS`. The text goes from behind
//! the head up to the newline before the next head, or to the end of the bundle. For each text the head is written, and then
//! what the operation gives. An unknown word ends the run with a status that isn't 0.
//!
//! A text is sections with an empty line between them. The first one is a program: its types and the variables of its first
//! procedure are those of a layout.
//!
//! - `stores`, or `stores spare` with a spare slot: the further sections are stores. Written are the numbers of the layout, its
//!   guide, and for each store its tree and the store that is read off it.
//! - `formulas`: the second section is a scene, and the further ones are views. A line that begins with `? ` asks for a formula
//!   after the events of the view, and one in the scene of each view. Where the scene has positions, it is written where the
//!   formula holds of them, and else how it is spelled.
#![tactic(auto)]

mod asked;
mod bundle;
mod formulas;
mod layouts;
mod lines;
mod places;
mod programs;
mod spelling;
mod stores;
mod views;

use crate::bundle::show_texts;
use anyhow::Result;
use pale_io::{StdSink, StdSource, read_all};

/// The most bytes that a bundle may have.
const MOST_BYTES: usize = 16_777_216;

fn main(rt: HostRuntime) -> Result<()> {
    let mut source = StdSource::new(rt.stdin());
    let bundle = read_all(rt.alloc(), &mut source, MOST_BYTES)?;
    show_texts(rt.alloc(), &bundle, &mut StdSink::new(rt.stdout()))
}
