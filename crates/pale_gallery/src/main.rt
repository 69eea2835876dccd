//! Answers each text of a bundle as `pale` would, so that a run of the gate compares the stored outputs of `examples/` and
//! of the pages. `tools/make_gallery.py` makes the bundle, the file `stdin`, and what has to be written for it, `stdout`.
//!
//! What stands in front of the first head is a comment. A head is a line `=== NAME WORDS`: NAME says where the text is from,
//! and stands in the place of the program's name, and WORDS are the words of the call. The text goes from behind the head
//! up to the newline before the next head, or to the end of the bundle. No line of a text begins with `=== `.
//!
//! For each text the head is written, then what `pale` writes for the words and the text, without passes, and then a line
//! `status N`. Want of memory and a fault end the run with a status that isn't 0.
#![tactic(auto)]

mod bundle;
mod showing;

use crate::bundle::show_texts;
use anyhow::Result;
use pale_io::{StdSink, StdSource, read_all};

/// The most bytes that a bundle may have.
const MOST_BYTES: usize = 16_777_216;

fn main(rt: HostRuntime) -> Result<()> {
    let mut source = StdSource::new(rt.stdin());
    let mut sink = StdSink::new(rt.stdout());
    let bundle = read_all(rt.alloc(), &mut source, MOST_BYTES)?;
    show_texts(rt.alloc(), str::from_utf8(&bundle)?, &mut sink)
}
