//! The texts of a bundle, one after the other.

use crate::showing::{show_head, show_text};
use anyhow::Result;
use pale_io::Sink;
use std::alloc::{AllocError, Global};

/// What stands in front of the name in each head.
const HEAD: &str = "\n=== ";

/// The words of a head.
fn words_of(alloc: Global, head: &str) -> Result<Vec<String>, AllocError> {
    head.split_whitespace()
        .map(|word| String::from_str(alloc, word))
        .try_collect(alloc)
}

/// Shows a text with its head in front of it.
fn show<K: Sink>(alloc: Global, part: &str, sink: &mut K) -> Result<()> {
    let (head, text) = part.split_once('\n').unwrap_or((part, ""));
    show_head(alloc, head, sink)?;
    show_text(alloc, &words_of(alloc, head)?, text.as_bytes(), sink)
}

/// Shows each text of a bundle.
pub(crate) fn show_texts<K: Sink>(alloc: Global, bundle: &str, sink: &mut K) -> Result<()> {
    for part in bundle.split(HEAD).skip(1) {
        show(alloc, part, sink)?;
    }
    Ok(())
}
