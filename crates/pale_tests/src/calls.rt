//! Calls of the program on a text in memory.

use pale_io::{CleanSink, CleanSource};
use pale_top::pale_main;
use std::alloc::{AllocError, Global};
use ws2s_pass::PassList;

/// The words of a line.
pub(crate) fn words_of(alloc: Global, line: &str) -> Result<Vec<String>, AllocError> {
    let mut words = Vec::new(alloc);
    for word in line.split_whitespace() {
        words.push(String::from_str(alloc, word)?)?;
    }
    Ok(words)
}

/// Whether `pale`, with the words of this line, writes this for a text, without passes, with this status.
pub(crate) fn writes(
    alloc: Global,
    line: &str,
    text: &[u8],
    want: &[u8],
    number: u8,
) -> Result<bool, AllocError> {
    let words = words_of(alloc, line)?;
    let mut source = CleanSource::new(Vec::from_slice(alloc, text)?);
    let mut sink = CleanSink::new(alloc);
    let status = pale_main(alloc, &words, &mut source, &mut sink, &PassList::new(alloc));
    Ok(sink.written() == want && status.number() == number)
}
