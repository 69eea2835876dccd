//! What is written for one text.
ghost use Rattle.std.specs.Prelude.{◌≡◌, IfSome, OnOk, map};
ghost use Rattle.std.specs.String.{string_bytes};
ghost use Rattle.pale_io.specs.Whole.{WritesAll};
ghost use Rattle.pale_top.specs.Output.{IsAnswer};
ghost use Rattle.pale_status.specs.Statuses.{number_of};
ghost use Rattle.pale_gallery.specs.Shown.{Shows, head_line, status_line};

use anyhow::{Context, Result};
use pale_io::{CleanSource, Sink, write_all};
use pale_top::{Status, pale_main};
use std::alloc::Global;
use ws2s_pass::PassList;

/// Writes a head as it stands in the bundle.
pub(crate) fn show_head<K: Sink>(alloc: Global, head: &str, sink: &mut K) -> Result<()>
    ensures { OnOk result (WritesAll (K.written sink.old) (K.written sink.new) (head_line head.now)) }
{
    let line = format!(in alloc; "=== {head}\n")?;
    write_all(sink, line.as_bytes())?;
    Ok(())
}

/// The number of a status that is an answer, and not want of memory or a fault.
fn answer_number(status: Status) -> Option<u8>
    ensures { IfSome result (λ number. IsAnswer status × (number ≡ number_of status)) }
{
    match status {
        Status::Good | Status::Bad | Status::Words | Status::Text | Status::Limit => {
            Some(status.number())
        }
        Status::Memory | Status::ReadFault | Status::WriteFault => None,
    }
}

/// Writes a line with a status that is an answer. At any other one nothing is written.
fn show_status<K: Sink>(alloc: Global, status: Status, sink: &mut K) -> Result<()>
    ensures { OnOk result (IsAnswer status × WritesAll (K.written sink.old) (K.written sink.new) (status_line status)) }
{
    let number = answer_number(status).context("a call ended without an answer")?;
    let line = format!(in alloc; "status {number}\n")?;
    write_all(sink, line.as_bytes())?;
    Ok(())
}

/// Writes what `pale` writes for these words and this text, and a line with the status.
pub(crate) fn show_text<K: Sink>(
    alloc: Global,
    words: &Vec<String>,
    text: &[u8],
    sink: &mut K,
) -> Result<()>
    ensures { OnOk result (Shows (map string_bytes words.now.items) text.now (K.written sink.old) (K.written sink.new)) }
{
    let mut source = CleanSource::new(Vec::from_slice(alloc, text)?);
    let status = pale_main(alloc, words, &mut source, sink, &PassList::new(alloc));
    show_status(alloc, status, sink)
}
