//! The texts of a bundle, one after the other.

ghost use Rattle.pale_typed.specs.Fitting.{ProgramFits};

use crate::formulas::write_views;
use crate::lines::{Stop, word_at};
use crate::programs::{layout_of, program_of};
use crate::stores::write_stores;
use anyhow::bail;
use pale_io::{Sink, write_all};
use pale_typed::Typed;
use plain_writer::Writer;
use std::alloc::Global;
use tree_encode::Layout;

/// What stands in front of the name in each head.
const HEAD: &str = "\n=== ";

/// Writes a head as it stands in the bundle.
fn write_head(out: &mut Writer, head: &str) {
    out.push_all(b"=== ");
    out.push_all(head.as_bytes());
    out.push(b'\n');
}

/// Writes what an operation gives over a layout.
fn write_over(
    alloc: Global,
    head: &str,
    layout: &Layout<'_>,
    program: &str,
    rest: &str,
    out: &mut Writer,
) -> Result<(), Stop> {
    match word_at(head, 1) {
        "formulas" => write_views(alloc, layout, program, rest, out),
        "stores" => write_stores(alloc, layout, rest, out),
        _ => Err(Stop),
    }
}

/// Writes what an operation gives over the layout of a program.
fn write_program(
    alloc: Global,
    head: &str,
    typed: &Typed,
    program: &str,
    rest: &str,
    out: &mut Writer,
) -> Result<(), Stop>
    requires { ProgramFits typed.now }
{
    let layout = layout_of(alloc, typed, word_at(head, 2) == "spare")?;
    write_over(alloc, head, &layout, program, rest, out)
}

/// Writes what the text behind a head gives.
fn write_text(alloc: Global, head: &str, text: &str, out: &mut Writer) -> Result<(), Stop> {
    let (program, rest) = text.split_once("\n\n").unwrap_or((text, ""));
    let typed = program_of(alloc, program.as_bytes())?;
    write_program(alloc, head, &typed, program, rest, out)
}

/// Writes what each text of a bundle gives.
fn write_texts(alloc: Global, bundle: &str, out: &mut Writer) -> Result<(), Stop> {
    for part in bundle.split(HEAD).skip(1) {
        let (head, text) = part.split_once('\n').unwrap_or((part, ""));
        write_head(out, head);
        write_text(alloc, head, text, out)?;
    }
    Ok(())
}

/// What is written for a bundle.
fn answers(alloc: Global, bundle: &str) -> Result<Vec<u8>, Stop> {
    let mut out = Writer::new(alloc);
    write_texts(alloc, bundle, &mut out)?;
    Ok(out.finish()?)
}

/// Shows each text of a bundle.
pub(crate) fn show_texts<K: Sink>(
    alloc: Global,
    bundle: &[u8],
    sink: &mut K,
) -> anyhow::Result<()> {
    let Ok(text) = answers(alloc, str::from_utf8(bundle)?) else {
        bail!("an unknown word, or want of memory");
    };
    Ok(write_all(sink, &text)?)
}
