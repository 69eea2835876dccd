//! A store text as the store that it spells.

ghost use Rattle.std.specs.Prelude.{◌≡◌, ◌<◌, ◌+◌, ◌≤◌, length, codes, Ok, IfOk, IfErr};
ghost use Rattle.std.specs.List.{find};
ghost use Rattle.std.specs.Str.{bytes_eq};
ghost use Rattle.store_text.specs.Lines.{lines_of};
ghost use Rattle.store_text.specs.Reading.{IsFaultOf, reading, read_end, is_misnamed, IsFault};

mod draft;
mod fields;
mod forms;
mod holds;
mod lines;
mod spelled;
mod values;

use crate::fault::{StoreFault, StoreKind};
use crate::read::draft::Draft;
use crate::read::holds::Mention;
use crate::read::lines::split_line;
use std::alloc::Global;
use store_core::{Store, TypeTable, VarTable};

/// The store that a text spells, by the lines `store`, `var NAME VALUE`, `cell N TYPE F=VALUE ..` and `end`. The text has
/// fewer bytes than the greatest `u32`, so that each line's number fits one.
///
/// The fault is the one at the first line that has any, and within a line the first from the left; the cells that values
/// name are looked at once all lines are read. `NoMemory` says nothing of the text. The time is linear in the text but for
/// the logarithm that looking up a cell takes.
pub fn read_store(
    alloc: Global,
    types: &TypeTable,
    vars: &VarTable,
    text: &[u8],
) -> Result<Store, StoreFault>
    requires { length text.now < u32.MAX }
    ensures store { IfOk result (λ store. reading types.now vars.now text.now ≡ Ok store) }
    ensures fault { IfErr result (IsFault types.now vars.now text.now) }
{
    if text.is_empty() {
        return Err(fault_at(1, StoreKind::Missing));
    }
    let (first, mut left) = split_line(text);
    if !is_start(first) {
        return Err(fault_at(1, StoreKind::Syntax));
    }
    let mut draft = match Draft::new(alloc, vars) {
        Ok(draft) => draft,
        Err(_) => return Err(fault_at(1, StoreKind::NoMemory)),
    };
    let mut line = 2;
    while !left.is_empty() {
        let (front, after) = split_line(left);
        if is_end(front) {
            return read_end(alloc, draft, line, after);
        }
        if let Err(kind) = draft.say_line(alloc, types, vars, line, front) {
            return Err(fault_at(line, kind));
        }
        line += 1;
        left = after;
    }
    Err(fault_at(line, StoreKind::Missing))
}

/// Whether a line is `store`.
fn is_start(line: &[u8]) -> bool
    ensures { result ≡ bytes_eq line.now (codes "store") }
{
    line == b"store".as_slice()
}

/// Whether a line is `end`.
fn is_end(line: &[u8]) -> bool
    ensures { result ≡ bytes_eq line.now (codes "end") }
{
    line == b"end".as_slice()
}

/// A fault of this kind at a line.
fn fault_at(line: u32, kind: StoreKind) -> StoreFault
    ensures { result ≡ record { line = line; kind = kind } }
{
    StoreFault { line, kind }
}

/// The store at the line `end`, after which this much of the text is left.
fn read_end(alloc: Global, draft: Draft, line: u32, after: &[u8]) -> Result<Store, StoreFault>
    requires { line + length after.now < u32.MAX }
    ensures store { IfOk result (λ store. read_end line draft (lines_of after.now) ≡ Ok store) }
    ensures fault { IfErr result (IsFaultOf (read_end line draft (lines_of after.now))) }
{
    let (store, mentions) = match draft.into_store(alloc) {
        Ok(made) => made,
        Err(kind) => return Err(fault_at(line, kind)),
    };
    if !after.is_empty() {
        return Err(fault_at(line + 1, StoreKind::Syntax));
    }
    match misnamed(&store, mentions.as_slice()) {
        None => Ok(store),
        Some(mention) => Err(fault_at(mention.line, StoreKind::WrongType)),
    }
}

/// Whether the cell named is live and of another type.
fn is_misnamed(store: &Store, mention: Mention) -> bool
    ensures { result ≡ is_misnamed store.now mention }
{
    match store.type_of(mention.cell) {
        None => false,
        Some(ty) => ty != mention.target,
    }
}

/// The first place where a cell of another type is named.
fn misnamed(store: &Store, mentions: &[Mention]) -> Option<Mention>
    ensures { result ≡ find (is_misnamed store.now) mentions.now }
{
    for mention in mentions {
        if is_misnamed(store, *mention) {
            return Some(*mention);
        }
    }
    None
}
