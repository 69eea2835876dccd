//! What comes of a run of a text.

ghost use Rattle.std.specs.Prelude.{◌≡◌, ◌<◌, length, slice_get, option_map, Some, IsTrue, IfOk};
ghost use Rattle.store_core.specs.Stores.{Fits, IsFresh};
ghost use Rattle.pale_typed.specs.Fitting.{ProgramFits};

use pale_typed::Typed;
use plain_writer::Writer;
use routing_expr::well_formed;
use routing_walks::well_formed_stores_are_fresh;
use std::alloc::{AllocError, Global};
use store_core::{CellId, Store, Value, VarTable};
use store_exec::Cause;
use store_text::{read_store, read_stores_fit};
use whole_exec::{Answer, run_procedure};
use whole_program::read_program;

/// What is to come of a run.
#[derive(Clone, Copy)]
pub(crate) enum Want {
    Running,
    Fail(Cause, u32),
    /// With this told of the store.
    Exit(&'static str),
}

/// Whether the store is well-formed, and so fresh.
fn is_fresh(
    alloc: Global,
    program: &Typed,
    vars: &VarTable,
    store: &Store,
) -> Result<bool, AllocError>
    requires { Fits program.now.types vars.now store.now }
    ensures { IfOk result (λ fresh. IsTrue fresh → IsFresh store.now) }
{
    well_formed_stores_are_fresh();
    match well_formed(alloc, program.types(), vars, store)? {
        Some(_) => Ok(false),
        None => Ok(true),
    }
}

/// What comes of a run from a store that fits and is fresh.
fn started(
    alloc: Global,
    program: &Typed,
    number: u32,
    vars: &VarTable,
    store: Store,
    steps: u32,
) -> Result<Answer, AllocError>
    requires program { ProgramFits program.now }
    requires vars { option_map (λ entry. entry.vars) (slice_get program.now.procs number) ≡ Some vars.now }
    requires fits { Fits program.now.types vars.now store }
    requires fresh { IsFresh store }
    requires next { store.next < 1000001 }
    requires steps { steps < 1000001 }
{
    run_procedure(alloc, program, number, store, steps)
}

/// What the digits of a `u32` stand for.
const UNITS: [u32; 10] = [
    1_000_000_000,
    100_000_000,
    10_000_000,
    1_000_000,
    100_000,
    10_000,
    1_000,
    100,
    10,
    1,
];

/// Writes a space and the number of the cell.
fn push_cell(out: &mut Writer, cell: CellId) {
    out.push(b' ');
    for unit in UNITS {
        let digit = cell.0.checked_div(unit).unwrap_or(0) % 10;
        if unit <= cell.0 || unit == 1 {
            out.push(b'0'.wrapping_add(digit as u8));
        }
    }
}

fn push_cells(out: &mut Writer, cells: &[CellId]) {
    out.push_all(b" {");
    for cell in cells {
        push_cell(out, *cell);
    }
    out.push_all(b" }");
}

fn push_value(out: &mut Writer, value: &Value) {
    match value {
        Value::Bool(true) => out.push_all(b" true"),
        Value::Bool(false) => out.push_all(b" false"),
        Value::Cell(None) => out.push_all(b" null"),
        Value::Cell(Some(cell)) => push_cell(out, *cell),
        Value::Cells(cells) => push_cells(out, cells.as_slice()),
    }
}

/// The next number, the values of the variables in order, and the numbers of the cells.
fn told_of(alloc: Global, store: &Store) -> Result<Vec<u8>, AllocError> {
    let mut out = Writer::new(alloc);
    out.push_all(b"next");
    push_cell(&mut out, CellId(store.next()));
    out.push(b':');
    for value in store.values() {
        push_value(&mut out, value);
    }
    out.push(b';');
    for place in 0..store.cells() {
        if let Some(cell) = store.cell_at(place) {
            push_cell(&mut out, cell);
        }
    }
    out.finish()
}

fn is_wanted(alloc: Global, answer: &Answer, want: Want) -> Result<bool, AllocError> {
    match (answer, want) {
        (Answer::Running, Want::Running) => Ok(true),
        (Answer::Fail(cause, line), Want::Fail(other, there)) => {
            Ok(*cause == other && *line == there)
        }
        (Answer::Exit(store), Want::Exit(told)) => {
            let text = told_of(alloc, store)?;
            Ok(text.as_slice() == told.as_bytes())
        }
        _ => Ok(false),
    }
}

/// Whether this comes of a run from the store.
fn comes_from(
    alloc: Global,
    program: &Typed,
    number: u32,
    vars: &VarTable,
    store: Store,
    steps: u32,
    want: Want,
) -> Result<bool, AllocError>
    requires program { ProgramFits program.now }
    requires vars { option_map (λ entry. entry.vars) (slice_get program.now.procs number) ≡ Some vars.now }
    requires fits { Fits program.now.types vars.now store }
{
    let fresh = is_fresh(alloc, program, vars, &store)?;
    if !fresh || store.next() > 1_000_000 || steps > 1_000_000 {
        return Ok(false);
    }
    let answer = started(alloc, program, number, vars, store, steps)?;
    is_wanted(alloc, &answer, want)
}

/// Whether this comes of a run of a procedure of the program.
fn comes_over(
    alloc: Global,
    program: &Typed,
    number: u32,
    store: &[u8],
    steps: u32,
    want: Want,
) -> Result<bool, AllocError>
    requires program { ProgramFits program.now }
    requires store { length store.now < u32.MAX }
{
    read_stores_fit();
    let Some(vars) = program.vars(number) else {
        return Ok(false);
    };
    let Ok(read) = read_store(alloc, program.types(), vars, store) else {
        return Ok(false);
    };
    comes_from(alloc, program, number, vars, read, steps, want)
}

/// Whether this comes of a run of the procedure with this number from the store, for so many steps at most.
pub(crate) fn comes(
    alloc: Global,
    text: &[u8],
    number: u32,
    store: &[u8],
    steps: u32,
    want: Want,
) -> Result<bool, AllocError> {
    if text.len() >= 100_000 || store.len() >= 100_000 {
        return Ok(false);
    }
    let Ok(whole) = read_program(alloc, text) else {
        return Ok(false);
    };
    comes_over(alloc, &whole.typed, number, store, steps, want)
}
