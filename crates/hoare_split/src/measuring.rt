//! The counts of all codes of a procedure, by one pass from its end to its head. No code is built for them.

ghost use Rattle.std.specs.Prelude.{◌≡◌, length, min};
ghost use Rattle.hoare_split.specs.Picking.{those, is_awaited};
ghost use Rattle.hoare_split.specs.Flows.{Flow};
ghost use Rattle.hoare_split.specs.Triples.{count_fault, procedure_fault};
ghost use Rattle.hoare_split.specs.Callers.{procs_of, vars_of, entry_of, statement_in, block_in};
ghost use Rattle.hoare_split.specs.Measures.{count_of, or_later, first_fault};

use crate::caller::Caller;
use crate::counts::Count;
use crate::picking::{Pick, picked_count};
use crate::plain::is_cut;
use pale_text::{Pos, Refusal};
use pale_typed::{CallParts, Stmt};

/// The first fault of the triples from a place of the text on.
pub type Found = Option<Refusal>;

/// Looks at the triple that starts at the place, which comes before those that were looked at.
fn look(place: Pos, code: Count, found: &mut Found)
    ensures { found.new ≡ or_later (count_fault place code.atoms code.news) found.old }
{
    if let Some(refusal) = code.fault(place) {
        *found = Some(refusal);
    }
}

/// The count of the code of statements and of what follows them, which has this count.
#[cycle(measuring)]
pub(crate) fn measure_block(
    caller: &Caller<'_>,
    block: &[Stmt],
    rest: Count,
    found: &mut Found,
) -> Count
    ensures count { (flow : Flow) → rest ≡ count_of flow → result ≡ count_of ((block_in caller.now block.now).flow flow) }
    ensures found { (flow : Flow) → rest ≡ count_of flow →
        found.new ≡ first_fault ((block_in caller.now block.now).starts flow) found.old }
{
    let mut count = rest;
    let mut left = block;
    while let Some((last, before)) = left.split_last() {
        count = measure(caller, last, count, found);
        left = before;
    }
    count
}

/// The count of the settings before a call.
fn settings_before(caller: &Caller<'_>, call: &CallParts) -> Count
    ensures { result ≡ record { atoms = min 129 (length (those (is_awaited call.now) (vars_of caller.now))); news = 0 } }
{
    Count::of_atoms(picked_count(caller.vars, Pick::Awaited(call)))
}

/// The count of the code of a statement and of what follows it, which has this count. What follows a plain `if` stands behind it
/// once, and what follows a branch in both of its codes.
#[cycle(measuring)]
fn measure(caller: &Caller<'_>, stmt: &Stmt, rest: Count, found: &mut Found) -> Count
    ensures count { (flow : Flow) → rest ≡ count_of flow → result ≡ count_of ((statement_in caller.now stmt.now).flow flow) }
    ensures found { (flow : Flow) → rest ≡ count_of flow →
        found.new ≡ first_fault ((statement_in caller.now stmt.now).starts flow) found.old }
{
    match stmt {
        Stmt::Skip => rest,
        Stmt::Do(_, act) => Count::of_act(act).and(rest),
        Stmt::If(_, _, yes, no) => {
            let cut = is_cut(stmt);
            let inside = if cut { rest } else { Count::ZERO };
            let other = measure_block(caller, no.as_slice(), inside, found);
            let taken = measure_block(caller, yes.as_slice(), inside, found);
            let both = Count::of_atoms(1).and(taken).and(other);
            if cut { both } else { both.and(rest) }
        }
        Stmt::While(place, _, _, body) => {
            let again = measure_block(caller, body.as_slice(), Count::ZERO, found);
            look(*place, Count::of_atoms(1).and(again).and(rest), found);
            Count::ZERO
        }
        Stmt::Split(place, _) => {
            look(*place, rest, found);
            Count::ZERO
        }
        Stmt::Call(place, call) => {
            look(*place, rest, found);
            settings_before(caller, call)
        }
    }
}

/// The first fault of a procedure's triples.
pub fn first_fault(caller: &Caller<'_>) -> Found
    ensures { result ≡ procedure_fault (procs_of caller.now) (entry_of caller.now) }
{
    let mut found = None;
    let exit = Count::of_atoms(picked_count(caller.vars, Pick::Left(caller.proc)));
    let body = measure_block(caller, caller.proc.body.as_slice(), exit, &mut found);
    look(caller.proc.place, body, &mut found);
    found
}
