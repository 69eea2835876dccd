//! The triples of a procedure, in order of its cut points in the text.

ghost use Rattle.std.specs.Prelude.{◌≡◌, [], ◌∷◌, ◌++◌, map, IfOk, OnOk};
ghost use Rattle.hoare_split.specs.Cuts.{at_assertion};
ghost use Rattle.hoare_split.specs.Flows.{ends, branches};
ghost use Rattle.hoare_split.specs.Starts as starts;
ghost use Rattle.hoare_split.specs.Triples.{starts_of, triple_of};
ghost use Rattle.hoare_split.specs.Callers.{procs_of, entry_of, statement_in, block_in};
ghost use Rattle.hoare_triples.specs.Following.{flow_of};

use crate::codes::{branch, code_of};
use crate::reached::Reached;
use crate::rest::Rest;
use hoare_split::{Caller, call_start, entry_start, plain_start};
use pale_text::Pos;
use pale_typed::{Stmt, StmtList};
use plain_data::Items;
use std::alloc::{AllocError, Global};
use store_exec::{ItemList, Start, Triple};
use store_logic::{Assertion, Cond};

/// Triples in order.
pub type TripleList = Items<Triple>;

/// The triple of a cut point whose code is that of what follows.
fn triple_of(
    alloc: Global,
    caller: &Caller<'_>,
    place: Pos,
    start: Start,
    rest: Rest<'_>,
) -> Result<Triple, AllocError>
    ensures { IfOk result (λ triple. triple
        ≡ triple_of caller.now.number (record { place = place; start = start; flow = flow_of caller.now rest.entry })) }
{
    let mut reached = Reached::new(alloc);
    let code = code_of(alloc, caller, &mut reached, rest)?;
    Ok(Triple {
        proc: caller.number,
        line: place.line,
        start,
        code,
        cuts: reached.into_cuts(),
    })
}

/// Puts the triple of a cut point whose code is that of what follows at the end of the list.
fn push_triple(
    alloc: Global,
    caller: &Caller<'_>,
    place: Pos,
    start: Start,
    rest: Rest<'_>,
    triples: &mut TripleList,
) -> Result<(), AllocError>
    ensures { OnOk result (triples.new ≡ triples.old
        ++ triple_of caller.now.number (record { place = place; start = start; flow = flow_of caller.now rest.entry }) ∷ []) }
{
    let own = triple_of(alloc, caller, place, start, rest)?;
    triples.push(own)
}

/// The triple of a loop: a branch into its body, which arrives at the loop again, and what follows it.
fn loop_triple<'a>(
    alloc: Global,
    caller: &Caller<'_>,
    place: Pos,
    condition: &Cond,
    invariant: &'a Assertion,
    body: &'a StmtList,
    rest: Rest<'a>,
) -> Result<Triple, AllocError>
    ensures { IfOk result (λ triple. triple ≡ triple_of caller.now.number (record {
      place = place;
      start = starts.plain_start invariant.now;
      flow = branches place.line condition.now
          ((block_in caller.now body.now).flow (ends (at_assertion place invariant.now))) (flow_of caller.now rest.entry);
    })) }
{
    let start = plain_start(alloc, invariant)?;
    let mut reached = Reached::new(alloc);
    let again = Rest::Again(place, invariant);
    let taken = Rest::Then(body.as_slice(), &again);
    let items = ItemList::new(alloc);
    let code = branch(
        alloc,
        caller,
        &mut reached,
        items,
        place.line,
        condition,
        taken,
        rest,
    )?;
    Ok(Triple {
        proc: caller.number,
        line: place.line,
        start,
        code,
        cuts: reached.into_cuts(),
    })
}

/// Puts the triples that start in a statement at the end of the list.
#[cycle(points)]
fn split_stmt<'a>(
    alloc: Global,
    caller: &Caller<'_>,
    stmt: &'a Stmt,
    rest: Rest<'a>,
    triples: &mut TripleList,
) -> Result<(), AllocError>
    ensures { OnOk result (triples.new ≡ triples.old
        ++ map (triple_of caller.now.number) ((statement_in caller.now stmt.now).starts (flow_of caller.now rest.entry))) }
{
    match stmt {
        Stmt::Skip | Stmt::Do(_, _) => Ok(()),
        Stmt::If(_, _, yes, no) => {
            split_block(alloc, caller, yes.as_slice(), &rest, triples)?;
            split_block(alloc, caller, no.as_slice(), &rest, triples)
        }
        Stmt::While(place, condition, invariant, body) => {
            let own = loop_triple(alloc, caller, *place, condition, invariant, body, rest)?;
            triples.push(own)?;
            let again = Rest::Again(*place, invariant);
            split_block(alloc, caller, body.as_slice(), &again, triples)
        }
        Stmt::Split(place, assertion) => {
            let start = plain_start(alloc, assertion)?;
            push_triple(alloc, caller, *place, start, rest, triples)
        }
        Stmt::Call(place, call) => {
            let start = call_start(alloc, caller, call)?;
            push_triple(alloc, caller, *place, start, rest, triples)
        }
    }
}

/// The same of statements in order.
#[cycle(points)]
fn split_block<'a>(
    alloc: Global,
    caller: &Caller<'_>,
    block: &'a [Stmt],
    rest: &'a Rest<'a>,
    triples: &mut TripleList,
) -> Result<(), AllocError>
    ensures { OnOk result (triples.new ≡ triples.old
        ++ map (triple_of caller.now.number) ((block_in caller.now block.now).starts (flow_of caller.now rest.now))) }
{
    let mut left = block;
    while let Some((stmt, more)) = left.split_first() {
        split_stmt(alloc, caller, stmt, Rest::Then(more, rest), triples)?;
        left = more;
    }
    Ok(())
}

/// Puts the triples of a procedure at the end of the list: that of its entry, and then those of its statements.
pub(crate) fn split_procedure(
    alloc: Global,
    caller: &Caller<'_>,
    triples: &mut TripleList,
) -> Result<(), AllocError>
    ensures { OnOk result (triples.new ≡ triples.old
        ++ map (triple_of caller.now.number)
        (starts_of (procs_of caller.now) (entry_of caller.now))) }
{
    let body = caller.proc.body.as_slice();
    let start = entry_start(alloc, caller)?;
    let whole = Rest::Then(body, &Rest::Exit);
    push_triple(alloc, caller, caller.proc.place, start, whole, triples)?;
    split_block(alloc, caller, body, &Rest::Exit, triples)
}
