//! One token after the other.

ghost use Rattle.std.specs.Prelude.{◌≡◌, IfOk};
ghost use Rattle.ll1_reader.specs.Readings.{Row};
ghost use Rattle.ll1_reader.specs.Moves.{IsReady};
ghost use Rattle.ll1_reader.specs.Frames.{stack_of};
ghost use Rattle.ll1_reader.specs.Advancing.{Advances, TakesToken, Exposes, IsFed, IsFinished};

use crate::grammar::Grammar;
use crate::predict::choose;
use crate::symbol::{Event, Symbol};
use crate::work::{Work, push_done, push_row, push_rows};
use std::alloc::AllocError;

/// What became of a step between two tokens.
#[derive(Clone, Copy)]
pub(crate) enum Advance {
    /// One move was made.
    Moved,
    /// A token stands on top.
    Ready,
    /// Nothing that may stand there begins with what comes next.
    Stuck,
}

/// What became of a token.
#[derive(Clone, Copy)]
pub(crate) enum Fed {
    /// It is read.
    Read,
    /// It can't stand there.
    Wrong,
    /// It would open a level above the limit.
    Deep,
}

/// One step where this row stands on top, at this depth.
fn make_move<'a, G: Grammar>(
    work: &mut Work<'a, G::Nonterminal, G::Act, G::Kind>,
    row: &'a [Symbol<G::Nonterminal, G::Act, G::Kind>],
    depth: u32,
    next: Option<G::Kind>,
) -> Result<Advance, AllocError>
    ensures { IfOk result (Advances G.rules G.table next row.now depth work.old work.new) }
{
    let Some((symbol, rest)) = row.split_first() else {
        return Ok(Advance::Moved);
    };
    match *symbol {
        Symbol::Read(_) | Symbol::Open(_) => {
            push_row(work, row, depth)?;
            Ok(Advance::Ready)
        }
        Symbol::Act(act) => {
            push_done(work, act, rest, depth)?;
            Ok(Advance::Moved)
        }
        Symbol::Once(nonterminal) => {
            let Some(production) = choose::<G>(nonterminal, next) else {
                return Ok(Advance::Stuck);
            };
            push_rows(work, rest, G::row(production), depth)?;
            Ok(Advance::Moved)
        }
        Symbol::Maybe(nonterminal) => {
            push_row(work, rest, depth)?;
            if let Some(production) = choose::<G>(nonterminal, next) {
                push_row(work, G::row(production), depth)?;
            }
            Ok(Advance::Moved)
        }
        Symbol::Many(nonterminal) => {
            let Some(production) = choose::<G>(nonterminal, next) else {
                push_row(work, rest, depth)?;
                return Ok(Advance::Moved);
            };
            push_rows(work, row, G::row(production), depth)?;
            Ok(Advance::Moved)
        }
    }
}

/// Goes on until a token stands on top or nothing is left. `false` where nothing that may stand there begins with what
/// comes next.
fn expose<'a, G: Grammar>(
    work: &mut Work<'a, G::Nonterminal, G::Act, G::Kind>,
    next: Option<G::Kind>,
) -> Result<bool, AllocError>
    ensures { IfOk result (Exposes G.rules G.table next work.old work.new) }
{
    while let Some(frame) = work.frames.pop() {
        match make_move::<G>(work, frame.rest, frame.depth, next)? {
            Advance::Moved => {}
            Advance::Ready => return Ok(true),
            Advance::Stuck => return Ok(false),
        }
    }
    Ok(true)
}

/// Reads the token, where this row stands on top at this depth and begins with a token.
fn take_token<'a, G: Grammar>(
    work: &mut Work<'a, G::Nonterminal, G::Act, G::Kind>,
    row: &'a [Symbol<G::Nonterminal, G::Act, G::Kind>],
    depth: u32,
    kind: G::Kind,
    limit: u32,
) -> Result<Fed, AllocError>
    requires { IsReady (Row row.now depth (stack_of work.old)) }
    ensures { IfOk result (TakesToken G.rules G.table limit kind row.now depth work.old work.new) }
{
    let Some((symbol, rest)) = row.split_first() else {
        unreachable!()
    };
    match *symbol {
        Symbol::Read(wanted) => {
            if G::number(wanted) != G::number(kind) {
                return Ok(Fed::Wrong);
            }
            work.events.push(Event::Token)?;
            push_row(work, rest, depth)?;
            Ok(Fed::Read)
        }
        Symbol::Open(wanted) => {
            if G::number(wanted) != G::number(kind) {
                return Ok(Fed::Wrong);
            }
            if depth >= limit {
                return Ok(Fed::Deep);
            }
            work.events.push(Event::Token)?;
            push_row(work, rest, depth + 1)?;
            Ok(Fed::Read)
        }
        _ => unreachable!(),
    }
}

/// Reads one token, where it may stand.
pub(crate) fn feed<'a, G: Grammar>(
    work: &mut Work<'a, G::Nonterminal, G::Act, G::Kind>,
    kind: G::Kind,
    limit: u32,
) -> Result<Fed, AllocError>
    ensures { IfOk result (IsFed G.rules G.table limit kind work.old work.new) }
{
    if !expose::<G>(work, Some(kind))? {
        return Ok(Fed::Wrong);
    }
    let Some(frame) = work.frames.pop() else {
        return Ok(Fed::Wrong);
    };
    take_token::<G>(work, frame.rest, frame.depth, kind, limit)
}

/// Whether nothing is left to be read where the tokens end.
pub(crate) fn finish<'a, G: Grammar>(
    work: &mut Work<'a, G::Nonterminal, G::Act, G::Kind>,
) -> Result<bool, AllocError>
    ensures { IfOk result (IsFinished G.rules G.table work.old work.new) }
{
    Ok(expose::<G>(work, None)? && work.frames.is_empty())
}
