//! The statements that are left of a procedure, as they are kept: by the blocks in which they stand.

ghost use Rattle.std.specs.Prelude.{◌≡◌, ◌+◌, ◌<◌, ◌++◌, [], None, length, IfOk, MatchOption};
ghost use Rattle.pale_typed.specs.declared.typed.Stmt.{roll-Stmt};
ghost use Rattle.pale_typed.specs.declared.typed.Stmt.TheVariants as statement;
ghost use Rattle.whole_turns.specs.Standings.{stmts_of, left_of, form_of, front};
ghost use Rattle.whole_turns.specs.Turning.{Skips, weight_of};

use pale_text::Pos;
use pale_typed::{CallParts, Stmt};
use plain_data::Stack;
use std::alloc::AllocError;
use store_logic::{Act, Assertion, Cond};

/// The parts of a `while`.
#[derive(Clone, Copy)]
pub struct Loop<'a> {
    pub place: Pos,
    pub test: &'a Cond,
    pub invariant: &'a Assertion,
    pub body: &'a [Stmt],
}

/// Some of the statements that are left.
#[derive(Clone, Copy)]
pub enum Piece<'a> {
    /// These.
    Block(&'a [Stmt]),
    /// A loop that is met again behind its body.
    Again(Loop<'a>),
    /// A loop behind its cut, where its condition is read.
    Behind(Loop<'a>),
}

/// The statement that comes next, which is no `skip`.
#[derive(Clone, Copy)]
pub(crate) enum Next<'a> {
    Do(u32, &'a Act),
    If(u32, &'a Cond, &'a [Stmt], &'a [Stmt]),
    While(Loop<'a>),
    /// A loop behind its cut.
    Behind(Loop<'a>),
    Split(Pos, &'a Assertion),
    Call(Pos, &'a CallParts),
}

/// The parts of a statement; a `skip` has none.
fn parts_of<'a>(stmt: &'a Stmt) -> Option<Next<'a>>
    ensures { MatchOption result (stmt.now ≡ statement.Skip) (λ found. stmt.now ≡ roll-Stmt (form_of found)) }
{
    match stmt {
        Stmt::Skip => None,
        Stmt::Do(line, act) => Some(Next::Do(*line, act)),
        Stmt::If(line, cond, yes, no) => {
            Some(Next::If(*line, cond, yes.as_slice(), no.as_slice()))
        }
        Stmt::While(place, cond, invariant, body) => Some(Next::While(Loop {
            place: *place,
            test: cond,
            invariant,
            body: body.as_slice(),
        })),
        Stmt::Split(place, assertion) => Some(Next::Split(*place, assertion)),
        Stmt::Call(place, call) => Some(Next::Call(*place, call)),
    }
}

/// The first statement of a block, and the others put on top of what is left. `None` where there is none, or where it is a `skip`.
fn first_of<'a>(
    block: &'a [Stmt],
    left: &mut Stack<Piece<'a>>,
) -> Result<Option<Next<'a>>, AllocError>
    ensures same { IfOk result (λ found. Skips (block.now ++ left_of left.old) (front found (left_of left.new))) }
    ensures less { IfOk result (λ found. weight_of left.new < weight_of left.old + (length block.now + 1)) }
{
    match block.split_first() {
        None => Ok(None),
        Some((stmt, more)) => {
            left.push(Piece::Block(more))?;
            Ok(parts_of(stmt))
        }
    }
}

/// The first statement of a piece that was taken off, and what else there is of it put back. `None` where there is none, or where it
/// is a `skip`.
fn next_of<'a>(
    piece: Piece<'a>,
    left: &mut Stack<Piece<'a>>,
) -> Result<Option<Next<'a>>, AllocError>
    ensures same { IfOk result (λ found. Skips (stmts_of piece.entry ++ left_of left.old) (front found (left_of left.new))) }
    ensures less { IfOk result (λ found. weight_of left.new < weight_of left.old + (length (stmts_of piece.entry) + 1)) }
{
    match piece {
        Piece::Block(block) => first_of(block, left),
        Piece::Again(again) => Ok(Some(Next::While(again))),
        Piece::Behind(behind) => Ok(Some(Next::Behind(behind))),
    }
}

/// Takes the next statement off, and each `skip` before it. `None` where nothing else is left.
pub(crate) fn next_statement<'a>(
    left: &mut Stack<Piece<'a>>,
) -> Result<Option<Next<'a>>, AllocError>
    ensures same { IfOk result (λ found. Skips (left_of left.old) (front found (left_of left.new))) }
    ensures all { IfOk result (λ found. found ≡ None → left_of left.new ≡ []) }
{
    while let Some(piece) = left.pop() {
        if let Some(next) = next_of(piece, left)? {
            return Ok(Some(next));
        }
    }
    Ok(None)
}
