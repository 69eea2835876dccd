//! What follows a statement, up to the next cut.

use pale_text::Pos;
use pale_typed::Stmt;
use store_logic::Assertion;

/// What follows statements: others, and then what follows those, or a cut. Each block of a text that is gone through is one link.
#[derive(Clone, Copy)]
pub enum Rest<'a> {
    /// The exit of the procedure.
    Exit,
    /// The `while` at this place, with this invariant, around the statements.
    Again(Pos, &'a Assertion),
    /// These statements, and then what follows them.
    Then(&'a [Stmt], &'a Rest<'a>),
}
