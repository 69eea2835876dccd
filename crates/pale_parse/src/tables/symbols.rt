//! Symbols that stand in many rows.

use ll1_reader::Symbol;
use pale_syntax::{Act, ProgramKind, ProgramPart, WordAct};
use pale_text::Mark;

/// A symbol of the grammar of programs.
pub(crate) type ProgramSymbol = Symbol<ProgramPart, Act, ProgramKind>;

pub(super) const NAME: ProgramSymbol = Symbol::Read(ProgramKind::Name);

pub(super) const PUSH_NAME: ProgramSymbol = Symbol::Act(Act::Word(WordAct::PushName));

pub(super) const MARK_PLACE: ProgramSymbol = Symbol::Act(Act::Word(WordAct::MarkPlace));

pub(super) const EQUALS: ProgramSymbol = Symbol::Read(ProgramKind::Mark(Mark::Equals));

pub(super) const RIGHT_BRACE: ProgramSymbol = Symbol::Read(ProgramKind::Mark(Mark::RightBrace));

pub(super) const SEMICOLON: ProgramSymbol = Symbol::Read(ProgramKind::Mark(Mark::Semicolon));

pub(super) const COLON: ProgramSymbol = Symbol::Read(ProgramKind::Mark(Mark::Colon));

pub(super) const DOT: ProgramSymbol = Symbol::Read(ProgramKind::Mark(Mark::Dot));

pub(super) const RIGHT_PAREN: ProgramSymbol = Symbol::Read(ProgramKind::Mark(Mark::RightParen));

pub(super) const LEFT_PAREN: ProgramSymbol = Symbol::Read(ProgramKind::Mark(Mark::LeftParen));

pub(super) const COMMA: ProgramSymbol = Symbol::Read(ProgramKind::Mark(Mark::Comma));
