//! Symbols that stand in many rows.

use crate::grammar::{SourceAct, SourceKind, SourcePart};
use ll1_reader::Symbol;
use pale_text::Mark;

/// A symbol of the grammar of WS2S text.
pub(crate) type SourceSymbol = Symbol<SourcePart, SourceAct, SourceKind>;

pub(super) const NAME: SourceSymbol = Symbol::Read(SourceKind::Name);

pub(super) const SEMICOLON: SourceSymbol = Symbol::Read(SourceKind::Mark(Mark::Semicolon));

pub(super) const LEFT_PAREN: SourceSymbol = Symbol::Read(SourceKind::Mark(Mark::LeftParen));

pub(super) const RIGHT_PAREN: SourceSymbol = Symbol::Read(SourceKind::Mark(Mark::RightParen));

pub(super) const COMMA: SourceSymbol = Symbol::Read(SourceKind::Mark(Mark::Comma));
