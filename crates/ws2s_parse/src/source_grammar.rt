//! The language of WS2S text, as the reader of texts takes it.

ghost use Rattle.std.specs.Prelude.{◌≡◌};
ghost use Rattle.ws2s_parse.specs.Building.{parts_of};
ghost use Rattle.ws2s_parse.specs.Making.{after, source_in};
ghost use Rattle.ws2s_parse.specs.MakingParts.{Parts as MadeParts, nothing};
ghost use Rattle.ws2s_parse.specs.SourceGrammar.{source_grammar};
ghost use Rattle.ws2s_parse.specs.SourceWords.{kind_of};
ghost use Rattle.ws2s_parse.specs.Productions.{source_rules};
ghost use Rattle.ws2s_parse.specs.ParseTable.{source_table};
ghost use Rattle.ws2s_parse.specs.TableLaws.{source_named, source_sound};

use crate::build::{Parts, nothing};
use crate::grammar::{SourceAct, SourceKind, SourcePart};
use crate::tables::{SourceProduction, SourceSymbol, first_set, number_of, productions_of, row_of};
use ll1_reader::{Grammar, Symbol};
use pale_text::{Language, Mark, Near, TokenKind};
use std::alloc::{AllocError, Global};
use ws2s_syntax::Source;

/// The grammar of WS2S text.
pub(crate) struct SourceGrammar;

/// What a whole text is.
static TEXT: [SourceSymbol; 3] = [
    Symbol::Read(SourceKind::Ws2s),
    Symbol::Read(SourceKind::Mark(Mark::Semicolon)),
    Symbol::Many(SourcePart::Item),
];

impl Grammar for SourceGrammar {
    type Nonterminal = SourcePart;

    type Production = SourceProduction;

    type Act = SourceAct;

    type Kind = SourceKind;

    ghost grammar = { source_grammar };

    ghost rules = { source_rules };

    ghost table = { source_table };

    #[tactic(auto, unfolding(crate::specs::Productions::source_rules))]
    fn productions(part: SourcePart) -> &'static [SourceProduction] {
        productions_of(part)
    }

    #[tactic(auto, unfolding(crate::specs::Productions::source_rules))]
    fn row(production: SourceProduction) -> &'static [SourceSymbol] {
        row_of(production)
    }

    #[tactic(auto, unfolding(crate::specs::Productions::source_rules))]
    fn text() -> &'static [SourceSymbol] {
        &TEXT
    }

    #[tactic(auto, unfolding(crate::specs::ParseTable::source_table))]
    fn first(production: SourceProduction) -> &'static [SourceKind] {
        first_set(production)
    }

    #[tactic(auto, unfolding(crate::specs::ParseTable::source_table))]
    fn number(kind: SourceKind) -> u32 {
        number_of(kind)
    }

    ghost named = { source_named };

    ghost sound = { source_sound };
}

impl Language for SourceGrammar {
    type Parts = Parts;

    type Tree = Source;

    ghost Made = { MadeParts };

    ghost made_of = { parts_of };

    ghost nothing = { nothing };

    ghost after = { after };

    ghost tree_of = { source_in };

    ghost kind_of = { kind_of };

    fn kind(token: &TokenKind) -> SourceKind {
        SourceKind::of(token)
    }

    fn begin(alloc: Global) -> Parts {
        nothing(alloc)
    }

    fn perform(parts: &mut Parts, act: SourceAct, near: Near) -> Result<(), AllocError> {
        parts.perform(act, near)
    }

    fn finish(parts: Parts) -> Source {
        Source { items: parts.items }
    }
}
