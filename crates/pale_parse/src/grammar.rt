//! The language of programs, as the reader of texts takes it.

ghost use Rattle.std.specs.Prelude.{◌≡◌};
ghost use Rattle.pale_build.specs.Building.{parts_of};
ghost use Rattle.pale_syntax.specs.Making.{after, program_in};
ghost use Rattle.pale_syntax.specs.MakingParts.{Parts as MadeParts, nothing};
ghost use Rattle.pale_syntax.specs.ProgramGrammar.{program_grammar};
ghost use Rattle.pale_syntax.specs.ProgramWords.{kind_of};
ghost use Rattle.pale_parse.specs.Productions.{program_rules};
ghost use Rattle.pale_parse.specs.ParseTable.{program_table};
ghost use Rattle.pale_parse.specs.TableLaws.{program_named, program_sound};

use crate::tables::{
    ProgramProduction, ProgramSymbol, first_set, number_of, productions_of, row_of,
};
use ll1_reader::{Grammar, Symbol};
use pale_build::{Parts, nothing};
use pale_syntax::{Act, Program, ProgramKind, ProgramPart};
use pale_text::{Language, Near, TokenKind};
use std::alloc::{AllocError, Global};

/// The grammar of programs.
pub(crate) struct ProgramGrammar;

/// What a whole text is.
static TEXT: [ProgramSymbol; 1] = [Symbol::Many(ProgramPart::Declaration)];

impl Grammar for ProgramGrammar {
    type Nonterminal = ProgramPart;

    type Production = ProgramProduction;

    type Act = Act;

    type Kind = ProgramKind;

    ghost grammar = { program_grammar };

    ghost rules = { program_rules };

    ghost table = { program_table };

    #[tactic(auto, unfolding(crate::specs::Productions::program_rules))]
    fn productions(part: ProgramPart) -> &'static [ProgramProduction] {
        productions_of(part)
    }

    #[tactic(auto, unfolding(crate::specs::Productions::program_rules))]
    fn row(production: ProgramProduction) -> &'static [ProgramSymbol] {
        row_of(production)
    }

    #[tactic(auto, unfolding(crate::specs::Productions::program_rules))]
    fn text() -> &'static [ProgramSymbol] {
        &TEXT
    }

    #[tactic(auto, unfolding(crate::specs::ParseTable::program_table))]
    fn first(production: ProgramProduction) -> &'static [ProgramKind] {
        first_set(production)
    }

    #[tactic(auto, unfolding(crate::specs::ParseTable::program_table))]
    fn number(kind: ProgramKind) -> u32 {
        number_of(kind)
    }

    ghost named = { program_named };

    ghost sound = { program_sound };
}

impl Language for ProgramGrammar {
    type Parts = Parts;

    type Tree = Program;

    ghost Made = { MadeParts };

    ghost made_of = { parts_of };

    ghost nothing = { nothing };

    ghost after = { after };

    ghost tree_of = { program_in };

    ghost kind_of = { kind_of };

    fn kind(token: &TokenKind) -> ProgramKind {
        ProgramKind::of(token)
    }

    fn begin(alloc: Global) -> Parts {
        nothing(alloc)
    }

    fn perform(parts: &mut Parts, act: Act, near: Near) -> Result<(), AllocError> {
        parts.perform(act, near)
    }

    fn finish(parts: Parts) -> Program {
        parts.into_program()
    }
}
