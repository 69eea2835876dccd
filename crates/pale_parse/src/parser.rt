//! Programs from their tokens.

ghost use Rattle.std.specs.Prelude.{◌≡◌, List, IfOk, IfErr, IsOkUnless};
ghost use Rattle.ll1_reader.specs.Readings.{Step};
ghost use Rattle.pale_syntax.specs.declared.grammar.act.Act.{Act as ProgramAct};
ghost use Rattle.pale_syntax.specs.declared.tree.declaration.Program.{Program as ProgramTree};
ghost use Rattle.pale_text.specs.declared.refusal.Refusal.{Refusal as RefusedThere};
ghost use Rattle.pale_text.specs.declared.refusal.TextStop.TheVariants.{NoMemory, Refused};
ghost use Rattle.pale_syntax.specs.ProgramReading.{IsProgram, IsShallow, IsParsedAs, IsParseStop};
ghost use Rattle.pale_text.specs.TextStops.{IsRefusedUnless};

use crate::grammar::ProgramGrammar;
use pale_syntax::Program;
use pale_text::{TextStop, TokenList};
use std::alloc::Global;

/// The program that these tokens are.
///
/// `Refused` is `syntax` at the first token that no program has after those before it, or at the text's end where the
/// tokens are no program yet; or `deep` at the first token that opens a level above the limit. The one that stands first
/// is named. `NoMemory` says nothing of the tokens. The time is linear in the tokens, and neither the length nor the
/// depth of a text takes stack.
pub fn parse(alloc: Global, list: &TokenList) -> Result<Program, TextStop>
    ensures program { IfOk result (IsParsedAs list.now.tokens) }
    ensures stop { IfErr result (IsParseStop list.now) }
    // The tokens are no other program.
    ensures only { (steps : List (Step ProgramAct)) (tree : ProgramTree) → IsProgram list.now.tokens steps tree →
        IfOk result (λ read. read ≡ tree) }
    // A program with so few levels is read, unless memory runs out.
    ensures complete { (steps : List (Step ProgramAct)) (tree : ProgramTree) → IsProgram list.now.tokens steps tree →
        IsShallow steps → IsOkUnless result NoMemory }
    // The one refusal of the tokens is the answer, unless memory runs out.
    ensures refused { (refusal : RefusedThere) → IsParseStop list.now (Refused refusal) → IsRefusedUnless result refusal NoMemory }
{
    pale_text::parse::<ProgramGrammar>(alloc, list)
}
