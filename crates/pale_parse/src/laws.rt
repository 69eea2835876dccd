//! What callers may rest on.

ghost use Rattle.std.specs.Prelude.{◌≡◌, List};
ghost use Rattle.ll1_reader.specs.Readings.{Step, IsAnyReading};
ghost use Rattle.pale_syntax.specs.declared.grammar.act.Act.{Act};
ghost use Rattle.pale_text.specs.declared.token.Token.{Token};
ghost use Rattle.pale_syntax.specs.declared.tree.declaration.Program.{Program};
ghost use Rattle.pale_syntax.specs.ProgramWords.{kinds_in};
ghost use Rattle.pale_syntax.specs.ProgramReading.{program_rows, IsProgram};

use crate::grammar::ProgramGrammar;
use pale_text::{each_sentence_has_a_tree, one_tree};

/// Tokens are at most one program, and are read in one way.
pub fn one_program()
    ensures steps { (tokens : List Token) (one other : List (Step Act)) (tree another : Program) →
        IsProgram tokens one tree → IsProgram tokens other another → one ≡ other }
    ensures tree { (tokens : List Token) (one other : List (Step Act)) (tree another : Program) →
        IsProgram tokens one tree → IsProgram tokens other another → tree ≡ another }
{
    one_tree::<ProgramGrammar>();
}

/// No text is lost because one reading counts alone: what has any reading by the rows of the grammar is a program.
pub fn each_sentence_is_a_program()
    ensures { (tokens : List Token) (steps : List (Step Act)) → IsAnyReading program_rows (kinds_in tokens) steps →
        (counted : List (Step Act)) × (tree : Program) × IsProgram tokens counted tree }
{
    each_sentence_has_a_tree::<ProgramGrammar>();
}
