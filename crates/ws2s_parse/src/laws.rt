//! What callers may rest on.

ghost use Rattle.std.specs.Prelude.{◌≡◌, List};
ghost use Rattle.ll1_reader.specs.Readings.{Step, IsAnyReading};
ghost use Rattle.ws2s_parse.specs.declared.grammar.act.SourceAct.{SourceAct};
ghost use Rattle.pale_text.specs.declared.token.Token.{Token};
ghost use Rattle.ws2s_syntax.specs.declared.source.Source.{Source};
ghost use Rattle.ws2s_parse.specs.SourceWords.{kinds_in};
ghost use Rattle.ws2s_parse.specs.SourceReading.{source_rows, IsSource};

use crate::source_grammar::SourceGrammar;
use pale_text::{each_sentence_has_a_tree, one_tree};

/// Tokens are at most one text, and are read in one way.
pub fn one_source()
    ensures steps { (tokens : List Token) (one other : List (Step SourceAct)) (tree another : Source) →
        IsSource tokens one tree → IsSource tokens other another → one ≡ other }
    ensures tree { (tokens : List Token) (one other : List (Step SourceAct)) (tree another : Source) →
        IsSource tokens one tree → IsSource tokens other another → tree ≡ another }
{
    one_tree::<SourceGrammar>();
}

/// No text is lost because one reading counts alone: what has any reading by the rows of the grammar has a source tree.
pub fn each_sentence_is_a_source()
    ensures { (tokens : List Token) (steps : List (Step SourceAct)) → IsAnyReading source_rows (kinds_in tokens) steps →
        (counted : List (Step SourceAct)) × (tree : Source) × IsSource tokens counted tree }
{
    each_sentence_has_a_tree::<SourceGrammar>();
}
