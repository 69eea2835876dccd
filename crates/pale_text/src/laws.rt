//! Laws of reading: a text is read in one way, what is spelled is read, and tokens have one tree.

ghost use Rattle.std.specs.Prelude.{◌≡◌, ℕ, List};
ghost use Rattle.ll1_reader.specs.Grammars.{rules_of};
ghost use Rattle.ll1_reader.specs.Readings.{Step, IsAnyReading};
ghost use Rattle.pale_text.specs.declared.place.Pos.{Pos};
ghost use Rattle.pale_text.specs.declared.token.Token.{Token};
ghost use Rattle.pale_text.specs.declared.token.TokenKind.{TokenKind};
ghost use Rattle.pale_text.specs.declared.token.TokenList.{TokenList};
ghost use Rattle.pale_text.specs.Lexing.{IsLexed, IsStrayAt};
ghost use Rattle.pale_text.specs.Kinds.{kinds_by};
ghost use Rattle.pale_text.specs.Making.{tree_by};
ghost use Rattle.pale_text.specs.Parsing.{IsSentence};
ghost use Rattle.pale_text.specs.Spelled.{IsSpelled, IsReadAs};

use crate::language::Language;
use ll1_reader::{each_sentence_has_a_reading_that_counts, one_reading_counts};

/// A text has one list of tokens and one end.
pub fn tokens_are_one()
    ensures { (text : List ℕ) (one other : TokenList) →
        IsLexed text one → IsLexed text other → one ≡ other }
{}

/// A text has its first stray byte at one place, and one that has it is never read to its end. So `lex` answers tokens
/// or `char` by the text alone.
pub fn stray_byte_is_one()
    ensures place { (text : List ℕ) (one other : Pos) →
        IsStrayAt text one → IsStrayAt text other → one ≡ other }
    ensures apart { (text : List ℕ) (list : TokenList) (place : Pos) →
        IsLexed text list → IsStrayAt text place → ⊥ }
{}

/// Tokens that are spelled with a space, a tab, CR or LF between them are read again. So a printer of tokens owes no
/// more than to spell each and to keep them apart.
pub fn spelled_tokens_are_read()
    ensures { (kinds : List TokenKind) (text : List ℕ) →
        IsSpelled kinds text → IsReadAs kinds text }
{}

/// Tokens are at most one text of a language, and are read in one way.
pub fn one_tree<L: Language>()
    ensures steps { (tokens : List Token) (one other : List (Step L.Act)) (tree another : L.Tree) →
        IsSentence (rules_of L.grammar) L.kind_of (tree_by L.after L.nothing L.tree_of) tokens one tree →
        IsSentence (rules_of L.grammar) L.kind_of (tree_by L.after L.nothing L.tree_of) tokens other another → one ≡ other }
    ensures tree { (tokens : List Token) (one other : List (Step L.Act)) (tree another : L.Tree) →
        IsSentence (rules_of L.grammar) L.kind_of (tree_by L.after L.nothing L.tree_of) tokens one tree →
        IsSentence (rules_of L.grammar) L.kind_of (tree_by L.after L.nothing L.tree_of) tokens other another → tree ≡ another }
{
    one_reading_counts::<L>();
}

/// No text is lost because one reading counts alone: what has any reading by the rows of the grammar has a tree.
pub fn each_sentence_has_a_tree<L: Language>()
    ensures { (tokens : List Token) (steps : List (Step L.Act)) → IsAnyReading (rules_of L.grammar) (kinds_by L.kind_of tokens) steps →
        (counted : List (Step L.Act)) × (tree : L.Tree) ×
        IsSentence (rules_of L.grammar) L.kind_of (tree_by L.after L.nothing L.tree_of) tokens counted tree }
{
    each_sentence_has_a_reading_that_counts::<L>();
}
