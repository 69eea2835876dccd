//! What callers may rest on.

ghost use Rattle.std.specs.Prelude.{ℕ, List};
ghost use Rattle.ll1_reader.specs.Answers.{levels, AreLow};
ghost use Rattle.ll1_reader.specs.Readings.{Step};
ghost use Rattle.pale_syntax.specs.declared.grammar.act.Act.{Act};
ghost use Rattle.pale_text.specs.declared.token.TokenList.{TokenList};
ghost use Rattle.pale_syntax.specs.declared.tree.declaration.Program.{Program};
ghost use Rattle.pale_text.specs.Lexing.{IsLexed};
ghost use Rattle.pale_syntax.specs.ProgramReading.{IsProgram};
ghost use Rattle.pale_print_laws.specs.CanonicalDeclarations.{IsCanonical};
ghost use Rattle.pale_print_laws.specs.ReadBack.{IsReadBack};
ghost use Rattle.pale_print_laws.specs.Shortest.{IsShortest, NeedsItsParentheses};

/// The spelling of a canonical program is read back as the same program but for places, and opens no more levels than the
/// program has room for.
pub fn canonical_programs_are_read_back()
    ensures { (limit : ℕ) (tree : Program) → IsCanonical limit tree → IsReadBack limit tree }
{}

/// The program that a text is, is canonical, with room for the levels that the text opens.
pub fn programs_are_canonical()
    ensures { (text : List ℕ) (list : TokenList) (steps : List (Step Act)) (tree : Program) (limit : ℕ) →
        IsLexed text list → IsProgram list.tokens steps tree → AreLow limit (levels steps) → IsCanonical limit tree }
{}

/// The spelling of the program that a text is, is read back as the same program but for places, and it opens no level above
/// a limit that the text keeps: so it opens no more levels than any text of that program.
pub fn programs_are_read_back()
    ensures { (text : List ℕ) (list : TokenList) (steps : List (Step Act)) (tree : Program) (limit : ℕ) →
        IsLexed text list → IsProgram list.tokens steps tree → AreLow limit (levels steps) → IsReadBack limit tree }
{}

/// No text of a program, but for places, has fewer tokens than the program's spelling.
pub fn spellings_are_shortest()
    ensures { (tree : Program) → IsShortest tree }
{}

/// A text that is the spelling of a program but for a left and a right parenthesis is not the program, but for places.
pub fn spellings_need_their_parentheses()
    ensures { (tree : Program) → NeedsItsParentheses tree }
{}
