//! What callers may rest on.

ghost use Rattle.std.specs.Prelude.{◌≡◌, List, None, map};
ghost use Rattle.ll1_reader.specs.Answers.{event_of};
ghost use Rattle.ll1_reader.specs.Readings.{Step};
ghost use Rattle.pale_syntax.specs.declared.grammar.act.Act.{Act};
ghost use Rattle.pale_text.specs.declared.token.Token.{Token};
ghost use Rattle.pale_syntax.specs.declared.tree.declaration.Program.{Program};
ghost use Rattle.pale_syntax.specs.Making.{run};
ghost use Rattle.pale_syntax.specs.MakingParts.{nothing};
ghost use Rattle.pale_syntax.specs.ProgramReading.{IsProgram};
ghost use Rattle.pale_print_laws.specs.DeclarationWords.{program_words};
ghost use Rattle.pale_print_laws.specs.Example.{example, example_words};
ghost use Rattle.pale_print_laws.specs.Operands.{EachHasOperands, only};
ghost use Rattle.pale_print_laws.specs.Words.{AreWords};

/// The tokens of a program, but for parentheses, are the words of its tree, one by one and in order. So each place in the
/// tree is that of the token that its form names.
pub fn words_stand_at_their_places()
    ensures { (tokens : List Token) (steps : List (Step Act)) (tree : Program) → IsProgram tokens steps tree →
        AreWords tokens (program_words tree) }
{}

/// The words of a small program are these.
pub fn words_of_an_example()
    ensures { program_words example ≡ example_words }
{}

/// Each act in the reading of a program takes what was made before it: no act finds a stack empty, or another form on it than
/// it asks for, and makes something of a stand-in.
pub fn acts_have_their_operands()
    ensures { (tokens : List Token) (steps : List (Step Act)) (tree : Program) → IsProgram tokens steps tree →
        EachHasOperands (map event_of steps) None tokens nothing }
{}

/// At the end of the reading of a program nothing lies on the stacks or in the lists of what is made but the program's
/// declarations.
pub fn nothing_is_left_over()
    ensures { (tokens : List Token) (steps : List (Step Act)) (tree : Program) → IsProgram tokens steps tree →
        run (map event_of steps) None tokens nothing ≡ only tree }
{}
