//! Programs of texts.

ghost use Rattle.std.specs.Prelude.{◌≡◌, ℕ, List, None};
ghost use Rattle.ll1_reader.specs.Readings.{Step};
ghost use Rattle.store_core.specs.Stores.{StoreMap};
ghost use Rattle.store_exec.specs.declared.cause.Cause.{Cause};
ghost use Rattle.pale_syntax.specs.declared.grammar.act.Act.{Act};
ghost use Rattle.pale_syntax.specs.declared.tree.declaration.Program.{Program};
ghost use Rattle.pale_syntax.specs.ProgramReading.{IsProgram};
ghost use Rattle.pale_text.specs.declared.token.TokenList.{TokenList};
ghost use Rattle.pale_text.specs.Lexing.{IsLexed};
ghost use Rattle.pale_types.specs.Programs.{typed_program, program_fault};
ghost use Rattle.whole_run.specs.States.{Fail};
ghost use Rattle.whole_run.specs.Runs.{WholeRun};
ghost use Rattle.whole_run.specs.Places.{PlacesAreDistinct};
ghost use Rattle.whole_run.specs.Safety.{NoTripleFails, MeetsEntry};

use crate::whole_runs_never_fail;
use pale_print_laws::words_stand_at_their_places;
use pale_types::programs_without_fault_fit;

/// Where a text is that of a program, no two cut points of one of its procedures stand at one place.
pub fn programs_of_texts_have_distinct_places()
    ensures { (text : List ℕ) (list : TokenList) (steps : List (Step Act)) (tree : Program) → IsLexed text list →
        IsProgram list.tokens steps tree → PlacesAreDistinct (typed_program tree) }
{
    words_stand_at_their_places();
}

/// Where a text is that of a program without a fault, and no store that meets one of its triples fails, no run of a procedure fails
/// that starts from a store that meets its entry triple, however many steps it has.
pub fn programs_of_texts_never_fail()
    ensures { (text : List ℕ) (list : TokenList) (steps : List (Step Act)) (tree : Program) → IsLexed text list →
        IsProgram list.tokens steps tree → program_fault tree ≡ None → NoTripleFails (typed_program tree) →
        (number : ℕ) (s : StoreMap) (n : ℕ) (why : Cause) (line : ℕ) → MeetsEntry (typed_program tree) number s →
        WholeRun (typed_program tree) number s n (Fail why line) → ⊥ }
{
    programs_without_fault_fit();
    programs_of_texts_have_distinct_places();
    whole_runs_never_fail();
}
