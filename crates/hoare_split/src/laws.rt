//! Laws of the triples of typed programs.

ghost use Rattle.std.specs.Prelude.{◌≡◌, None, All};
ghost use Rattle.pale_typed.specs.TypedPrograms.{TypedProgram};
ghost use Rattle.pale_typed.specs.Fitting.{ProgramFits};
ghost use Rattle.hoare_split.specs.Triples.{split_fault, triples_of};
ghost use Rattle.hoare_split.specs.Fitting.{FitsProgram, IsShort};

use claim_laws::claims_with_actuals_put_in_fit;

/// The triples of a program that fits fit it too. Where nothing is refused, each has at most 128 atoms and at most 64 `new`.
pub fn triples_of_programs_that_fit_fit()
    ensures fits { (program : TypedProgram) → ProgramFits program → All (FitsProgram program) (triples_of program) }
    ensures short { (program : TypedProgram) → split_fault program ≡ None → All IsShort (triples_of program) }
{
    claims_with_actuals_put_in_fit();
}
