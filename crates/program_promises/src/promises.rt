//! What a reader of a report may conclude of whole runs, and when each triple has a verdict.

ghost use Rattle.std.specs.Prelude.{◌≡◌, ◌⊎◌, ℕ, List};
ghost use Rattle.pale_text.specs.declared.refusal.Refusal.{Refusal};
ghost use Rattle.store_core.specs.Tables.{TypeEntry};
ghost use Rattle.store_exec.specs.declared.triple.Triple.{Triple};
ghost use Rattle.pale_typed.specs.TypedPrograms.{TypedProgram};
ghost use Rattle.whole_program.specs.ProgramTexts.{IsReadAs, IsRefusedAs};
ghost use Rattle.program_judge.specs.declared.ways.FieldWay.{FieldWay};
ghost use Rattle.program_judge.specs.declared.ways.TripleWay.{TripleWay};
ghost use Rattle.program_judge.specs.declared.ways.TripleWay.TheVariants as tripled;
ghost use Rattle.program_judge.specs.declared.ways.Ending.{Ending};
ghost use Rattle.program_judge.specs.declared.ways.Ending.TheVariants as ending;
ghost use Rattle.program_judge.specs.Reports.{pointer_fields, ReportsFields, ReportsTriple, ReportsTriples, ReportsProgram};
ghost use Rattle.program_promises.specs.Safety.{RunsNeverFail};
ghost use Rattle.program_promises.specs.Completeness.{IsTripleWithin, ArePeaksWithin};
ghost use Rattle.program_promises.specs.Telling.{TellsFields, TellsTriples, TellsProgram};

use field_judge::laws::ambiguous_fields_are_not_functional;
use pale_parse::one_program;
use pale_text::{stray_byte_is_one, tokens_are_one};
use program_judge::laws::good_reports_have_valid_triples;
use triple_judge::laws::triples_have_one_peak;
use whole_run::programs_of_texts_never_fail;
use ws2s_theory::peaks_exist;

/// A text is read as one program with its triples, or refused at one place: not both, and not as two programs.
pub fn texts_have_one_reading()
    ensures one { (text : List ℕ) (program other : TypedProgram) (triples others : List Triple) → IsReadAs text program triples →
        IsReadAs text other others → (program ≡ other) × (triples ≡ others) }
    ensures apart { (text : List ℕ) (program : TypedProgram) (triples : List Triple) (refusal : Refusal) → IsReadAs text program triples →
        IsRefusedAs text refusal → ⊥ }
{
    tokens_are_one();
    stray_byte_is_one();
    one_program();
}

/// Where the report of a text's program ends well, no run of one of its procedures fails that starts from a store which meets the
/// procedure's entry triple, with whatever loops and calls, and however many steps it has.
pub fn good_reports_have_safe_runs()
    ensures { (limit : ℕ) (text : List ℕ) (program : TypedProgram) (triples : List Triple) (output : List ℕ) →
        IsReadAs text program triples → ReportsProgram limit program triples output ending.Good → RunsNeverFail program }
{
    good_reports_have_valid_triples();
    programs_of_texts_never_fail();
}

/// Where every pointer field is functional, and no field and no triple has a Peak above the limit, a report ends with each triple
/// told to be valid or invalid.
pub fn reports_within_the_peaks_are_verdicts()
    ensures { (limit : ℕ) (program : TypedProgram) (triples : List Triple) (output : List ℕ) (how : Ending) →
        ArePeaksWithin limit program triples → ReportsProgram limit program triples output how →
        (how ≡ ending.Good) ⊎ (how ≡ ending.Bad) }
{
    ambiguous_fields_are_not_functional();
    triples_have_one_peak();
    peaks_exist();
}

/// In a report each field and each triple has a verdict whose own Peak is within the limit, whatever the Peaks of the others are:
/// such a field is told to be functional or ambiguous, and where every field is told to be functional, such a triple is told to be
/// valid or invalid.
pub fn reports_tell_each_within_its_peak()
    ensures fields { (limit : ℕ) (types : List TypeEntry) (lines : List ℕ) (ways : List FieldWay) →
        ReportsFields limit types (pointer_fields types) lines ways → TellsFields limit types lines ways }
    ensures triples { (limit : ℕ) (program : TypedProgram) (triples : List Triple) (lines : List ℕ) (ways : List TripleWay) →
        ReportsTriples limit program 1 triples lines ways → TellsTriples limit program triples lines ways }
    ensures triple { (limit : ℕ) (program : TypedProgram) (k : ℕ) (t : Triple) (lines : List ℕ) (how : TripleWay) →
        ReportsTriple limit program k t lines how → IsTripleWithin limit program t → (how ≡ tripled.Valid) ⊎ (how ≡ tripled.Invalid) }
    ensures program { (limit : ℕ) (program : TypedProgram) (triples : List Triple) (output : List ℕ) (how : Ending) →
        ReportsProgram limit program triples output how → TellsProgram limit program triples output how }
{
    triples_have_one_peak();
    peaks_exist();
}
