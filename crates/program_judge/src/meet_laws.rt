//! What the answers on a triple's start exclude of one another, that one of them is right, and what follows from reports.

ghost use Rattle.std.specs.Prelude.{◌≡◌, ◌++◌, ℕ, List, All};
ghost use Rattle.store_core.specs.Tables.{TypeEntry, VarEntry};
ghost use Rattle.store_core.specs.Stores.{StoreMap};
ghost use Rattle.store_exec.specs.Failing.{Meets};
ghost use Rattle.store_exec.specs.declared.triple.Triple.{Triple};
ghost use Rattle.witness_store.specs.Alike.{AreFunctional};
ghost use Rattle.pale_typed.specs.TypedPrograms.{TypedProgram};
ghost use Rattle.pale_typed.specs.Fitting.{ProgramFits};
ghost use Rattle.hoare_split.specs.Fitting.{FitsProgram};
ghost use Rattle.triple_judge.specs.Judging.{IsValid};
ghost use Rattle.program_judge.specs.declared.meet_way.MeetWay.{MeetWay};
ghost use Rattle.program_judge.specs.Starts.{asking, IsUnmet, IsLeastMeeting};
ghost use Rattle.program_judge.specs.Meets.{ReportsMeet, ReportsMeets, AreStartsDecided};

use triple_judge::laws::triples_have_one_peak;

/// The triple that asks starts as the other one does, and is valid exactly where no store meets that.
pub fn asking_triples_fail_from_what_meets()
    ensures same { (types : List TypeEntry) (vars : List VarEntry) (t : Triple) (s : StoreMap) → Meets types vars t s → Meets types vars (asking t) s }
    ensures back { (types : List TypeEntry) (vars : List VarEntry) (t : Triple) (s : StoreMap) → Meets types vars (asking t) s → Meets types vars t s }
    ensures valid { (types : List TypeEntry) (vars : List VarEntry) (t : Triple) → IsUnmet types vars t → IsValid types vars (asking t) }
    ensures unmet { (types : List TypeEntry) (vars : List VarEntry) (t : Triple) → IsValid types vars (asking t) → IsUnmet types vars t }
{}

/// A store that is answered shows that the triple is met, so one of the two answers alone is right. A triple that no store meets is
/// valid, whatever its code is.
pub fn met_triples_are_not_empty()
    ensures apart { (types : List TypeEntry) (vars : List VarEntry) (t : Triple) (s : StoreMap) → IsLeastMeeting types vars t s →
        IsUnmet types vars t → ⊥ }
    ensures valid { (types : List TypeEntry) (vars : List VarEntry) (t : Triple) → IsUnmet types vars t → IsValid types vars t }
{}

/// Where every pointer field is functional, something can be told of each of a program's triples behind what was told so far.
pub fn starts_can_be_told()
    ensures each { (limit : ℕ) (program : TypedProgram) (k : ℕ) (t : Triple) → ProgramFits program → AreFunctional program.types →
        FitsProgram program t → (lines : List ℕ) × (how : MeetWay) × ReportsMeet limit program k t lines how }
    ensures all { (limit : ℕ) (program : TypedProgram) (triples done rest : List Triple) (lines : List ℕ) (ways : List MeetWay) →
        ProgramFits program → AreFunctional program.types → All (FitsProgram program) triples → triples ≡ done ++ rest →
        ReportsMeets limit program 1 done lines ways →
        (more : List ℕ) × (others : List MeetWay) × ReportsMeets limit program 1 triples (lines ++ more) (ways ++ others) }
{}

/// Each triple whose start is within its own Peak is told to be met, or to be met by no store, whatever the Peaks of the others are.
pub fn starts_are_told_within_their_peaks()
    ensures { (limit : ℕ) (program : TypedProgram) (triples : List Triple) (lines : List ℕ) (ways : List MeetWay) →
        ReportsMeets limit program 1 triples lines ways → AreStartsDecided limit program triples ways }
{
    triples_have_one_peak();
}
