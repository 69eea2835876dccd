//! What the answers exclude of one another, that one of them is right, and that a triple has one Peak.

ghost use Rattle.std.specs.Prelude.{◌≡◌, ◌⊎◌, ℕ, List};
ghost use Rattle.store_core.specs.Tables.{TypeEntry, VarEntry, IsTypeTable};
ghost use Rattle.store_core.specs.Stores.{StoreMap};
ghost use Rattle.store_exec.specs.declared.cause.Cause.{Cause};
ghost use Rattle.store_exec.specs.declared.triple.Triple.{Triple};
ghost use Rattle.witness_store.specs.Alike.{AreFunctional};
ghost use Rattle.triple_judge.specs.Standing.{CanBeJudged};
ghost use Rattle.triple_judge.specs.Judging.{HasTriplePeak, IsValid, IsLeastFailing};

/// A store that is answered shows that the triple isn't valid, so one of the two answers alone is right.
pub fn failing_triples_are_not_valid()
    ensures { (types : List TypeEntry) (vars : List VarEntry) (t : Triple) (s : StoreMap) (why : Cause) (line : ℕ) →
        IsLeastFailing types vars t s why line → IsValid types vars t → ⊥ }
{}

/// Where every pointer field is functional, a triple is valid, or there is a store of the fewest cells that meets it and fails. So
/// whatever a call that judges triples has told when it stops, an answer to the others can follow.
pub fn triples_are_valid_or_a_least_store_fails()
    ensures { (types : List TypeEntry) (vars : List VarEntry) (t : Triple) → IsTypeTable types → AreFunctional types → CanBeJudged types vars t →
        IsValid types vars t ⊎ ((s : StoreMap) × (why : Cause) × (line : ℕ) × IsLeastFailing types vars t s why line) }
{}

/// Every triple has a Peak, and one alone.
pub fn triples_have_one_peak()
    ensures exists { (types : List TypeEntry) (vars : List VarEntry) (t : Triple) → (p : ℕ) × HasTriplePeak types vars t p }
    ensures one { (types : List TypeEntry) (vars : List VarEntry) (t : Triple) (p q : ℕ) → HasTriplePeak types vars t p →
        HasTriplePeak types vars t q → p ≡ q }
{}
