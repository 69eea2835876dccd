//! What a report says of the whole program.

ghost use Rattle.std.specs.Prelude.{◌≡◌, ◌⊎◌, ◌++◌, ℕ, true, List, All, slice_get, Some};
ghost use Rattle.std.specs.List.{list_all};
ghost use Rattle.store_core.specs.declared.ids.FieldId.{FieldId};
ghost use Rattle.store_core.specs.declared.ids.CellId.{CellId};
ghost use Rattle.store_core.specs.Tables.{TypeEntry, IsTypeTable};
ghost use Rattle.store_core.specs.Stores.{StoreMap};
ghost use Rattle.routing_walks.specs.WellFormed.{IsFunctional};
ghost use Rattle.store_exec.specs.declared.triple.Triple.{Triple};
ghost use Rattle.pale_typed.specs.declared.typed.ProcEntry.{ProcEntry};
ghost use Rattle.pale_typed.specs.TypedPrograms.{TypedProgram};
ghost use Rattle.pale_typed.specs.Fitting.{ProgramFits};
ghost use Rattle.hoare_split.specs.Fitting.{FitsProgram};
ghost use Rattle.witness_store.specs.Alike.{AreFunctional};
ghost use Rattle.field_judge.specs.Judging.{IsLeastFork};
ghost use Rattle.triple_judge.specs.Judging.{IsValid};
ghost use Rattle.program_judge.specs.declared.ways.Ending.TheVariants as ending;
ghost use Rattle.program_judge.specs.declared.ways.FieldWay.{FieldWay};
ghost use Rattle.program_judge.specs.declared.ways.TripleWay.{TripleWay};
ghost use Rattle.program_judge.specs.Reports.{pointer_fields, is_functional, CanEnd, ReportsFields, ReportsTriples, ReportsAll, ReportsProgram};

/// Where the report of a program ends well, every triple is valid.
pub fn good_reports_have_valid_triples()
    ensures { (limit : ℕ) (program : TypedProgram) (triples : List Triple) (output : List ℕ) → ReportsProgram limit program triples output ending.Good →
        (i : ℕ) (t : Triple) (e : ProcEntry) → slice_get triples i ≡ Some t → slice_get program.procs t.proc ≡ Some e →
        IsValid program.types e.vars t }
{}

/// A field is functional, or there is a least backbone on which a cell has two destinations for it.
pub fn fields_are_functional_or_a_least_backbone_forks()
    ensures { (types : List TypeEntry) (f : FieldId) → IsTypeTable types →
        IsFunctional types f ⊎ ((s : StoreMap) × (c : CellId) × IsLeastFork types f s c) }
{}

/// Where every pointer field was told to be functional, it is.
pub fn reports_of_functional_fields_are_true()
    ensures { (limit : ℕ) (types : List TypeEntry) (lines : List ℕ) (ways : List FieldWay) →
        ReportsFields limit types (pointer_fields types) lines ways → list_all is_functional ways ≡ true → AreFunctional types }
{}

/// Whatever was told so far, of fields or of triples, the report of a program that fits can be ended.
pub fn reports_can_be_ended()
    ensures fields { (limit : ℕ) (program : TypedProgram) (triples : List Triple) → ProgramFits program → All (FitsProgram program) triples →
        (done rest : List FieldId) → pointer_fields program.types ≡ done ++ rest → (lines : List ℕ) (ways : List FieldWay) →
        ReportsFields limit program.types done lines ways → CanEnd (ReportsProgram limit program triples) lines }
    ensures triples { (limit : ℕ) (program : TypedProgram) (triples : List Triple) → ProgramFits program → All (FitsProgram program) triples →
        AreFunctional program.types → (done rest : List Triple) → triples ≡ done ++ rest → (lines : List ℕ) (ways : List TripleWay) →
        ReportsTriples limit program 1 done lines ways → CanEnd (ReportsAll limit program triples) lines }
{}
