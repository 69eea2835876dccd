//! What the walk over reading, conditions, acts, items, codes, cuts and triples means.

ghost use Rattle.std.specs.Prelude.{◌≡◌, ◌⊎◌, ℕ, List, slice_get, Some, None};
ghost use Rattle.gta_theory.specs.Assignments.{Assignment, IsFinite};
ghost use Rattle.store_core.specs.declared.ids.TypeId.{TypeId};
ghost use Rattle.store_core.specs.declared.ids.VarId.{VarId};
ghost use Rattle.store_core.specs.Tables.{TypeEntry, VarEntry};
ghost use Rattle.store_core.specs.Stores.{StoreMap};
ghost use Rattle.store_logic.specs.declared.path.Path.{Path};
ghost use Rattle.store_logic.specs.declared.path.Operand.{Operand};
ghost use Rattle.store_logic.specs.declared.cond.Cond.{Cond};
ghost use Rattle.store_logic.specs.declared.act.Rhs.{Rhs};
ghost use Rattle.store_logic.specs.declared.act.Act.TheVariants as act;
ghost use Rattle.store_logic.specs.declared.assertion.Assertion.{Assertion};
ghost use Rattle.store_logic.specs.Sorts.{Truth, Cell};
ghost use Rattle.store_logic.specs.Terms.{truth_in};
ghost use Rattle.store_logic.specs.FitsCode.{PathFits, OperandFits, CondFits, ActFits};
ghost use Rattle.store_exec.specs.Steps.{made_of, truth_of};
ghost use Rattle.store_exec.specs.Steps as exec;
ghost use Rattle.store_exec.specs.declared.code.Item.{Item};
ghost use Rattle.store_exec.specs.declared.code.Code.{Code};
ghost use Rattle.store_exec.specs.declared.cause.Cause.{Cause};
ghost use Rattle.store_exec.specs.declared.outcome.Outcome.TheVariants as outcome;
ghost use Rattle.store_exec.specs.declared.triple.Cut.{Cut};
ghost use Rattle.store_exec.specs.declared.triple.Start.{Start};
ghost use Rattle.store_exec.specs.declared.triple.Triple.{Triple};
ghost use Rattle.store_exec.specs.Cuts.{AtCut};
ghost use Rattle.store_exec.specs.Failing.{Fails};
ghost use Rattle.store_exec.specs.Fits.{ItemsFit, CodeFits};
ghost use Rattle.store_exec.specs.Runs.{Does, RunsItems, RunsCode};
ghost use Rattle.site_list.specs.States.{Text, Check, State};
ghost use Rattle.site_list.specs.Reading.{path_value, operand_value, path_truth};
ghost use Rattle.site_list.specs.Conditions.{condition};
ghost use Rattle.site_list.specs.Acts.{act_rule};
ghost use Rattle.site_list.specs.Codes.{items, code};
ghost use Rattle.site_list.specs.Triples.{started, walked};
ghost use Rattle.graph_view.specs.After.{Standing};
ghost use Rattle.triple_meaning.specs.Sites.Places.{NoneComes, ComesFirst};
ghost use Rattle.triple_meaning.specs.Sites.Seeing.{IsOver, HasRoom, AreDefined, Sees};
ghost use Rattle.triple_meaning.specs.Sites.Answering.{Reads, Tells, MeansTruth};
ghost use Rattle.triple_meaning.specs.Sites.Doing.{Leads, AreAssertionsMeant};
ghost use Rattle.triple_meaning.specs.Sites.Ending.{EndsCode, AreCutsMeant, AreConditionsMeant, AreClaimsMeant, IsSettled};

/// Reading a path to a cell, or an operand, means the value that stands there: what is read stands for it, or the first cause that
/// comes is the one that stops execution. Nothing comes where it isn't reached.
pub fn reads_mean_values()
    ensures paths { (types : List TypeEntry) (vars : List VarEntry) (line : ℕ) (reached : Text) (s : State) (p : Path) (ty : TypeId) →
        PathFits types vars p (Cell ty) →
        Reads types vars line reached s (path_value types vars line reached p s) (λ t. exec.path_value t p) }
    ensures operands { (types : List TypeEntry) (vars : List VarEntry) (line : ℕ) (reached : Text) (s : State) (p : Operand) (ty : TypeId) →
        OperandFits types vars p (Cell ty) →
        Reads types vars line reached s (operand_value types vars line reached p s) (λ t. exec.operand_value t p) }
    ensures truths { (types : List TypeEntry) (vars : List VarEntry) (line : ℕ) (reached : Text) (s : State) (p : Path) →
        PathFits types vars p Truth →
        Tells types vars line reached s (path_truth types vars line reached p s) (λ t. made_of truth_in (exec.path_value t p)) }
{}

/// A condition means its truth: it is read from the left, and what stands right of `&&` or `||` is read where it counts alone.
pub fn conditions_mean_their_truth()
    ensures { (types : List TypeEntry) (vars : List VarEntry) (line : ℕ) (c : Cond) → CondFits types vars c →
        MeansTruth types vars line (condition types vars line c) (λ t. truth_of t c) }
{}

/// An assignment means its step: the cells of the place are read, then what is assigned is evaluated, and then the place is written.
/// `free` means its step; so does an assertion, where assertions are formulas that mean them.
pub fn acts_mean_their_steps()
    ensures assignments { (types : List TypeEntry) (vars : List VarEntry) (line : ℕ) (p : Path) (x : Rhs) (s : State) → ActFits types vars (act.Assign p x) →
        Leads types vars s (act_rule types vars line (act.Assign p x) s) (λ t end. Does types line t (act.Assign p x) end) }
    ensures frees { (types : List TypeEntry) (vars : List VarEntry) (line : ℕ) (v : VarId) (s : State) → ActFits types vars (act.Free v) →
        Leads types vars s (act_rule types vars line (act.Free v) s) (λ t end. Does types line t (act.Free v) end) }
    ensures assertions { (types : List TypeEntry) (vars : List VarEntry) (line : ℕ) (claim : Assertion) (s : State) → AreAssertionsMeant types vars →
        ActFits types vars (act.Assert claim) →
        Leads types vars s (act_rule types vars line (act.Assert claim) s) (λ t end. Does types line t (act.Assert claim) end) }
{}

/// Items mean their runs: one after the other, and of an `if` the way that its condition tells, with each other way idle.
pub fn items_mean_their_runs()
    ensures { (types : List TypeEntry) (vars : List VarEntry) (parts : List Item) (s : State) → AreAssertionsMeant types vars → ItemsFit types vars parts →
        Leads types vars s (items types vars parts s) (λ t end. RunsItems types parts t end) }
{}

/// A code means its run, where arriving at its cuts means what is wrong there: the first cause that comes is the one that stops the
/// code, or the first of those at the cut where it ends.
pub fn codes_mean_their_runs()
    ensures { (types : List TypeEntry) (vars : List VarEntry) (cuts : List Cut) (part : Code) (s : State) → AreAssertionsMeant types vars →
        AreCutsMeant types vars cuts → CodeFits types vars part →
        EndsCode types vars cuts s (code types vars cuts part s) (λ t out. RunsCode types part t out) }
{}

/// Arriving at cuts means what is wrong with the store there, in order, where the formulas of the conditions and of the claims mean
/// them.
pub fn cuts_mean_what_is_wrong()
    ensures { (types : List TypeEntry) (vars : List VarEntry) (cuts : List Cut) → AreConditionsMeant types vars →
        ((place : ℕ) (cut : Cut) → slice_get cuts place ≡ Some cut → AreClaimsMeant types vars cut) → AreCutsMeant types vars cuts }
{}

/// Before all code the walk sees the store of the tree, also where it has made a track for the returned part of a call.
pub fn walks_begin_with_the_store_of_the_tree()
    ensures { (types : List TypeEntry) (vars : List VarEntry) (start : Start) (a : Assignment) (first : StoreMap) (next : ℕ) →
        IsOver types vars a first → HasRoom types vars next (started types vars start) →
        (at : Standing) × Sees types vars next a first (started types vars start) first at }
{}

/// On the tree of a well-formed store, with what defines it on each track that was made, the first cause that comes on the walk over a
/// triple's code is the one with which the triple fails; none comes where the code ends at a cut without a cause; and what comes first
/// is what the triple fails with, where it is settled how its code ends.
pub fn walks_mean_failing()
    ensures fails { (types : List TypeEntry) (vars : List VarEntry) (t : Triple) (a : Assignment) (first : StoreMap) (next : ℕ) (why : Cause) (line : ℕ) →
        AreAssertionsMeant types vars → AreCutsMeant types vars t.cuts → CodeFits types vars t.code → IsOver types vars a first →
        HasRoom types vars next (walked types vars t) → AreDefined next a (walked types vars t) → Fails types vars t first why line →
        ComesFirst next a (walked types vars t).checks why line }
    ensures passes { (types : List TypeEntry) (vars : List VarEntry) (t : Triple) (a : Assignment) (first : StoreMap) (next : ℕ) (place : ℕ)
        (last : StoreMap) (cut : Cut) → AreAssertionsMeant types vars → AreCutsMeant types vars t.cuts → CodeFits types vars t.code →
        IsOver types vars a first → HasRoom types vars next (walked types vars t) → AreDefined next a (walked types vars t) →
        RunsCode types t.code first (outcome.End place last) → slice_get t.cuts place ≡ Some cut → AtCut types vars cut last None →
        NoneComes next a (walked types vars t).checks }
    ensures comes { (types : List TypeEntry) (vars : List VarEntry) (t : Triple) (a : Assignment) (first : StoreMap) (next : ℕ) (why : Cause) (line : ℕ) →
        AreAssertionsMeant types vars → AreCutsMeant types vars t.cuts → CodeFits types vars t.code → IsOver types vars a first →
        HasRoom types vars next (walked types vars t) → AreDefined next a (walked types vars t) → IsSettled types vars t first →
        ComesFirst next a (walked types vars t).checks why line → Fails types vars t first why line }
{}

/// Of places at most one cause at one line comes first, and not where none comes; and one does or none comes.
pub fn one_cause_comes_first()
    ensures one { (next : ℕ) (a : Assignment) (checks : List Check) (why other : Cause) (line at : ℕ) → ComesFirst next a checks why line →
        ComesFirst next a checks other at → (why ≡ other) × (line ≡ at) }
    ensures none { (next : ℕ) (a : Assignment) (checks : List Check) (why : Cause) (line : ℕ) → ComesFirst next a checks why line →
        NoneComes next a checks → ⊥ }
    ensures some { (next : ℕ) (a : Assignment) (checks : List Check) → IsFinite a →
        NoneComes next a checks ⊎ ((why : Cause) × (line : ℕ) × ComesFirst next a checks why line) }
{}
