//! What holds of claims, each law the contract of a function that does nothing.

ghost use Rattle.std.specs.Prelude.{◌↔◌, List};
ghost use Rattle.gta_theory.specs.Assignments.{Assignment, IsFinite};
ghost use Rattle.ws2s_core.specs.Satisfaction.{WSat};
ghost use Rattle.store_core.specs.Tables.{TypeEntry, VarEntry, IsTypeTable};
ghost use Rattle.store_core.specs.Stores.{StoreMap};
ghost use Rattle.routing_walks.specs.WellFormed.{IsWellFormed};
ghost use Rattle.store_exec.specs.declared.triple.Claim.{Claim};
ghost use Rattle.store_exec.specs.Cuts.{IsMet};
ghost use Rattle.store_exec.specs.Fits.{ClaimFits};
ghost use Rattle.store_exec.specs.Restricted.{restricted};
ghost use Rattle.tree_store.specs.Encoding.{IsAssignmentOf};
ghost use Rattle.store_claims.specs.Formulas.{formula_on};

/// A store meets a claim exactly where it does with its logic sets restricted to the live cells, whose tree is the same.
pub fn claims_read_live_cells_alone()
    ensures claims { (types : List TypeEntry) (vars : List VarEntry) (s : StoreMap) (claim : Claim) →
        IsMet types vars s claim ↔ IsMet types vars (restricted s) claim }
    ensures trees { (types : List TypeEntry) (vars : List VarEntry) (s : StoreMap) (a : Assignment) → IsAssignmentOf types vars s a →
        IsAssignmentOf types vars (restricted s) a }
{}

/// The tree of a well-formed store satisfies the formula of a claim that fits the tables exactly where the store meets the claim.
/// (Møller and Schwartzbach, PLDI 2001.)
pub fn formulas_of_claims_mean_them()
    ensures { (types : List TypeEntry) (vars : List VarEntry) (s : StoreMap) (a : Assignment) (claim : Claim) → IsTypeTable types →
        IsWellFormed types vars s → ClaimFits types vars claim → IsAssignmentOf types vars s a → IsFinite a →
        WSat (formula_on types vars claim.region claim.assertion) a ↔ IsMet types vars s claim }
{}
