//! Whether a store meets a claim.

ghost use Rattle.std.specs.Prelude.{◌↔◌, IsTrue, IfOk, IfSome};
ghost use Rattle.store_core.specs.Tables.{IsTypeTable, IsVarTable};
ghost use Rattle.store_core.specs.Stores.{Fits};
ghost use Rattle.store_logic.specs.Fits.{KnowsVars};
ghost use Rattle.routing_walks.specs.CutFaults.{IsSound};
ghost use Rattle.store_exec.specs.Cuts.{IsMet};
ghost use Rattle.store_exec.specs.Fits.{ClaimFits};

use crate::formulas::formula_of;
use crate::known::knows_vars;
use crate::reading::satisfies;
use crate::worth::is_worth;
use bdd_walk::Stop;
use routing_expr::cut_fault;
use std::alloc::{AllocError, Global};
use store_core::{Store, TypeTable, VarTable};
use store_exec::Claim;
use store_sat::sat;
use tree_encode::{Layout, VariantList};
use tree_store::encode;

/// Whether the tree of the store satisfies the claim's formula. The tree has no dead cell of a logic set.
///
/// # Errors
///
/// `Limit` where the automata on the way have too many nodes; want of memory, also where the layout or the tree has no room in its
/// integers, and where a projection has no room for its sets.
fn is_told(
    alloc: Global,
    types: &TypeTable,
    vars: &VarTable,
    store: &Store,
    claim: &Claim,
) -> Result<bool, Stop>
    requires fits { Fits types.now vars.now store.now }
    requires claim { ClaimFits types.now vars.now claim.now }
    requires table { IsTypeTable types.now }
    requires known { KnowsVars types.now vars.now }
    requires sound { IsSound types.now vars.now store.now }
    ensures { IfOk result (λ met. IsTrue met ↔ IsMet types.now vars.now store.now claim.now) }
{
    let spares = VariantList::new(alloc);
    let l = Layout::new(alloc, types, vars, &spares)?;
    let formula = formula_of(alloc, &l, claim)?;
    let guide = l.guide(alloc)?;
    let tree = encode(alloc, &l, store)?;
    satisfies(alloc, &guide, &formula, &tree)
}

/// Whether the store meets the claim, by an automaton. `None` where none tells: the claim isn't worth one, the store with its logic
/// sets restricted to the live cells isn't well-formed, or there is no room.
fn by_automaton(
    alloc: Global,
    types: &TypeTable,
    vars: &VarTable,
    store: &Store,
    claim: &Claim,
) -> Option<bool>
    requires fits { Fits types.now vars.now store.now }
    requires claim { ClaimFits types.now vars.now claim.now }
    ensures value { IfSome result (λ met. IsTrue met ↔ IsMet types.now vars.now store.now claim.now) }
    ensures vars { IsVarTable vars.now }
{
    if !knows_vars(types, vars) || !is_worth(alloc, store, &claim.assertion).unwrap_or(false) {
        return None;
    }
    let Ok(None) = cut_fault(alloc, types, vars, store) else {
        return None;
    };
    is_told(alloc, types, vars, store, claim).ok()
}

/// Whether a store that fits its tables meets a claim that fits them: it satisfies the claim's assertion on its region. Where quantifiers
/// over sets have many sets to go over, and the store is a graph type's but for dead cells in logic sets, an automaton reads the store;
/// elsewhere, and where that has no room, each set is tried, so that the time doubles with each cell of the type.
///
/// # Errors
///
/// Want of memory.
pub fn holds(
    alloc: Global,
    types: &TypeTable,
    vars: &VarTable,
    store: &Store,
    claim: &Claim,
) -> Result<bool, AllocError>
    requires fits { Fits types.now vars.now store.now }
    requires claim { ClaimFits types.now vars.now claim.now }
    ensures { IfOk result (λ met. IsTrue met ↔ IsMet types.now vars.now store.now claim.now) }
{
    match by_automaton(alloc, types, vars, store, claim) {
        Some(met) => Ok(met),
        None => sat(alloc, types, store, &claim.region, &claim.assertion),
    }
}
