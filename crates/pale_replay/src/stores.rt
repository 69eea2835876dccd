//! A store that meets a triple, executed.

ghost use Rattle.std.specs.Prelude.{◌≡◌, ◌≤◌, ◌<◌, ◌+◌, length, IfOk};
ghost use Rattle.store_core.specs.Stores.{StoreMap, Fits, IsFresh};
ghost use Rattle.store_exec.specs.declared.outcome.Outcome.TheVariants as outcome;
ghost use Rattle.store_exec.specs.Failing.{Meets};
ghost use Rattle.store_exec.specs.Runs.{RunsCode};
ghost use Rattle.pale_replay.specs.Replays.{Replays};
ghost use Rattle.pale_replay.specs.Running.{CanBeRun};

use crate::answer::Answer;
use routing_walks::well_formed_stores_are_fresh;
use std::alloc::{AllocError, Global};
use store_core::{Store, TypeTable, VarTable};
use store_exec::{Outcome, Triple, codes_keep_stores_fitting};
use store_runner::{at_cut, run};

/// What comes of a store with which the triple's code ends at the cut at this place.
fn arrive(
    alloc: Global,
    types: &TypeTable,
    vars: &VarTable,
    triple: &Triple,
    place: u32,
    store: &Store,
) -> Result<Answer, AllocError>
    requires triple { CanBeRun types.now vars.now triple.now }
    requires place { place < length triple.now.cuts }
    requires store { Fits types.now vars.now store.now }
    ensures { IfOk result (λ answer. (s : StoreMap) → Meets types.now vars.now triple.now s →
        RunsCode types.now triple.now.code s (outcome.End place store.now) → Replays types.now vars.now triple.now s answer) }
{
    let Some(cut) = triple.cuts.get(place as usize) else {
        unreachable!()
    };
    match at_cut(alloc, types, vars, cut, store)? {
        Some(cause) => Ok(Answer::Fails(cause, cut.line)),
        None => Ok(Answer::Ends(cut.line)),
    }
}

/// What comes of a store that meets the triple.
pub(crate) fn execute(
    alloc: Global,
    types: &TypeTable,
    vars: &VarTable,
    triple: &Triple,
    store: Store,
) -> Result<Answer, AllocError>
    requires triple { CanBeRun types.now vars.now triple.now }
    requires meets { Meets types.now vars.now triple.now store }
    requires numbers { store.next ≤ 1000001 }
    ensures { IfOk result (Replays types.now vars.now triple.now store) }
{
    well_formed_stores_are_fresh();
    codes_keep_stores_fitting();
    match run(alloc, types, &triple.code, store)? {
        Outcome::Fail(cause, line) => Ok(Answer::Fails(cause, line)),
        Outcome::End(place, after) => arrive(alloc, types, vars, triple, place, &after),
    }
}
