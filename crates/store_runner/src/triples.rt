//! A triple's code executed from a store, and shown.

ghost use Rattle.std.specs.Prelude.{◌<◌, length, IfOk, ℕ, Ok};
ghost use Rattle.store_core.specs.Stores.{StoreMap, Fits, IsFresh};
ghost use Rattle.store_exec.specs.declared.outcome.Outcome.TheVariants as outcome;
ghost use Rattle.store_exec.specs.Fits.{CanRunCode, TripleFits};
ghost use Rattle.store_exec.specs.Runs.{RunsCode};
ghost use Rattle.store_trace.specs.Tracing.{TracesCode, TracesTriple};

use crate::cuts::at_cut;
use crate::running::trace;
use std::alloc::{AllocError, Global};
use store_core::{Store, TypeTable, VarTable};
use store_exec::{Fault, Triple};
use store_trace::{Event, EventList, Traced, traces_are_runs, traces_keep_stores_fitting};

/// What a triple shows whose code ended at the cut at this place.
fn arrived(
    alloc: Global,
    types: &TypeTable,
    vars: &VarTable,
    triple: &Triple,
    place: u32,
    shown: EventList,
    at: Store,
) -> Result<Traced, AllocError>
    requires triple { TripleFits types.now vars.now triple.now }
    requires place { place < length triple.now.cuts }
    requires at { Fits types.now vars.now at }
    ensures traced { IfOk result (λ traced. (s : StoreMap) → TracesCode types.now triple.now.code s shown at (Ok place) →
        TracesTriple types.now vars.now triple.now s traced.events traced.at traced.end) }
    ensures fits { IfOk result (λ traced. Fits types.now vars.now traced.at) }
{
    let Some(cut) = triple.cuts.get(place as usize) else {
        unreachable!()
    };
    match at_cut(alloc, types, vars, cut, &at)? {
        Some(cause) => Ok(Traced {
            events: shown,
            at,
            end: Err(Fault {
                cause,
                line: cut.line,
            }),
        }),
        None => {
            let mut events = shown;
            events.push(Event::Cut(cut.line))?;
            Ok(Traced {
                events,
                at,
                end: Ok(cut.line),
            })
        }
    }
}

/// Executes the code of a triple from a store and says what it shows, and the line of the cut at which it ends, where nothing is wrong, or
/// the fault. The triple fits the tables, its code can be run, and the places at which it ends are places of its cuts. The store
/// where it stands fits the tables.
pub fn trace_triple(
    alloc: Global,
    types: &TypeTable,
    vars: &VarTable,
    triple: &Triple,
    store: Store,
) -> Result<Traced, AllocError>
    requires fits { TripleFits types.now vars.now triple.now }
    requires store { Fits types.now vars.now store × IsFresh store }
    requires can { CanRunCode types.now store triple.now.code }
    requires places { (at : StoreMap) (place : ℕ) → RunsCode types.now triple.now.code store (outcome.End place at) → place < length triple.now.cuts }
    ensures traced { IfOk result (λ traced. TracesTriple types.now vars.now triple.now store traced.events traced.at traced.end) }
    ensures fits { IfOk result (λ traced. Fits types.now vars.now traced.at) }
{
    traces_are_runs();
    traces_keep_stores_fitting();
    let traced = trace(alloc, types, &triple.code, store)?;
    match traced.end {
        Ok(place) => arrived(alloc, types, vars, triple, place, traced.events, traced.at),
        Err(_) => Ok(traced),
    }
}
