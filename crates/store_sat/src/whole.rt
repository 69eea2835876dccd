//! Whether a store satisfies an assertion on a region.

ghost use Rattle.std.specs.Prelude.{◌↔◌, [], List, IfOk, IsTrue};
ghost use Rattle.store_core.specs.Tables.{VarEntry, IsVarTable};
ghost use Rattle.store_logic.specs.Terms.{outside};
ghost use Rattle.store_logic.specs.Fits.{RegionFits};
ghost use Rattle.store_logic.specs.Satisfaction.{Sat, SatAll};
ghost use Rattle.routing_walks.specs.Regions.{store_on as on};

use crate::judge::Judge;
use crate::region_cells::{part_of, rest_of};
use routing_expr::store_on;
use std::alloc::{AllocError, Global};
use store_core::{CellList, Store, TypeTable};
use store_logic::{Assertion, Region};

/// Whether the store on these cells satisfies the assertion.
fn sat_on(
    alloc: Global,
    types: &TypeTable,
    store: &Store,
    cells: &CellList,
    assertion: &Assertion,
) -> Result<bool, AllocError>
    ensures { IfOk result (λ truth. IsTrue truth ↔ SatAll types.now [] (on store.now cells.now) outside assertion.now) }
{
    let on = store_on(alloc, store, cells)?;
    let judge = Judge {
        alloc,
        types,
        store: &on,
    };
    judge.judge(assertion)
}

/// Whether the store satisfies the assertion on the region, which names data variables. A predicate says nothing here, and
/// holds of nothing. Each set is tried for a quantifier over sets, so the time doubles with each cell of the type.
/// (Møller and Schwartzbach, PLDI 2001, "pointer assertion logic".)
pub fn sat(
    alloc: Global,
    types: &TypeTable,
    store: &Store,
    region: &Region,
    assertion: &Assertion,
) -> Result<bool, AllocError>
    ensures { IfOk result (λ truth. (vars : List VarEntry) → IsVarTable vars → RegionFits vars region.now →
        IsTrue truth ↔ Sat types.now vars [] store.now region.now outside assertion.now) }
{
    match region {
        Region::All => {
            let judge = Judge {
                alloc,
                types,
                store,
            };
            let truth = judge.judge(assertion)?;
            Ok(truth)
        }
        Region::Part(roots) => {
            let cells = part_of(alloc, types, store, roots.as_slice())?;
            let truth = sat_on(alloc, types, store, &cells, assertion)?;
            Ok(truth)
        }
        Region::Rest(roots) => {
            let cells = part_of(alloc, types, store, roots.as_slice())?;
            let rest = rest_of(alloc, store, &cells)?;
            let truth = sat_on(alloc, types, store, &rest, assertion)?;
            Ok(truth)
        }
    }
}
