//! The conditions of a cut, as formulas.

ghost use Rattle.std.specs.Prelude.{◌≡◌, IfOk};
ghost use Rattle.graph_view.specs.Cuts as cuts;
ghost use Rattle.graph_view.specs.Sights.{sight_of};

use crate::cuts::{fields_are_wrong, leaks};
use crate::dangling::dangles;
use crate::shared::shares;
use crate::valued::values_by;
use graph_view::{CutCheck, View};
use std::alloc::{AllocError, Global};
use tree_encode::Layout;
use ws2s_core::Formula;

/// The store is at fault in the way that is looked for at a cut. Quantifiers bind tracks from the view's next one on.
///
/// # Errors
///
/// Want of memory, also where there are not as many tracks.
pub fn cut_formula(
    alloc: Global,
    l: &Layout<'_>,
    v: &View,
    check: CutCheck,
) -> Result<Formula, AllocError>
    ensures value { IfOk result (λ formula. formula
        ≡ cuts.cut_formula l.now.types (sight_of l.now.vars v.now) l.now.vars v.now.vars check v.now.next) }
{
    let next = v.next;
    match check {
        CutCheck::DanglingRef => {
            let cells = values_by(alloc, l.vars(), true, v.vars.as_slice())?;
            dangles(alloc, l, v, next, cells.as_slice())
        }
        CutCheck::Shared => {
            let roots = values_by(alloc, l.vars(), false, v.vars.as_slice())?;
            shares(alloc, l, v, next, roots.as_slice())
        }
        CutCheck::Leak => {
            let roots = values_by(alloc, l.vars(), false, v.vars.as_slice())?;
            leaks(alloc, l, v, next, roots.as_slice())
        }
        CutCheck::Field => fields_are_wrong(alloc, l, v, next),
    }
}
