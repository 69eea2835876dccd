//! Sets of cells by their numbers.

ghost use Rattle.std.specs.Prelude.{IfNone, IfSome};
ghost use Rattle.store_core.specs.declared.ids.CellId.{CellId};
ghost use Rattle.routing_walks.specs.WellFormed.{IsFirstCell};
ghost use Rattle.routing_walks.specs.Sets.{Has};

use std::collections::BTreeSet;
use store_core::CellId;

/// The cell of a set with the least number; `None` exactly where there is none. Takes no memory.
pub(crate) fn least(numbers: &BTreeSet<u32>) -> Option<CellId>
    ensures none { IfNone result ((c : CellId) → Has numbers.now c → ⊥) }
    ensures some { IfSome result (IsFirstCell (Has numbers.now)) }
{
    let number = numbers.first()?;
    Some(CellId(*number))
}
