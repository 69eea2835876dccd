//! Automata with small tables: of equal rows there is one, and of equal columns.

ghost use Rattle.std.specs.Prelude.{List, [], ◌∷◌};
ghost use Rattle.ws2s_core.specs.declared.formula.Formula.{Formula};
ghost use Rattle.gta_keep.specs.Holding.{HoldsBeside, IsMinimalFor, Passes};

use crate::kept::Kept;
use bdd_nodes::Shelf;
use gta_core::{Auto, release};
use gta_merge::{is_told_apart, merge};
use std::alloc::Global;
use ws2s_core::Guide;

/// The same automaton, in which states of a child share a class where they have the same roots. The one that it is made of is
/// let go of. Where a look tells that nothing is to be merged, or there is no memory for it, the automaton stays as it is.
pub(crate) fn merged(alloc: Global, g: &Guide, a: Auto, kept: &Kept, shelf: &mut Shelf) -> Auto
    requires { HoldsBeside g.now shelf.old (a ∷ []) kept.now }
    ensures passes { Passes g.now shelf.old shelf.new (a ∷ []) (result ∷ []) kept.now kept.now }
    ensures minimal { (f : Formula) → IsMinimalFor g.now shelf.old a f → IsMinimalFor g.now shelf.new result f }
{
    if is_told_apart(alloc, g, &a, shelf).unwrap_or(true) {
        return a;
    }
    match merge(alloc, g, &a, shelf) {
        Ok(made) => {
            release(a, shelf);
            made
        }
        Err(_) => a,
    }
}
