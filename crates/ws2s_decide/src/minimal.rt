//! The minimal automaton of a formula.

ghost use Rattle.std.specs.Prelude.{◌≡◌, ◌<◌, ℕ, [], ◌∷◌, Err, IfOk, OnErr};
ghost use Rattle.bdd_nodes.specs.Shelf.{limit_of};
ghost use Rattle.ws2s_theory.specs.Peaks.{HasPeak};
ghost use Rattle.gta_keep.specs.Holding.{HasNoTables, Holds, IsMinimalFor};

use crate::machine::automaton_of;
use crate::way::Way;
use bdd_nodes::Shelf;
use bdd_walk::Stop;
use gta_core::Auto;
use gta_keep::Kept;
use std::alloc::Global;
use ws2s_core::{Formula, Guide, Interner, intern};

/// The minimal automaton of a formula under a guide, in a shelf: it accepts exactly the trees that satisfy the formula. The shelf has no
/// table at the call, and that of the automaton alone afterwards.
///
/// # Errors
///
/// `Limit` only where the formula's Peak under the guide exceeds the shelf's limit; want of memory, also where a projection on the way
/// has no room for its sets. The shelf has no table then.
pub fn automaton(alloc: Global, f: &Formula, g: &Guide, shelf: &mut Shelf) -> Result<Auto, Stop>
    requires { HasNoTables shelf.old }

    // The answer.
    ensures minimal { IfOk result (λ auto. IsMinimalFor g.now shelf.new auto f.now) }
    ensures limit { result ≡ Err Stop.Limit → (p : ℕ) → HasPeak g.now f.now p → limit_of shelf.old < p }

    // What the call leaves.
    ensures alone { IfOk result (λ auto. Holds g.now shelf.new (auto ∷ [])) }
    ensures none { OnErr result (HasNoTables shelf.new) }
    ensures same_limit { limit_of shelf.new ≡ limit_of shelf.old }
{
    let mut interner = Interner::new(alloc);
    let id = intern(alloc, &mut interner, f)?;
    let mut kept = Kept::new(alloc)?;
    let way = Way {
        stops_early: true,
        once: true,
    };
    let made = automaton_of(alloc, g, &interner, id, way, &mut kept, shelf);
    kept.release_all(shelf);
    drop(kept);
    drop(interner);
    made
}
