//! Which accepting states pairs and sets reach.

ghost use Rattle.std.specs.Prelude.{◌↔◌, IsTrue};
ghost use Rattle.cert_check.specs.Reached.{Misses, NoPairSays, NoSetSays};

use cert_tables::{Table, accepts};
use cert_text::{PairLine, SetLine};

/// Whether a state isn't one of space 0 that accepts or doesn't, as is asked.
fn misses(table: &Table, is_accepting: bool, space: u32, state: u32) -> bool
    ensures { IsTrue result ↔ Misses table.now is_accepting space state }
{
    space != 0 || accepts(table, state) != is_accepting
}

/// Whether no pair of space 0 goes to a state that accepts, or none to one that doesn't.
pub(crate) fn no_pair_says(table: &Table, is_accepting: bool, pairs: &[PairLine]) -> bool
    ensures { IsTrue result ↔ NoPairSays table.now is_accepting pairs.now }
{
    for pair in pairs {
        if !misses(table, is_accepting, pair.space, pair.state) {
            return false;
        }
    }
    true
}

/// Whether no set of space 0 goes to a state that accepts, or none to one that doesn't.
pub(crate) fn no_set_says(table: &Table, is_accepting: bool, sets: &[SetLine]) -> bool
    ensures { IsTrue result ↔ NoSetSays table.now is_accepting sets.now }
{
    for set in sets {
        if !misses(table, is_accepting, set.space, set.state) {
            return false;
        }
    }
    true
}
