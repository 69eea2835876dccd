//! The order in which pairs and sets stand.

ghost use Rattle.std.specs.Prelude.{◌↔◌, [], ◌∷◌, ◌++◌, IsTrue};
ghost use Rattle.cert_tables.specs.Orders.{IsPairBefore, ArePairsInOrder, AreSetsInOrder};

use crate::pair_table::PairTable;
use crate::set_table::SetTable;
use cert_text::{PairLine, SetLine};

/// Whether a pair comes before another: by space, then by the state of the left part, then by that of the right one.
fn comes_before(line: PairLine, next: PairLine) -> bool
    ensures { IsTrue result ↔ IsPairBefore line next }
{
    if line.space != next.space {
        line.space < next.space
    } else if line.first != next.first {
        line.first < next.first
    } else {
        line.second < next.second
    }
}

/// Whether pairs stay in order with a line behind them. Takes no memory.
pub fn pair_may_follow(pairs: &PairTable, line: PairLine) -> bool
    requires { ArePairsInOrder pairs.now }
    ensures { IsTrue result ↔ ArePairsInOrder (pairs.now ++ line ∷ []) }
{
    match pairs.as_slice().last() {
        None => true,
        Some(last) => comes_before(*last, line),
    }
}

/// Whether sets stay in order with a line behind them. Takes no memory.
pub fn set_may_follow(sets: &SetTable, line: &SetLine) -> bool
    requires { AreSetsInOrder sets.now }
    ensures { IsTrue result ↔ AreSetsInOrder (sets.now ++ line.now ∷ []) }
{
    match sets.as_slice().last() {
        None => true,
        Some(last) => last.space <= line.space,
    }
}
