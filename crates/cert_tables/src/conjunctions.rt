//! Whether pairs lead from the automata of two formulas to that of their conjunction.

ghost use Rattle.std.specs.Prelude.{◌≡◌, ◌↔◌, map, IsTrue, IfOk};
ghost use Rattle.cert_theory.specs.Tables.{IsPairTable};
ghost use Rattle.cert_nodes.specs.Spots.{AreDrawn};
ghost use Rattle.cert_tables.specs.Automata.{signed, table_automaton};
ghost use Rattle.cert_tables.specs.PairKeys.{named_pair};
ghost use Rattle.cert_tables.specs.Pairs.{AcceptsAlike, AcceptAlike};

use crate::pair_table::PairTable;
use crate::pairs::{go_along, start_together};
use crate::table::{Table, accepts, accepts_signed};
use cert_nodes::Diagrams;
use cert_text::PairLine;
use std::alloc::{AllocError, Global};
use ws2s_core::Guide;

/// Whether a pair of space 0 accepts in both parts exactly where its state does.
fn accepts_alike(
    a: &Table,
    a_negated: bool,
    b: &Table,
    b_negated: bool,
    c: &Table,
    pair: PairLine,
) -> bool
    ensures { IsTrue result ↔ AcceptsAlike a.now a_negated b.now b_negated c.now pair }
{
    let first = accepts_signed(a, a_negated, pair.first);
    let second = accepts_signed(b, b_negated, pair.second);
    let both = first && second;
    both == accepts(c, pair.state)
}

/// Whether all pairs of space 0 do.
fn accept_alike(
    a: &Table,
    a_negated: bool,
    b: &Table,
    b_negated: bool,
    c: &Table,
    pairs: &[PairLine],
) -> bool
    ensures { IsTrue result ↔ AcceptAlike a.now a_negated b.now b_negated c.now pairs.now }
{
    for pair in pairs {
        if pair.space == 0 && !accepts_alike(a, a_negated, b, b_negated, c, *pair) {
            return false;
        }
    }
    true
}

/// Whether pairs lead from the automata of two formulas to that of their conjunction; each part is a table's automaton or its
/// complement. Each two triples of classes that occur in a space are looked at once.
///
/// # Errors
///
/// Want of memory.
pub fn lead_to_conjunction(
    alloc: Global,
    g: &Guide,
    nodes: &Diagrams,
    a: &Table,
    a_negated: bool,
    b: &Table,
    b_negated: bool,
    pairs: &PairTable,
    c: &Table,
) -> Result<bool, AllocError>
    requires { AreDrawn nodes.now }
    ensures { IfOk result (λ lead. IsTrue lead ↔
        IsPairTable g.now (signed a_negated (table_automaton nodes.now a.now)) (signed b_negated (table_automaton nodes.now b.now))
        (map named_pair pairs.now) (table_automaton nodes.now c.now)) }
{
    for space in 0..g.spaces() {
        if !start_together(space, a, b, pairs, c) {
            return Ok(false);
        }
        if !go_along(alloc, g, nodes, space, a, b, pairs, c)? {
            return Ok(false);
        }
    }
    Ok(accept_alike(a, a_negated, b, b_negated, c, pairs.as_slice()))
}
