//! Whether sets lead from the automaton of a formula to that of the quantified formula.

ghost use Rattle.std.specs.Prelude.{◌≡◌, ◌↔◌, ℕ, map, Contains, IsTrue, IfOk};
ghost use Rattle.gta_theory.specs.Constructions.{Settled};
ghost use Rattle.cert_theory.specs.Tables.{SetGoesTo, IsSetTable, Lists, IsSettledList};
ghost use Rattle.cert_nodes.specs.Spots.{AreDrawn};
ghost use Rattle.cert_tables.specs.Automata.{signed, initial_in, table_automaton};
ghost use Rattle.cert_tables.specs.SetKeys.{named_set};
ghost use Rattle.cert_settled.specs.Settling.{placed};

use crate::states::{Placed, SettledStates};
use cert_nodes::Diagrams;
use cert_tables::{SetTable, Table, accept_by_some, initial, set_goes_to, sets_go_along};
use std::alloc::{AllocError, Global};
use ws2s_core::Guide;

/// The states of a space.
fn states_in(alloc: Global, space: u32, states: &[Placed]) -> Result<Vec<u32>, AllocError>
    ensures { IfOk result (λ members. (q : ℕ) → Contains members.items q ↔ Lists (map placed states.now) space q) }
{
    let mut members = Vec::new(alloc);
    for state in states {
        if state.space == space {
            members.push(state.state)?;
        }
    }
    Ok(members)
}

/// Whether the set of a space's states goes to its initial state.
fn starts_go(
    alloc: Global,
    space: u32,
    settled: &SettledStates,
    sets: &SetTable,
    c: &Table,
) -> Result<bool, AllocError>
    ensures { IfOk result (λ go. IsTrue go ↔
        SetGoesTo (map named_set sets.now) space (Lists settled.now space) (initial_in c.now space)) }
{
    let members = states_in(alloc, space, settled.as_slice())?;
    Ok(set_goes_to(sets, space, members, initial(c, space)))
}

/// Whether sets lead from the automaton of a formula, a table's or its complement, to that of the formula quantified over a
/// track; the states that the track starts with are given. Each two keys of classes that occur in a space are looked at once.
///
/// # Errors
///
/// Want of memory.
pub fn lead_to_quantified(
    alloc: Global,
    g: &Guide,
    nodes: &Diagrams,
    a: &Table,
    a_negated: bool,
    dropped: u32,
    settled: &SettledStates,
    sets: &SetTable,
    c: &Table,
) -> Result<bool, AllocError>
    requires drawn { AreDrawn nodes.now }
    requires starts { IsSettledList g.now (table_automaton nodes.now a.now) dropped settled.now }
    ensures { IfOk result (λ lead. IsTrue lead ↔
        IsSetTable g.now (signed a_negated (table_automaton nodes.now a.now)) dropped
        (Settled g.now (signed a_negated (table_automaton nodes.now a.now)) dropped)
        (map named_set sets.now) (table_automaton nodes.now c.now)) }
{
    for space in 0..g.spaces() {
        let start = starts_go(alloc, space, settled, sets, c)?;
        if !start {
            return Ok(false);
        }
        let go = sets_go_along(alloc, g, nodes, space, a, dropped, sets, c)?;
        if !go {
            return Ok(false);
        }
    }
    Ok(accept_by_some(a, a_negated, sets.as_slice(), c))
}
