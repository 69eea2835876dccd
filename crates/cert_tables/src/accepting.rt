//! Whether sets accept where their states do.

ghost use Rattle.std.specs.Prelude.{◌≡◌, ◌↔◌, IsTrue};
ghost use Rattle.std.specs.List.{list_any};
ghost use Rattle.cert_tables.specs.Automata.{accepts_signed};
ghost use Rattle.cert_tables.specs.Accepting.{AcceptsBySome, AcceptBySome};

use crate::table::{Table, accepts, accepts_signed};
use cert_text::SetLine;

/// Whether some of the states accepts in the automaton, or in its complement.
fn some_accepts(a: &Table, a_negated: bool, members: &[u32]) -> bool
    ensures { result ≡ list_any (accepts_signed a.now a_negated) members.now }
{
    members
        .iter()
        .any(|member| accepts_signed(a, a_negated, *member))
}

/// Whether some member of a set accepts exactly where its state does.
fn accepts_by_some(a: &Table, a_negated: bool, line: &SetLine, c: &Table) -> bool
    ensures { IsTrue result ↔ AcceptsBySome a.now a_negated c.now line.now }
{
    some_accepts(a, a_negated, line.members.as_slice()) == accepts(c, line.state)
}

/// Whether in each set of space 0 some member accepts, in the automaton or in its complement, exactly where the state does that
/// the set goes to. Takes no memory.
pub fn accept_by_some(a: &Table, a_negated: bool, sets: &[SetLine], c: &Table) -> bool
    ensures { IsTrue result ↔ AcceptBySome a.now a_negated c.now sets.now }
{
    for line in sets {
        if line.space == 0 && !accepts_by_some(a, a_negated, line, c) {
            return false;
        }
    }
    true
}
