//! Two functions made one by a test.

ghost use Rattle.std.specs.Prelude.{◌≡◌, ◌<◌, ◌^◌, IfOk};
ghost use Rattle.labels.specs.Labels.{Label};
ghost use Rattle.bdd_nodes.specs.Shelf.{IsShelf, IsValid, state_of};
ghost use Rattle.gta_pinned.specs.Making.{Makes, chosen};

use bdd_nodes::{NodeRef, Shelf};
use bdd_walk::{Joiner, LeafRule, StateList, Stop};
use std::alloc::{AllocError, Global};

/// Gives a state where a test is 1, and elsewhere the state that is there.
#[derive(Clone, Copy, Debug)]
struct Choosing {
    state: u32,
}

impl LeafRule for Choosing {
    ghost use Rattle.gta_pinned.specs.Making.{chosen_of, IsChoice};

    ghost answers = { λ rule. chosen_of rule.state };

    ghost may_ask = { λ rule. IsChoice rule.state };

    fn leaf(&mut self, states: &StateList) -> Result<u32, AllocError> {
        let states = states.as_slice();
        Ok(if states[0] == 1 {
            self.state
        } else {
            states[1]
        })
    }
}

/// The function that has the state where the test is 1, and is the other function elsewhere.
pub(crate) fn choose(
    alloc: Global,
    test: NodeRef,
    state: u32,
    other: NodeRef,
    shelf: &mut Shelf,
) -> Result<NodeRef, Stop>
    requires shelf { IsShelf shelf.old }
    requires test { IsValid shelf.old test }
    requires other { IsValid shelf.old other }
    requires small { state < 2 ^ 31 }
    ensures value { IfOk result (λ made. (label : Label) →
        state_of shelf.new made label ≡ chosen state (state_of shelf.old test label) (state_of shelf.old other label)) }
    ensures valid { IfOk result (IsValid shelf.new) }
    ensures makes { Makes shelf.old shelf.new }
{
    let mut rule = Choosing { state };
    let mut joiner = Joiner::new(alloc);
    let made = joiner.join(alloc, shelf, &[test, other], None, &mut rule)?;
    Ok(made)
}
