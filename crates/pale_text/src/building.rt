//! Trees from their tokens and the acts of a reading.

ghost use Rattle.std.specs.Prelude.{◌≡◌, IfOk};
ghost use Rattle.pale_text.specs.Making.{tree_by};

use crate::language::Language;
use crate::near::{Near, after_first, first_of};
use crate::token::Token;
use ll1_reader::Event;
use std::alloc::{AllocError, Global};

/// The tree of these tokens, in whose reading this happens. Takes no stack for a text's length or depth.
pub(crate) fn build<L: Language>(
    alloc: Global,
    tokens: &[Token],
    events: &[Event<L::Act>],
) -> Result<L::Tree, AllocError>
    ensures { IfOk result (λ tree. tree ≡ tree_by L.after L.nothing L.tree_of tokens.now events.now) }
{
    let mut parts = L::begin(alloc);
    let mut last = None;
    let mut left = tokens;
    for event in events {
        match *event {
            Event::Token => {
                last = first_of(left);
                left = after_first(left);
            }
            Event::Act(act) => {
                let next = first_of(left);
                L::perform(&mut parts, act, Near { last, next })?;
            }
        }
    }
    Ok(L::finish(parts))
}
