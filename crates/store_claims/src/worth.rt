//! Which claims are worth an automaton.

use plain_data::Stack;
use std::alloc::{AllocError, Global};
use store_core::Store;
use store_logic::Assertion;

/// A claim is worth its automaton where its quantifiers over sets, times the live cells, are more than this: with fewer, about as many
/// sets are tried as two to this power, in less time than the automaton takes.
const FEW_CHOICES: u64 = 14;

/// Whether a claim with the assertion is worth an automaton on the store. No contract rests on the answer.
pub(crate) fn is_worth(
    alloc: Global,
    store: &Store,
    assertion: &Assertion,
) -> Result<bool, AllocError> {
    let sets = set_quantifiers(alloc, assertion)?;
    Ok(u64::from(sets).saturating_mul(store.cells() as u64) > FEW_CHOICES)
}

/// How many quantifiers over sets the assertion has, or the greatest number where there are more.
fn set_quantifiers(alloc: Global, assertion: &Assertion) -> Result<u32, AllocError> {
    let mut count = 0_u32;
    let mut waiting = Stack::new(alloc);
    let mut part = assertion;
    loop {
        match part {
            Assertion::Not(inner) | Assertion::Ex(_, inner) | Assertion::All(_, inner) => {
                part = inner.get();
            }
            Assertion::ExSet(_, inner) | Assertion::AllSet(_, inner) => {
                count = count.saturating_add(1);
                part = inner.get();
            }
            Assertion::And(left, right)
            | Assertion::Or(left, right)
            | Assertion::Imp(left, right)
            | Assertion::Iff(left, right) => {
                waiting.push(right.get())?;
                part = left.get();
            }
            _ => match waiting.pop() {
                Some(next) => part = next,
                None => return Ok(count),
            },
        }
    }
}
