//! How large assertions become with their predicates put in, found before anything is put in.

ghost use Rattle.std.specs.Prelude.{◌≡◌, ◌≤◌, [], ◌∷◌, ◌++◌, map, reverse, IfOk, OnOk};
ghost use Rattle.std.specs.List.{AllByRecursion};
ghost use Rattle.store_logic.specs.Sizes.{node_count};
ghost use Rattle.store_logic.specs.Expansion.{expanded_bodies};
ghost use Rattle.store_logic.specs.ExpandingSizes.{sized, capped, own_size};
ghost use Rattle.store_expand.specs.Counting.{counted, counted_parts};

use plain_data::at;
use std::alloc::{AllocError, Global};
use store_logic::{Assertion, PredDef};

/// The most nodes that an assertion with its predicates put in may have.
pub(crate) const MAX_NODES: u64 = 65_536;

/// An assertion that is still to be counted.
#[derive(Clone, Copy)]
struct Uncounted<'a> {
    assertion: &'a Assertion,
    /// How often it counts: each side of an `Iff` twice as often as the whole.
    times: u64,
}

/// The sizes of the bodies of the predicates, each with those before it put in, up to the least that is too large. Takes time by
/// the nodes of the bodies as they stand.
pub(crate) fn body_sizes(alloc: Global, preds: &[PredDef]) -> Result<Vec<u64>, AllocError>
    ensures { IfOk result (λ sizes. sizes.items ≡ map (λ b. capped (node_count b)) (expanded_bodies (reverse preds.now))) }
{
    let mut sizes = Vec::new(alloc);
    for pred in preds {
        let size = size_with(alloc, sizes.as_slice(), &pred.body)?;
        sizes.push(size)?;
    }
    Ok(sizes)
}

/// The size of the assertion, where bodies of these sizes stand for its predicates, up to the least that is too large. Takes time
/// by the nodes of the assertion as it stands, or less where it is too large.
pub(crate) fn size_with(
    alloc: Global,
    sizes: &[u64],
    assertion: &Assertion,
) -> Result<u64, AllocError>
    requires { AllByRecursion (λ size. size ≤ 65537) sizes.now }
    ensures { IfOk result (λ size. size ≡ capped (sized sizes.now assertion.now)) }
{
    let mut pending = Vec::new(alloc);
    pending.push(Uncounted {
        assertion,
        times: 1,
    })?;
    let mut size = 0;
    while let Some(next) = pending.pop() {
        size += next.times * size_of_form(sizes, next.assertion);
        if size > MAX_NODES {
            return Ok(MAX_NODES + 1);
        }
        push_uncounted_parts(&mut pending, next.assertion, next.times)?;
    }
    Ok(size)
}

/// How much the form itself adds to the size.
fn size_of_form(sizes: &[u64], assertion: &Assertion) -> u64
    ensures { result ≡ own_size sizes.now assertion.now }
{
    match assertion {
        Assertion::Pred(k, _) => match at(sizes, *k as usize) {
            Some(size) => *size,
            None => 1,
        },
        _ => 1,
    }
}

/// Puts the parts of an assertion that counts so often at the end of those that are still to be counted.
fn push_uncounted_parts<'a>(
    pending: &mut Vec<Uncounted<'a>>,
    assertion: &'a Assertion,
    times: u64,
) -> Result<(), AllocError>
    requires { times ≤ 131072 }
    ensures { OnOk result (map counted pending.new.items ≡ map counted pending.old.items ++ counted_parts times assertion.now) }
{
    match assertion {
        Assertion::Iff(left, right) => push_both(pending, left.get(), right.get(), 2 * times),
        Assertion::And(left, right) | Assertion::Or(left, right) | Assertion::Imp(left, right) =>
            push_both(pending, left.get(), right.get(), times),
        Assertion::Not(inner)
        | Assertion::Ex(_, inner)
        | Assertion::All(_, inner)
        | Assertion::ExSet(_, inner)
        | Assertion::AllSet(_, inner) => push_uncounted(pending, inner.get(), times),
        _ => Ok(()),
    }
}

fn push_both<'a>(
    pending: &mut Vec<Uncounted<'a>>,
    left: &'a Assertion,
    right: &'a Assertion,
    times: u64,
) -> Result<(), AllocError>
    ensures { OnOk result (map counted pending.new.items ≡ map counted pending.old.items ++ (left.now, times) ∷ (right.now, times) ∷ []) }
{
    push_uncounted(pending, left, times)?;
    push_uncounted(pending, right, times)
}

fn push_uncounted<'a>(
    pending: &mut Vec<Uncounted<'a>>,
    assertion: &'a Assertion,
    times: u64,
) -> Result<(), AllocError>
    ensures { OnOk result (map counted pending.new.items ≡ map counted pending.old.items ++ (assertion.now, times) ∷ []) }
{
    pending.push(Uncounted { assertion, times })?;
    Ok(())
}
