//! Copies of assertions.

ghost use Rattle.std.specs.Prelude.{◌≡◌, ◌∷◌, false, Some, IfOk, IsSome};
ghost use Rattle.store_logic.specs.declared.assertion.Assertion.{Assertion};
ghost use Rattle.store_logic.specs.declared.assertion.Assertion.TheVariants as assertion;
ghost use Rattle.store_logic.specs.Postfix.{form_of, has_parts, applied};

use crate::arg::copy_args;
use crate::assertion::Assertion;
use crate::term::Term;
use plain_data::Stack;
use std::alloc::{AllocError, Global};
use store_core::Route;

impl Assertion {
    /// An equal assertion, by loops, however deep the assertion is.
    pub fn copy(&self, alloc: Global) -> Result<Assertion, AllocError>
        ensures { IfOk result (λ copy. copy ≡ self.now) }
    {
        let forms = self.in_postfix(alloc)?;
        let mut copies = Stack::new(alloc);
        for form in forms.as_slice() {
            let copy = copy_form(alloc, &mut copies, *form)?;
            copies.push(copy)?;
        }
        let Some(copy) = copies.pop() else {
            unreachable!()
        };
        Ok(copy)
    }
}

/// The assertion of this form, with the last copies, which it takes, as its parts.
fn copy_form(
    alloc: Global,
    copies: &mut Stack<Assertion>,
    form: &Assertion,
) -> Result<Assertion, AllocError>
    requires { IsSome (applied (form_of form.now) copies.old) }
    ensures { IfOk result (λ copy. applied (form_of form.now) copies.old ≡ Some (copy ∷ copies.new)) }
{
    if form.has_parts() {
        form.from_last(alloc, copies)
    } else {
        copy_leaf(alloc, form)
    }
}

/// A copy of an assertion that has no parts.
fn copy_leaf(alloc: Global, leaf: &Assertion) -> Result<Assertion, AllocError>
    requires { has_parts leaf.now ≡ false }
    ensures { IfOk result (λ copy. copy ≡ leaf.now) }
{
    match leaf {
        Assertion::True => Ok(Assertion::True),
        Assertion::False => Ok(Assertion::False),
        Assertion::Truth(t) => Ok(Assertion::Truth(t.copy(alloc)?)),
        Assertion::Is(t, v) => Ok(Assertion::Is(t.copy(alloc)?, *v)),
        Assertion::Same(t, u) => Ok(Assertion::Same(t.copy(alloc)?, u.copy(alloc)?)),
        Assertion::Member(t, set) => Ok(Assertion::Member(t.copy(alloc)?, *set)),
        Assertion::Subset(set, other) => Ok(Assertion::Subset(*set, *other)),
        Assertion::Walk(t, route, u) => copy_walk(alloc, t, route, u),
        Assertion::Pred(k, args) => Ok(Assertion::Pred(*k, copy_args(alloc, args.as_slice())?)),
        _ => unreachable!(),
    }
}

/// That a walk of the route leads from one term to the other, in memory of its own.
fn copy_walk(alloc: Global, from: &Term, route: &Route, to: &Term) -> Result<Assertion, AllocError>
    ensures { IfOk result (λ copy. copy ≡ assertion.Walk from.now route.now to.now) }
{
    let from = from.copy(alloc)?;
    Ok(Assertion::Walk(from, route.copy(alloc)?, to.copy(alloc)?))
}
