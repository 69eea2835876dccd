//! Assertions of a procedure that is called, with the arguments of the call put in.

ghost use Rattle.std.specs.Prelude.{◌≡◌, ◌∷◌, List, false, Some, IfOk, IsSome};
ghost use Rattle.store_logic.specs.declared.assertion.Assertion.{Assertion};
ghost use Rattle.store_logic.specs.declared.assertion.Assertion.TheVariants as assertion;
ghost use Rattle.store_logic.specs.Filling.{filled_term};
ghost use Rattle.store_logic.specs.Postfix.{form_of, has_parts, applied};
ghost use Rattle.hoare_fill.specs.Putting.{put_for, with_puts};
ghost use Rattle.hoare_fill.specs.Forms.{filled_form};

use crate::putting::{Put, fill_args, fill_set, fill_term, fill_truth};
use plain_data::Stack;
use std::alloc::{AllocError, Global};
use store_core::Route;
use store_logic::{Assertion, Term};

/// The assertion with what is handed over put in for its variables, by loops, however deep it is.
pub fn fill(alloc: Global, puts: &[Put], assertion: &Assertion) -> Result<Assertion, AllocError>
    ensures { IfOk result (λ filled. filled ≡ with_puts puts.now assertion.now) }
{
    let forms = assertion.in_postfix(alloc)?;
    let mut made = Stack::new(alloc);
    for form in forms.as_slice() {
        let next = fill_form(alloc, puts, &mut made, *form)?;
        made.push(next)?;
    }
    let Some(filled) = made.pop() else {
        unreachable!()
    };
    Ok(filled)
}

/// The assertion of this form, with the last ones made, which it takes, as its parts.
fn fill_form(
    alloc: Global,
    puts: &[Put],
    made: &mut Stack<Assertion>,
    form: &Assertion,
) -> Result<Assertion, AllocError>
    requires { IsSome (applied (filled_form puts.now (form_of form.now)) made.old) }
    ensures { IfOk result (λ whole. applied (filled_form puts.now (form_of form.now)) made.old ≡ Some (whole ∷ made.new)) }
{
    if form.has_parts() {
        form.from_last(alloc, made)
    } else {
        fill_leaf(alloc, puts, form)
    }
}

/// The same of an assertion that has no parts.
fn fill_leaf(alloc: Global, puts: &[Put], leaf: &Assertion) -> Result<Assertion, AllocError>
    requires { has_parts leaf.now ≡ false }
    ensures { IfOk result (λ filled. (before : List Assertion) →
        applied (filled_form puts.now (form_of leaf.now)) before ≡ Some (filled ∷ before)) }
{
    match leaf {
        Assertion::True => Ok(Assertion::True),
        Assertion::False => Ok(Assertion::False),
        Assertion::Truth(t) => fill_truth(alloc, puts, t),
        Assertion::Is(t, v) => Ok(Assertion::Is(fill_term(alloc, puts, t)?, *v)),
        Assertion::Same(t, u) => {
            let one = fill_term(alloc, puts, t)?;
            Ok(Assertion::Same(one, fill_term(alloc, puts, u)?))
        }
        Assertion::Member(t, set) => {
            let set = fill_set(puts, *set);
            Ok(Assertion::Member(fill_term(alloc, puts, t)?, set))
        }
        Assertion::Subset(set, other) => Ok(Assertion::Subset(
            fill_set(puts, *set),
            fill_set(puts, *other),
        )),
        Assertion::Walk(t, route, u) => fill_walk(alloc, puts, t, route, u),
        Assertion::Pred(k, args) => Ok(Assertion::Pred(
            *k,
            fill_args(alloc, puts, args.as_slice())?,
        )),
        _ => unreachable!(),
    }
}

/// That a walk of the route leads from one term to the other.
fn fill_walk(
    alloc: Global,
    puts: &[Put],
    from: &Term,
    route: &Route,
    to: &Term,
) -> Result<Assertion, AllocError>
    ensures { IfOk result (λ filled. filled
        ≡ assertion.Walk (filled_term (put_for puts.now) 0 from.now) route.now (filled_term (put_for puts.now) 0 to.now)) }
{
    let from = fill_term(alloc, puts, from)?;
    Ok(Assertion::Walk(from, route.copy(alloc)?, fill_term(alloc, puts, to)?))
}
