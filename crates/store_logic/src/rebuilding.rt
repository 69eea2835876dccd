//! Assertions made anew from the last: what copies one, and what puts something in for its names, goes through its forms in
//! postfix order. It says itself what a form without parts becomes; any other form takes the assertions made last as its parts.

ghost use Rattle.std.specs.Prelude.{◌≡◌, ◌∷◌, ◌<◌, List, length, true, Some, IfOk, IsSome};
ghost use Rattle.store_logic.specs.declared.assertion.Assertion.{Assertion, out-Assertion};
ghost use Rattle.store_logic.specs.Postfix.{form_of, parts_of, has_parts, applied};

use crate::assertion::Assertion;
use plain_data::{Boxed, Stack};
use std::alloc::{AllocError, Global};

impl Assertion {
    /// Whether the assertion has parts.
    pub fn has_parts(&self) -> bool
        ensures { result ≡ has_parts self.now }
    {
        match self {
            Assertion::True
            | Assertion::False
            | Assertion::Truth(_)
            | Assertion::Is(_, _)
            | Assertion::Same(_, _)
            | Assertion::Member(_, _)
            | Assertion::Subset(_, _)
            | Assertion::Walk(_, _, _)
            | Assertion::Pred(_, _) => false,
            _ => true,
        }
    }

    /// The assertion of this form, with the assertions made last, which it takes, as its parts.
    pub fn from_last(
        &self,
        alloc: Global,
        made: &mut Stack<Assertion>,
    ) -> Result<Assertion, AllocError>
        requires parts { has_parts self.now ≡ true }
        requires made { IsSome (applied (form_of self.now) made.old) }
        ensures { IfOk result (λ whole. applied (form_of self.now) made.old ≡ Some (whole ∷ made.new)) }
    {
        match self {
            Assertion::And(_, _)
            | Assertion::Or(_, _)
            | Assertion::Imp(_, _)
            | Assertion::Iff(_, _) => {
                let right = take(alloc, made)?;
                let left = take(alloc, made)?;
                Ok(self.of_two(left, right))
            }
            _ => {
                let inner = take(alloc, made)?;
                Ok(self.of_one(inner))
            }
        }
    }

    /// The assertion of this form, which has one part, with another part.
    fn of_one(&self, inner: Boxed<Assertion>) -> Assertion
        requires { length (parts_of Assertion (out-Assertion self.now)) ≡ 1 }
        ensures { (before : List Assertion) → applied (form_of self.now) (inner ∷ before) ≡ Some (result ∷ before) }
    {
        match self {
            Assertion::Not(_) => Assertion::Not(inner),
            Assertion::Ex(ty, _) => Assertion::Ex(*ty, inner),
            Assertion::All(ty, _) => Assertion::All(*ty, inner),
            Assertion::ExSet(ty, _) => Assertion::ExSet(*ty, inner),
            Assertion::AllSet(ty, _) => Assertion::AllSet(*ty, inner),
            _ => unreachable!(),
        }
    }

    /// The same of two parts.
    fn of_two(&self, left: Boxed<Assertion>, right: Boxed<Assertion>) -> Assertion
        requires { length (parts_of Assertion (out-Assertion self.now)) ≡ 2 }
        ensures { (before : List Assertion) → applied (form_of self.now) (right ∷ left ∷ before) ≡ Some (result ∷ before) }
    {
        match self {
            Assertion::And(_, _) => Assertion::And(left, right),
            Assertion::Or(_, _) => Assertion::Or(left, right),
            Assertion::Imp(_, _) => Assertion::Imp(left, right),
            Assertion::Iff(_, _) => Assertion::Iff(left, right),
            _ => unreachable!(),
        }
    }
}

/// Takes the assertion that was made last.
fn take(alloc: Global, made: &mut Stack<Assertion>) -> Result<Boxed<Assertion>, AllocError>
    requires { 0 < length made.old }
    ensures { IfOk result (λ part. made.old ≡ part ∷ made.new) }
{
    let Some(part) = made.pop() else {
        unreachable!()
    };
    Boxed::new(alloc, part)
}
