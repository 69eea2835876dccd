//! Copies of conditions.

ghost use Rattle.std.specs.Prelude.{◌≡◌, [], ◌++◌, ◌∷◌, ◌<◌, length, Some, IfOk, OnOk, IsSome, map};
ghost use Rattle.store_logic.specs.declared.cond.Cond.{Cond, out-Cond};
ghost use Rattle.store_logic.specs.PostfixConds.{form_of, parts_of, postfix_of, applied};

use crate::cond::Cond;
use plain_data::{Boxed, Stack};
use std::alloc::{AllocError, Global};

impl Cond {
    /// An equal condition, by loops, however deep the condition is.
    pub fn copy(&self, alloc: Global) -> Result<Cond, AllocError>
        ensures { IfOk result (λ copy. copy ≡ self.now) }
    {
        let forms = in_postfix(alloc, self)?;
        let mut copies = Stack::new(alloc);
        for form in forms.as_slice() {
            let copy = copy_form(alloc, &mut copies, *form)?;
            copies.push(copy)?;
        }
        let Some(copy) = copies.pop() else {
            unreachable!()
        };
        Ok(copy)
    }
}

/// The condition and its parts, each after its own parts.
fn in_postfix<'a>(alloc: Global, cond: &'a Cond) -> Result<Vec<&'a Cond>, AllocError>
    ensures { IfOk result (λ forms. map (λ form. form_of form.now) forms.items ≡ postfix_of cond.now) }
{
    let mut pending = Vec::new(alloc);
    pending.push(cond)?;
    let mut forms = Vec::new(alloc);
    while let Some(next) = pending.pop() {
        forms.push(next)?;
        push_parts(&mut pending, next)?;
    }
    forms.reverse();
    Ok(forms)
}

/// Puts the parts of a condition at the end of those that are still to be gone through.
fn push_parts<'a>(pending: &mut Vec<&'a Cond>, cond: &'a Cond) -> Result<(), AllocError>
    ensures { OnOk result (map (λ part. part.now) pending.new.items
        ≡ map (λ part. part.now) pending.old.items ++ parts_of Cond (out-Cond cond.now)) }
{
    match cond {
        Cond::And(left, right) | Cond::Or(left, right) => {
            pending.push(left.get())?;
            pending.push(right.get())?;
        }
        Cond::Not(inner) => pending.push(inner.get())?,
        _ => {}
    }
    Ok(())
}

/// Takes the copy that was made last.
fn take(alloc: Global, copies: &mut Stack<Cond>) -> Result<Boxed<Cond>, AllocError>
    requires { 0 < length copies.old }
    ensures { IfOk result (λ part. copies.old ≡ part ∷ copies.new) }
{
    let Some(part) = copies.pop() else {
        unreachable!()
    };
    Boxed::new(alloc, part)
}

/// The condition of this form, with the last copies, which it takes, as its parts.
fn copy_form(alloc: Global, copies: &mut Stack<Cond>, form: &Cond) -> Result<Cond, AllocError>
    requires { IsSome (applied (form_of form.now) copies.old) }
    ensures { IfOk result (λ copy. applied (form_of form.now) copies.old ≡ Some (copy ∷ copies.new)) }
{
    match form {
        Cond::Not(_) => Ok(Cond::Not(take(alloc, copies)?)),
        Cond::And(_, _) => {
            let right = take(alloc, copies)?;
            Ok(Cond::And(take(alloc, copies)?, right))
        }
        Cond::Or(_, _) => {
            let right = take(alloc, copies)?;
            Ok(Cond::Or(take(alloc, copies)?, right))
        }
        Cond::True | Cond::False | Cond::Bool(_) | Cond::Is(_, _) | Cond::Same(_, _) => {
            copy_leaf(alloc, form)
        }
    }
}

/// A copy of a condition that has no parts.
fn copy_leaf(alloc: Global, leaf: &Cond) -> Result<Cond, AllocError>
    requires { parts_of Cond (out-Cond leaf.now) ≡ [] }
    ensures { IfOk result (λ copy. copy ≡ leaf.now) }
{
    match leaf {
        Cond::True => Ok(Cond::True),
        Cond::False => Ok(Cond::False),
        Cond::Bool(path) => Ok(Cond::Bool(path.copy(alloc)?)),
        Cond::Is(path, v) => Ok(Cond::Is(path.copy(alloc)?, *v)),
        Cond::Same(one, other) => Ok(Cond::Same(one.copy(alloc)?, other.copy(alloc)?)),
        Cond::Not(_) | Cond::And(_, _) | Cond::Or(_, _) => unreachable!(),
    }
}
