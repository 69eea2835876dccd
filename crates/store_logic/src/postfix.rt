//! The forms of an assertion, each after those of its parts.

ghost use Rattle.std.specs.Prelude.{◌≡◌, ◌++◌, map, IfOk, OnOk};
ghost use Rattle.store_logic.specs.declared.assertion.Assertion.{Assertion, out-Assertion};
ghost use Rattle.store_logic.specs.Postfix.{form_of, parts_of, postfix_of};

use crate::assertion::Assertion;
use std::alloc::{AllocError, Global};

impl Assertion {
    /// The assertion and its parts, each after its own parts.
    pub fn in_postfix<'a>(&'a self, alloc: Global) -> Result<Vec<&'a Assertion>, AllocError>
        ensures { IfOk result (λ forms. map (λ form. form_of form.now) forms.items ≡ postfix_of self.now) }
    {
        let mut pending = Vec::new(alloc);
        pending.push(self)?;
        let mut forms = Vec::new(alloc);
        while let Some(next) = pending.pop() {
            forms.push(next)?;
            push_parts(&mut pending, next)?;
        }
        forms.reverse();
        Ok(forms)
    }
}

/// Puts the parts of an assertion at the end of those that are still to be gone through.
fn push_parts<'a>(
    pending: &mut Vec<&'a Assertion>,
    assertion: &'a Assertion,
) -> Result<(), AllocError>
    ensures { OnOk result (map (λ part. part.now) pending.new.items
        ≡ map (λ part. part.now) pending.old.items ++ parts_of Assertion (out-Assertion assertion.now)) }
{
    match assertion {
        Assertion::And(left, right)
        | Assertion::Or(left, right)
        | Assertion::Imp(left, right)
        | Assertion::Iff(left, right) => {
            pending.push(left.get())?;
            pending.push(right.get())?;
        }
        Assertion::Not(inner)
        | Assertion::Ex(_, inner)
        | Assertion::All(_, inner)
        | Assertion::ExSet(_, inner)
        | Assertion::AllSet(_, inner) => pending.push(inner.get())?,
        _ => {}
    }
    Ok(())
}
