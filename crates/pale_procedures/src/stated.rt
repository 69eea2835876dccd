//! Assertions in their brackets, with the predicates put in.

ghost use Rattle.std.specs.Prelude.{◌≡◌, None, IfOk, IfErr, OnOk};
ghost use Rattle.pale_tables.specs.Faults.{IsStop};
ghost use Rattle.pale_vocabulary.specs.Predicates.{bracketed_fault};
ghost use Rattle.pale_fitting.specs.Declaring.{DeclarationsFit};
ghost use Rattle.pale_sights.specs.Framing.{AreOfATable};
ghost use Rattle.pale_procedures.specs.Stated.{stated, stated_or_true, stated_fault};

use pale_assertions::read_assertion;
use pale_syntax::Bracketed;
use pale_terms::Scope;
use pale_text::{Refusal, RefusalKind, TextStop};
use pale_vocabulary::Declared;
use std::alloc::Global;
use store_expand::ExpandFault;
use store_logic::Assertion;

/// An assertion in its brackets, with its names looked up and the predicates put in. The scope is in the end as it was.
///
/// # Errors
///
/// `Refused` is the first fault of the assertion, and then `big-formula` at its `[` where it has more than 65,536 nodes with its
/// predicates put in, the nodes of each side of a `<=>` counted twice.
#[tactic(auto, unfolding(pale_vocabulary::specs::Predicates::bracketed_fault, crate::specs::Stated::stated))]
pub fn read_stated(
    alloc: Global,
    declared: &Declared,
    scope: &mut Scope,
    bracketed: &Bracketed,
) -> Result<Assertion, TextStop>
    requires declarations { DeclarationsFit declared.now }
    requires variables { AreOfATable scope.old }
    ensures met { OnOk result (bracketed_fault declared.now scope.old bracketed.now ≡ None) }
    ensures assertion { IfOk result (λ made. made ≡ stated declared.now scope.old bracketed.now) }
    ensures scope { scope.new ≡ scope.old }
    ensures stop { IfErr result (IsStop (bracketed_fault declared.now scope.old bracketed.now)) }
{
    let assertion = read_assertion(alloc, &declared.vocabulary, scope, &bracketed.assertion)?;
    match declared.preds.expand(alloc, &assertion) {
        Ok(expanded) => Ok(expanded),
        Err(ExpandFault::TooBig) => {
            Err(TextStop::Refused(Refusal::at(bracketed.place, RefusalKind::BigFormula)))
        }
        Err(ExpandFault::NoMemory) => Err(TextStop::NoMemory),
    }
}

/// The same of an assertion that may be left out, which then is true.
pub fn read_optional(
    alloc: Global,
    declared: &Declared,
    scope: &mut Scope,
    bracketed: &Option<Bracketed>,
) -> Result<Assertion, TextStop>
    requires declarations { DeclarationsFit declared.now }
    requires variables { AreOfATable scope.old }
    ensures met { OnOk result (stated_fault declared.now scope.old bracketed.now ≡ None) }
    ensures assertion { IfOk result (λ made. made ≡ stated_or_true declared.now scope.old bracketed.now) }
    ensures scope { scope.new ≡ scope.old }
    ensures stop { IfErr result (IsStop (stated_fault declared.now scope.old bracketed.now)) }
{
    match bracketed {
        None => Ok(Assertion::True),
        Some(bracketed) => read_stated(alloc, declared, scope, bracketed),
    }
}
