//! Connectives.

ghost use Rattle.std.specs.Prelude.{◌≡◌, IfOk};
ghost use Rattle.pale_vocabulary.specs.Connectives.{connected, chained, negated, quantified, quantified_once};

use pale_syntax::{Quantifier, QuantifierKind};
use pale_vocabulary::Connective;
use plain_data::{Boxed, Items};
use std::alloc::{AllocError, Global};
use store_core::TypeId;
use store_logic::Assertion;

/// Two assertions joined.
pub fn connect(
    alloc: Global,
    connective: Connective,
    left: Assertion,
    right: Assertion,
) -> Result<Assertion, AllocError>
    ensures { IfOk result (λ made. made ≡ connected connective left right) }
{
    let left = Boxed::new(alloc, left)?;
    let right = Boxed::new(alloc, right)?;
    match connective {
        Connective::And => Ok(Assertion::And(left, right)),
        Connective::Or => Ok(Assertion::Or(left, right)),
        Connective::Imp => Ok(Assertion::Imp(left, right)),
        Connective::Iff => Ok(Assertion::Iff(left, right)),
    }
}

/// A chain, which groups to the left.
pub fn connect_all(
    alloc: Global,
    connective: Connective,
    first: Assertion,
    others: Items<Assertion>,
) -> Result<Assertion, AllocError>
    ensures { IfOk result (λ made. made ≡ chained connective first others) }
{
    let mut made = first;
    for next in others.into_vec() {
        made = connect(alloc, connective, made, next)?;
    }
    Ok(made)
}

pub fn negate(alloc: Global, inner: Assertion) -> Result<Assertion, AllocError>
    ensures { IfOk result (λ made. made ≡ negated inner) }
{
    Ok(Assertion::Not(Boxed::new(alloc, inner)?))
}

/// One quantifier.
fn quantify_once(
    alloc: Global,
    of_sets: bool,
    kind: QuantifierKind,
    ty: TypeId,
    body: Assertion,
) -> Result<Assertion, AllocError>
    ensures { IfOk result (λ made. made ≡ quantified_once of_sets kind ty body) }
{
    let body = Boxed::new(alloc, body)?;
    match (of_sets, kind) {
        (false, QuantifierKind::Ex) => Ok(Assertion::Ex(ty, body)),
        (false, QuantifierKind::All) => Ok(Assertion::All(ty, body)),
        (true, QuantifierKind::Ex) => Ok(Assertion::ExSet(ty, body)),
        (true, QuantifierKind::All) => Ok(Assertion::AllSet(ty, body)),
    }
}

/// One quantifier for each name.
pub fn quantify(
    alloc: Global,
    quantifier: &Quantifier,
    ty: TypeId,
    body: Assertion,
) -> Result<Assertion, AllocError>
    ensures { IfOk result (λ made. made ≡ quantified quantifier.now ty body) }
{
    let mut made = body;
    for _name in quantifier.names.as_slice() {
        made = quantify_once(alloc, quantifier.of_sets, quantifier.kind, ty, made)?;
    }
    Ok(made)
}
