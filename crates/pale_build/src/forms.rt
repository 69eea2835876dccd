//! Larger things that are made of smaller ones, where memory may run out. An act holds nothing else while it waits for one.

ghost use Rattle.std.specs.Prelude.{◌≡◌, IfOk};
ghost use Rattle.pale_syntax.specs.MakingWords.{extended};
ghost use Rattle.pale_syntax.specs.MakingAssertions.{binding, over};

use pale_syntax::{Assertion, Condition, Name, Path, Quantifier};
use pale_text::Pos;
use plain_data::Boxed;
use std::alloc::{AllocError, Global};

/// The path, and this field behind it.
pub fn extended(mut path: Path, field: Name) -> Result<Path, AllocError>
    ensures { IfOk result (λ longer. longer ≡ extended path field) }
{
    path.fields.push(field)?;
    Ok(path)
}

/// The condition does not hold.
pub fn not_condition(alloc: Global, place: Pos, inner: Condition) -> Result<Condition, AllocError>
    ensures { IfOk result (λ condition. condition ≡ Condition.Not place inner) }
{
    Ok(Condition::Not(place, Boxed::new(alloc, inner)?))
}

/// The assertion does not hold.
pub fn not_assertion(alloc: Global, place: Pos, inner: Assertion) -> Result<Assertion, AllocError>
    ensures { IfOk result (λ assertion. assertion ≡ Assertion.Not place inner) }
{
    Ok(Assertion::Not(place, Boxed::new(alloc, inner)?))
}

/// Both in boxes.
fn boxed<T: Drop>(alloc: Global, one: T, other: T) -> Result<(Boxed<T>, Boxed<T>), AllocError>
    ensures { IfOk result (λ both. both ≡ (one, other)) }
{
    let one = Boxed::new(alloc, one)?;
    let other = Boxed::new(alloc, other)?;
    Ok((one, other))
}

/// One assertion implies the other.
pub fn implies(
    alloc: Global,
    one: Assertion,
    place: Pos,
    other: Assertion,
) -> Result<Assertion, AllocError>
    ensures { IfOk result (λ assertion. assertion ≡ Assertion.Imp one place other) }
{
    let (one, other) = boxed(alloc, one, other)?;
    Ok(Assertion::Imp(one, place, other))
}

/// The quantifier, which binds this name too.
pub fn binding(mut quantifier: Quantifier, name: Name) -> Result<Quantifier, AllocError>
    ensures { IfOk result (λ one. one ≡ binding quantifier name) }
{
    quantifier.names.push(name)?;
    Ok(quantifier)
}

/// The assertion under the quantifier, over this type.
pub fn quantified(
    alloc: Global,
    mut quantifier: Quantifier,
    ty: Name,
    inner: Assertion,
) -> Result<Assertion, AllocError>
    ensures { IfOk result (λ assertion. assertion ≡ Assertion.Quantified (over quantifier ty) inner) }
{
    quantifier.ty = ty;
    Ok(Assertion::Quantified(quantifier, Boxed::new(alloc, inner)?))
}
