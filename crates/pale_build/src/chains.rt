//! Chains of one operator: what comes next goes to the end of a chain, and nothing else is moved.

ghost use Rattle.std.specs.Prelude.{◌≡◌, [], ◌∷◌, ◌++◌, IfOk};
ghost use Rattle.pale_syntax.specs.MakingRoutes.{joined_then, joined_or, starred};
ghost use Rattle.pale_syntax.specs.MakingConditions.{both_conditions, either_condition};
ghost use Rattle.pale_syntax.specs.MakingAssertions.{both, either, equivalent};

use pale_syntax::{Assertion, Condition, Route};
use pale_text::Pos;
use plain_data::{Boxed, Items};
use std::alloc::{AllocError, Global};

/// A chain of two operands: the first, and the others.
fn chained<T: Drop, U: Drop>(
    alloc: Global,
    one: T,
    other: U,
) -> Result<(Boxed<T>, Items<U>), AllocError>
    ensures { IfOk result (λ chain. chain ≡ (one, other ∷ [])) }
{
    let first = Boxed::new(alloc, one)?;
    let mut others = Items::new(alloc);
    others.push(other)?;
    Ok((first, others))
}

/// The chain with one more operand.
fn longer<T: Drop, U: Drop>(
    first: Boxed<T>,
    mut others: Items<U>,
    other: U,
) -> Result<(Boxed<T>, Items<U>), AllocError>
    ensures { IfOk result (λ chain. chain ≡ (first, others ++ other ∷ [])) }
{
    others.push(other)?;
    Ok((first, others))
}

/// One route after the other.
pub fn joined_then(alloc: Global, one: Route, other: Route) -> Result<Route, AllocError>
    ensures { IfOk result (λ route. route ≡ joined_then one other) }
{
    let (first, others) = match one {
        Route::Then(first, others) => longer(first, others, other),
        one => chained(alloc, one, other),
    }?;
    Ok(Route::Then(first, others))
}

/// Either route.
pub fn joined_or(alloc: Global, one: Route, other: Route) -> Result<Route, AllocError>
    ensures { IfOk result (λ route. route ≡ joined_or one other) }
{
    let (first, others) = match one {
        Route::Or(first, others) => longer(first, others, other),
        one => chained(alloc, one, other),
    }?;
    Ok(Route::Or(first, others))
}

/// The route with a star behind it.
pub fn starred(alloc: Global, one: Route, place: Pos) -> Result<Route, AllocError>
    ensures { IfOk result (λ route. route ≡ starred one place) }
{
    let (inner, stars) = match one {
        Route::Star(inner, stars) => longer(inner, stars, place),
        one => chained(alloc, one, place),
    }?;
    Ok(Route::Star(inner, stars))
}

/// Both conditions.
pub fn both_conditions(
    alloc: Global,
    one: Condition,
    other: Condition,
) -> Result<Condition, AllocError>
    ensures { IfOk result (λ condition. condition ≡ both_conditions one other) }
{
    let (first, others) = match one {
        Condition::And(first, others) => longer(first, others, other),
        one => chained(alloc, one, other),
    }?;
    Ok(Condition::And(first, others))
}

/// Either condition.
pub fn either_condition(
    alloc: Global,
    one: Condition,
    other: Condition,
) -> Result<Condition, AllocError>
    ensures { IfOk result (λ condition. condition ≡ either_condition one other) }
{
    let (first, others) = match one {
        Condition::Or(first, others) => longer(first, others, other),
        one => chained(alloc, one, other),
    }?;
    Ok(Condition::Or(first, others))
}

/// Both assertions.
pub fn both(alloc: Global, one: Assertion, other: Assertion) -> Result<Assertion, AllocError>
    ensures { IfOk result (λ assertion. assertion ≡ both one other) }
{
    let (first, others) = match one {
        Assertion::And(first, others) => longer(first, others, other),
        one => chained(alloc, one, other),
    }?;
    Ok(Assertion::And(first, others))
}

/// Either assertion.
pub fn either(alloc: Global, one: Assertion, other: Assertion) -> Result<Assertion, AllocError>
    ensures { IfOk result (λ assertion. assertion ≡ either one other) }
{
    let (first, others) = match one {
        Assertion::Or(first, others) => longer(first, others, other),
        one => chained(alloc, one, other),
    }?;
    Ok(Assertion::Or(first, others))
}

/// The assertions are equivalent.
pub fn equivalent(alloc: Global, one: Assertion, other: Assertion) -> Result<Assertion, AllocError>
    ensures { IfOk result (λ assertion. assertion ≡ equivalent one other) }
{
    let (first, others) = match one {
        Assertion::Iff(first, others) => longer(first, others, other),
        one => chained(alloc, one, other),
    }?;
    Ok(Assertion::Iff(first, others))
}
