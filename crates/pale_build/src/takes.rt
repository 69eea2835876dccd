//! What was made last, taken for something larger. Where there is none, something plain stands for it.

ghost use Rattle.std.specs.Prelude.{◌≡◌, [], None};
ghost use Rattle.plain_data.specs.Stacks.{top, rest};
ghost use Rattle.pale_syntax.specs.MakingParts.{nameless};
ghost use Rattle.pale_text.specs.Places.{nowhere};
ghost use Rattle.pale_syntax.specs.MakingWords.{pathless, termless};
ghost use Rattle.pale_syntax.specs.MakingRoutes.{routeless};
ghost use Rattle.pale_syntax.specs.MakingConditions.{conditionless};
ghost use Rattle.pale_syntax.specs.MakingAssertions.{assertionless, quantifierless};
ghost use Rattle.pale_syntax.specs.MakingStatements.{bracketless, valueless};

use crate::names::nameless;
use pale_syntax::{
    Assertion, Block, Bracketed, Condition, Name, Path, Quantifier, QuantifierKind, Route, Term,
    Value,
};
use pale_text::{Pos, nowhere};
use plain_data::{Items, Stack};
use std::alloc::Global;

pub fn take_name(alloc: Global, names: &mut Stack<Name>) -> Name
    ensures taken { result ≡ top nameless names.old }
    ensures left { names.new ≡ rest names.old }
{
    names.take_or(nameless(alloc))
}

pub fn take_place(places: &mut Stack<Pos>) -> Pos
    ensures taken { result ≡ top nowhere places.old }
    ensures left { places.new ≡ rest places.old }
{
    places.take_or(nowhere())
}

/// Stands where no path is known.
pub fn pathless(alloc: Global) -> Path
    ensures { result ≡ pathless }
{
    Path {
        base: nameless(alloc),
        fields: Items::new(alloc),
    }
}

pub fn take_path(alloc: Global, paths: &mut Stack<Path>) -> Path
    ensures taken { result ≡ top pathless paths.old }
    ensures left { paths.new ≡ rest paths.old }
{
    paths.take_or(pathless(alloc))
}

pub fn take_term(terms: &mut Stack<Term>) -> Term
    ensures taken { result ≡ top termless terms.old }
    ensures left { terms.new ≡ rest terms.old }
{
    terms.take_or(Term::Null(nowhere()))
}

pub fn take_route(routes: &mut Stack<Route>) -> Route
    ensures taken { result ≡ top routeless routes.old }
    ensures left { routes.new ≡ rest routes.old }
{
    routes.take_or(Route::UpAny)
}

pub fn take_condition(conditions: &mut Stack<Condition>) -> Condition
    ensures taken { result ≡ top conditionless conditions.old }
    ensures left { conditions.new ≡ rest conditions.old }
{
    conditions.take_or(Condition::True(nowhere()))
}

pub fn take_assertion(assertions: &mut Stack<Assertion>) -> Assertion
    ensures taken { result ≡ top assertionless assertions.old }
    ensures left { assertions.new ≡ rest assertions.old }
{
    assertions.take_or(Assertion::True)
}

pub fn take_quantifier(alloc: Global, quantifiers: &mut Stack<Quantifier>) -> Quantifier
    ensures taken { result ≡ top quantifierless quantifiers.old }
    ensures left { quantifiers.new ≡ rest quantifiers.old }
{
    quantifiers.take_or(Quantifier {
        kind: QuantifierKind::Ex,
        place: nowhere(),
        of_sets: false,
        names: Items::new(alloc),
        ty: nameless(alloc),
    })
}

pub fn take_bracketed(brackets: &mut Stack<Bracketed>) -> Bracketed
    ensures taken { result ≡ top bracketless brackets.old }
    ensures left { brackets.new ≡ rest brackets.old }
{
    brackets.take_or(Bracketed {
        place: nowhere(),
        assertion: Assertion::True,
    })
}

pub fn take_block(alloc: Global, blocks: &mut Stack<Block>) -> Block
    ensures taken { result ≡ top [] blocks.old }
    ensures left { blocks.new ≡ rest blocks.old }
{
    blocks.take_or(Items::new(alloc))
}

pub fn take_else(elses: &mut Stack<Option<Block>>) -> Option<Block>
    ensures taken { result ≡ top None elses.old }
    ensures left { elses.new ≡ rest elses.old }
{
    elses.take_or(None)
}

pub fn take_value(values: &mut Stack<Value>) -> Value
    ensures taken { result ≡ top valueless values.old }
    ensures left { values.new ≡ rest values.old }
{
    values.take_or(Value::Condition(nowhere(), Condition::True(nowhere())))
}
