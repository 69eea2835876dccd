//! Assertions. One that binds less than its place asks is in parentheses, and a quantifier where an operator follows it,
//! which its body would take.

ghost use Rattle.std.specs.Prelude.{◌≡◌, length};
ghost use Rattle.pale_print.specs.AssertionTokens.{assertion_tokens, bracketed_tokens};
ghost use Rattle.pale_print.specs.Tightness.{assertion_tightness};
ghost use Rattle.pale_print.specs.Writing.{Writes, goes_on, inside, related, walked, used, quantifier_words, quantifier_tokens};
ghost use Rattle.pale_print.specs.Writing.{assertion_operands, governed, denied};

use crate::names::{
    push_compared, push_marked, push_name, push_names, push_path, push_paths, push_term,
    push_variant_test,
};
use crate::routes::push_route;
use crate::tightness::{AssertionTightness, RouteTightness};
use crate::tokens::{close_group, open_group, push_mark, push_word};
use pale_syntax::{Assertion, Bracketed, Name, Path, Quantifier, QuantifierKind, Route, Term};
use pale_text::Mark;
use plain_data::Boxed;
use plain_writer::Writer;

/// Whether an operator follows an operand behind which so many others of its chain stand.
fn goes_on(others: usize, followed: bool) -> bool
    ensures { result ≡ goes_on others followed }
{
    if others == 0 { followed } else { true }
}

/// Whether an operator follows what stands last in a group, or in no group where one follows it.
fn inside(group: bool, followed: bool) -> bool
    ensures { result ≡ inside group followed }
{
    if group { false } else { followed }
}

/// `t in S` or `t sub S`
fn push_related(text: &mut Writer, term: &Term, word: &[u8], set: &Name)
    ensures { Writes (related term.now word.now set.now) text.old text.new }
{
    push_term(text, term);
    push_word(text, word);
    push_name(text, set)
}

/// `t < R > u`
fn push_walk(text: &mut Writer, from: &Term, route: &Route, to: &Term)
    ensures { Writes (walked from.now route.now to.now) text.old text.new }
{
    push_term(text, from);
    push_mark(text, Mark::Less);
    push_route(text, route, RouteTightness::Choice);
    push_mark(text, Mark::Greater);
    push_term(text, to)
}

/// `p ( x , y . f )`
fn push_use(text: &mut Writer, predicate: &Name, arguments: &[Path])
    ensures { Writes (used predicate.now arguments.now) text.old text.new }
{
    push_name(text, predicate);
    push_mark(text, Mark::LeftParen);
    push_paths(text, arguments);
    push_mark(text, Mark::RightParen)
}

/// `ex`, `all`, `ex set` or `all set`
fn push_quantifier_words(text: &mut Writer, quantifier: &Quantifier)
    ensures { Writes (quantifier_words quantifier.now) text.old text.new }
{
    match quantifier.kind {
        QuantifierKind::Ex => push_word(text, b"ex"),
        QuantifierKind::All => push_word(text, b"all"),
    }
    if quantifier.of_sets {
        push_word(text, b"set");
    }
}

/// A quantifier up to what it governs.
fn push_quantifier(text: &mut Writer, quantifier: &Quantifier)
    ensures { Writes (quantifier_tokens quantifier.now) text.old text.new }
{
    push_quantifier_words(text, quantifier);
    push_names(text, quantifier.names.as_slice());
    push_marked(text, Mark::Colon, &quantifier.ty);
    push_mark(text, Mark::Colon)
}

/// Operands of a chain, each behind its operator.
#[cycle(assertions)]
fn push_operands(
    text: &mut Writer,
    mark: Mark,
    asked: AssertionTightness,
    operands: &[Assertion],
    followed: bool,
)
    ensures { Writes (assertion_operands mark (assertion_tightness asked) operands.now followed) text.old text.new }
{
    let mut left = operands.len();
    for operand in operands {
        left -= 1;
        push_mark(text, mark);
        push_assertion(text, operand, asked, goes_on(left, followed));
    }
}

/// A quantifier and what it governs, in parentheses where an operator follows.
#[cycle(assertions)]
fn push_governed(
    text: &mut Writer,
    quantifier: &Quantifier,
    inner: &Boxed<Assertion>,
    followed: bool,
)
    ensures { Writes (governed quantifier.now inner.now followed) text.old text.new }
{
    open_group(text, followed);
    push_quantifier(text, quantifier);
    push_assertion(text, inner.get(), AssertionTightness::Equivalence, false);
    close_group(text, followed)
}

/// `~ a`
#[cycle(assertions)]
fn push_denied(text: &mut Writer, inner: &Boxed<Assertion>, followed: bool)
    ensures { Writes (denied inner.now followed) text.old text.new }
{
    push_mark(text, Mark::Tilde);
    push_assertion(text, inner.get(), AssertionTightness::Single, followed)
}

/// An assertion where its place asks so much, and where an operator follows or not.
#[cycle(assertions)]
#[tactic(auto, using(crate::proofs::AssertionLemmas::assertion_forms))]
fn push_assertion(
    text: &mut Writer,
    assertion: &Assertion,
    asked: AssertionTightness,
    followed: bool,
)
    ensures { Writes (assertion_tokens assertion.now (assertion_tightness asked) followed) text.old text.new }
{
    match assertion {
        Assertion::True => push_word(text, b"true"),
        Assertion::False => push_word(text, b"false"),
        Assertion::Truth(path) => push_path(text, path),
        Assertion::Same(left, _, right) => push_compared(text, left, Mark::Equals, right),
        Assertion::Differ(left, _, right) => push_compared(text, left, Mark::NotEqual, right),
        Assertion::Member(term, _, set) => push_related(text, term, b"in", set),
        Assertion::Subset(term, _, set) => push_related(text, term, b"sub", set),
        Assertion::Walk(from, _, route, to) => push_walk(text, from, route, to),
        Assertion::Is(term, _, variant) => push_variant_test(text, term, variant),
        Assertion::Use(predicate, arguments) => push_use(text, predicate, arguments.as_slice()),
        Assertion::Not(_, inner) => push_denied(text, inner, followed),
        Assertion::And(first, others) => {
            let needed = AssertionTightness::Conjunction.is_grouped_at(asked);
            let last = inside(needed, followed);
            let operand = AssertionTightness::Single;
            open_group(text, needed);
            push_assertion(text, first.get(), operand, goes_on(others.len(), last));
            push_operands(text, Mark::Ampersand, operand, others.as_slice(), last);
            close_group(text, needed)
        }
        Assertion::Or(first, others) => {
            let needed = AssertionTightness::Disjunction.is_grouped_at(asked);
            let last = inside(needed, followed);
            let operand = AssertionTightness::Conjunction;
            open_group(text, needed);
            push_assertion(text, first.get(), operand, goes_on(others.len(), last));
            push_operands(text, Mark::Bar, operand, others.as_slice(), last);
            close_group(text, needed)
        }
        Assertion::Imp(left, _, right) => {
            let needed = AssertionTightness::Implication.is_grouped_at(asked);
            let last = inside(needed, followed);
            open_group(text, needed);
            push_assertion(text, left.get(), AssertionTightness::Disjunction, true);
            push_mark(text, Mark::Implies);
            push_assertion(text, right.get(), AssertionTightness::Implication, last);
            close_group(text, needed)
        }
        Assertion::Iff(first, others) => {
            let needed = AssertionTightness::Equivalence.is_grouped_at(asked);
            let last = inside(needed, followed);
            let operand = AssertionTightness::Implication;
            open_group(text, needed);
            push_assertion(text, first.get(), operand, goes_on(others.len(), last));
            push_operands(text, Mark::Equivalent, operand, others.as_slice(), last);
            close_group(text, needed)
        }
        Assertion::Quantified(quantifier, inner) => {
            push_governed(text, quantifier, inner, followed)
        }
    }
}

/// `[ a ]`
pub fn push_bracketed(text: &mut Writer, bracketed: &Bracketed)
    ensures { Writes (bracketed_tokens bracketed.now) text.old text.new }
{
    push_mark(text, Mark::LeftBracket);
    push_assertion(
        text,
        &bracketed.assertion,
        AssertionTightness::Equivalence,
        false,
    );
    push_mark(text, Mark::RightBracket)
}
