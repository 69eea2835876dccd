//! Routing expressions. One that binds less than its place asks is in parentheses.

ghost use Rattle.std.specs.Prelude.{◌≡◌};
ghost use Rattle.pale_print.specs.RouteTokens.{stars, route_tokens};
ghost use Rattle.pale_print.specs.Tightness.{route_tightness};
ghost use Rattle.pale_print.specs.Writing.{Writes, bool_tested, route_operands, repeated};

use crate::names::{push_marked, push_name};
use crate::tightness::RouteTightness;
use crate::tokens::{close_group, open_group, push_mark, push_word};
use pale_syntax::{Name, Route};
use pale_text::{Mark, Pos};
use plain_data::{Boxed, Items};
use plain_writer::Writer;

/// `? f` or `! f`
fn push_bool_test(text: &mut Writer, value: bool, field: &Name)
    ensures { Writes (bool_tested value field.now) text.old text.new }
{
    if value {
        push_marked(text, Mark::Question, field)
    } else {
        push_marked(text, Mark::Bang, field)
    }
}

/// As many stars as there are places.
fn push_stars(text: &mut Writer, places: &[Pos])
    ensures { Writes (stars places.now) text.old text.new }
{
    for _star in places {
        push_mark(text, Mark::Star);
    }
}

/// Operands of a chain, each behind its operator.
#[cycle(routes)]
fn push_operands(text: &mut Writer, mark: Mark, asked: RouteTightness, operands: &[Route])
    ensures { Writes (route_operands mark (route_tightness asked) operands.now) text.old text.new }
{
    for operand in operands {
        push_mark(text, mark);
        push_route(text, operand, asked);
    }
}

/// `R *`, in parentheses where they are needed
#[cycle(routes)]
fn push_repeated(text: &mut Writer, needed: bool, inner: &Boxed<Route>, places: &Items<Pos>)
    ensures { Writes (repeated needed inner.now places.now) text.old text.new }
{
    open_group(text, needed);
    push_route(text, inner.get(), RouteTightness::Step);
    push_stars(text, places.as_slice());
    close_group(text, needed)
}

/// A route where its place asks so much.
#[cycle(routes)]
#[tactic(auto, using(crate::proofs::RouteLemmas::route_forms))]
pub fn push_route(text: &mut Writer, route: &Route, asked: RouteTightness)
    ensures { Writes (route_tokens route.now (route_tightness asked)) text.old text.new }
{
    match route {
        Route::Down(field) => push_name(text, field),
        Route::Up(field) => push_marked(text, Mark::Caret, field),
        Route::UpAny => push_mark(text, Mark::Caret),
        Route::Root => push_word(text, b"root"),
        Route::Leaf => push_mark(text, Mark::Dollar),
        Route::IsType(ty) => push_marked(text, Mark::At, ty),
        Route::IsVariant(ty, variant) => {
            push_marked(text, Mark::At, ty);
            push_marked(text, Mark::Colon, variant)
        }
        Route::IsBool(field, value) => push_bool_test(text, *value, field),
        Route::Then(first, others) => {
            let needed = RouteTightness::Sequence.is_grouped_at(asked);
            let operand = RouteTightness::Repetition;
            open_group(text, needed);
            push_route(text, first.get(), operand);
            push_operands(text, Mark::Dot, operand, others.as_slice());
            close_group(text, needed)
        }
        Route::Or(first, others) => {
            let needed = RouteTightness::Choice.is_grouped_at(asked);
            let operand = RouteTightness::Sequence;
            open_group(text, needed);
            push_route(text, first.get(), operand);
            push_operands(text, Mark::Plus, operand, others.as_slice());
            close_group(text, needed)
        }
        Route::Star(inner, places) => {
            let needed = RouteTightness::Repetition.is_grouped_at(asked);
            push_repeated(text, needed, inner, places)
        }
    }
}
