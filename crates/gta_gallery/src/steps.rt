//! Lines that make an automaton step by step, and say what it is like.

ghost use Rattle.std.specs.Prelude.{◌≤◌, IfOk, IsSome};
ghost use Rattle.bdd_nodes.specs.Shelf.{IsShelf, roots_of};
ghost use Rattle.gta_theory.specs.Guides.{Spaces};
ghost use Rattle.gta_core.specs.Auto.{IsAuto};

use crate::agreeing::{Agreement, agreeing};
use crate::guides::guide_of;
use crate::lines::{number_of, write_number, write_unknown};
use crate::literals::{Literal, automaton, with};
use crate::looks::look;
use bdd_nodes::Shelf;
use bdd_walk::Stop;
use gta_core::{Auto, release};
use gta_merge::merge;
use gta_minimise::minimise;
use gta_product::complement;
use gta_project::project;
use plain_writer::Writer;
use std::alloc::Global;
use ws2s_core::{Guide, Track};

/// A step to the next automaton.
#[derive(Clone, Copy)]
enum Step {
    /// The product with the minimal automaton of a literal.
    With(Literal),
    /// The product with the automaton of the trees that agree with one.
    Like(Agreement),
    /// The projection that drops a track.
    Drop(u32),
    /// The complement.
    Not,
    /// The minimal automaton.
    Minimise,
    /// The same automaton with merged classes.
    Merge,
    /// A copy, which stands alone: the automaton is let go, and the nodes that no table holds any more.
    Copy,
}

impl Step {
    /// The step that is a product: with a literal, or with what agrees with a tree.
    fn made(word: &str) -> Option<Step> {
        match Agreement::of(word) {
            Some(agreement) => Some(Step::Like(agreement)),
            None => Some(Step::With(Literal::of(word)?)),
        }
    }

    /// The step of a word: a literal, `like.3.17.0`, `ex.0`, `not`, `min`, `merge` or `copy`.
    fn of(word: &str) -> Option<Step> {
        match word {
            "not" => Some(Step::Not),
            "min" => Some(Step::Minimise),
            "merge" => Some(Step::Merge),
            "copy" => Some(Step::Copy),
            _ => match word.strip_prefix("ex.") {
                Some(track) => Some(Step::Drop(number_of(track))),
                None => Step::made(word),
            },
        }
    }
}

/// A copy of the automaton, which is let go with the nodes that no table holds any more.
fn moved(alloc: Global, a: Auto, shelf: &mut Shelf) -> Result<Auto, Stop>
    requires shelf { IsShelf shelf.old }
    requires table { IsSome (roots_of shelf.old a.table) }
    ensures auto { IfOk result (λ copy. (g : Spaces) → IsAuto g shelf.old a → IsAuto g shelf.new copy) }
    ensures shelf { IsShelf shelf.new }
{
    let copy = a.copy(alloc, shelf)?;
    release(a, shelf);
    shelf.collect();
    Ok(copy)
}

/// The automaton after a step.
fn after(alloc: Global, g: &Guide, a: Auto, step: Step, shelf: &mut Shelf) -> Result<Auto, Stop>
    requires shelf { IsShelf shelf.old }
    requires auto { IsAuto g.now shelf.old a }
    ensures auto { IfOk result (IsAuto g.now shelf.new) }
    ensures shelf { IsShelf shelf.new }
{
    match step {
        Step::With(literal) => with(alloc, g, &a, literal, shelf),
        Step::Like(agreement) => agreeing(alloc, g, &a, agreement, shelf),
        Step::Drop(track) => project(alloc, g, &a, Track(track), shelf),
        Step::Not => Ok(complement(a)),
        Step::Minimise => minimise(alloc, g, &a, shelf),
        Step::Merge => Ok(merge(alloc, g, &a, shelf)?),
        Step::Copy => moved(alloc, a, shelf),
    }
}

/// The automaton after a word: a step, or something that is written of it.
fn beyond(
    alloc: Global,
    g: &Guide,
    a: Auto,
    word: &str,
    shelf: &mut Shelf,
    out: &mut Writer,
) -> Result<Auto, Stop>
    requires shelf { IsShelf shelf.old }
    requires auto { IsAuto g.now shelf.old a }
    ensures auto { IfOk result (IsAuto g.now shelf.new) }
    ensures shelf { IsShelf shelf.new }
{
    match Step::of(word) {
        Some(step) => after(alloc, g, a, step, shelf),
        None => {
            look(alloc, g, &a, shelf, word, out)?;
            Ok(a)
        }
    }
}

/// Writes that the shelf is full, and how many nodes it has; want of memory is an error.
fn stopped(stop: Stop, shelf: &Shelf, out: &mut Writer) -> Result<(), Stop> {
    match stop {
        Stop::Limit => {
            write_number(out, b" limit ", shelf.count() as u64);
            Ok(())
        }
        Stop::NoMemory => Err(Stop::NoMemory),
    }
}

/// Goes on from an automaton: each further word is a step, or something that is written of the automaton that stands then.
/// At the end the automaton is let go.
pub(crate) fn go_on(
    alloc: Global,
    g: &Guide,
    first: Auto,
    words: &str,
    shelf: &mut Shelf,
    out: &mut Writer,
) -> Result<(), Stop>
    requires shelf { IsShelf shelf.old }
    requires auto { IsAuto g.now shelf.old first }
{
    let mut a = first;
    for word in words.split_whitespace() {
        match beyond(alloc, g, a, word, shelf, out) {
            Ok(next) => a = next,
            Err(stop) => return stopped(stop, shelf, out),
        }
    }
    release(a, shelf);
    Ok(())
}

/// Writes what a line says of the automaton of its first word, a literal.
fn go_from(
    alloc: Global,
    g: &Guide,
    line: &str,
    shelf: &mut Shelf,
    out: &mut Writer,
) -> Result<(), Stop> {
    let (first, words) = line.split_once(' ').unwrap_or((line, ""));
    let Some(literal) = Literal::of(first) else {
        write_unknown(out);
        return Ok(());
    };
    match automaton(alloc, g, literal, shelf) {
        Ok(a) => go_on(alloc, g, a, words, shelf, out),
        Err(stop) => stopped(stop, shelf, out),
    }
}

/// Writes what a line says over a guide on a shelf, and how many nodes are left.
fn answer_over(
    alloc: Global,
    g: &Guide,
    line: &str,
    shelf: &mut Shelf,
    out: &mut Writer,
) -> Result<(), Stop> {
    go_from(alloc, g, line, shelf, out)?;
    shelf.collect();
    write_number(out, b" left ", shelf.count() as u64);
    Ok(())
}

/// Writes what a line says over the guide of that name in a shelf of its own with this limit, and how many nodes are left.
pub(crate) fn answer_literal(
    alloc: Global,
    name: &str,
    limit: u32,
    line: &str,
    out: &mut Writer,
) -> Result<(), Stop>
    requires some { 1 ≤ limit }
    requires small { limit ≤ 16000000 }
{
    let g = guide_of(alloc, name)?;
    let mut shelf = Shelf::open(alloc, limit)?;
    answer_over(alloc, &g, line, &mut shelf, out)
}
