//! Graphs of formulas: their numbers and parts.

ghost use Rattle.std.specs.Prelude.{◌<◌, ◌↔◌, IsTrue, length};

use crate::lines::{number_of, word_at, write_number, write_unknown};
use plain_writer::Writer;
use std::alloc::{AllocError, Global};
use ws2s_core::{Formula, FormulaId, Interner, Node, Track, intern, intern_form};

/// What a large formula is made of, level by level.
#[derive(Clone, Copy)]
enum Shape {
    /// Negations of `Single 0`.
    Negations,
    /// Conjunctions that lean to the left and to the right in turn, each with a negation beside.
    Zigzag,
    /// `Single 0`, conjoined with itself again and again.
    Doubled,
}

impl Shape {
    /// The shape of that name.
    fn of(name: &str) -> Option<Shape> {
        match name {
            "negations" => Some(Shape::Negations),
            "zigzag" => Some(Shape::Zigzag),
            "doubled" => Some(Shape::Doubled),
            _ => None,
        }
    }

    /// The formula without levels.
    fn start(self) -> Formula {
        match self {
            Shape::Zigzag => Formula::Root(Track(1)),
            _ => Formula::Single(Track(0)),
        }
    }
}

/// The conjunction with a negation on the right, or on the left.
fn leaned(alloc: Global, formula: Formula, is_on_the_right: bool) -> Result<Formula, AllocError> {
    let beside = Formula::not(alloc, Formula::Single(Track(0)))?;
    if is_on_the_right {
        Formula::and(alloc, formula, beside)
    } else {
        Formula::and(alloc, beside, formula)
    }
}

/// The formula with one more level.
fn grown(alloc: Global, shape: Shape, level: u32, formula: Formula) -> Result<Formula, AllocError> {
    match shape {
        Shape::Negations => Formula::not(alloc, formula),
        Shape::Zigzag => leaned(alloc, formula, level % 2 == 0),
        Shape::Doubled => Formula::and(alloc, formula.copy(alloc)?, formula),
    }
}

/// The formula of the shape with so many levels.
fn large(alloc: Global, shape: Shape, levels: u32) -> Result<Formula, AllocError> {
    let mut formula = shape.start();
    for level in 0..levels {
        formula = grown(alloc, shape, level, formula)?;
    }
    Ok(formula)
}

/// Whether a formula has the number.
fn knows(interner: &Interner, id: FormulaId) -> bool
    ensures { IsTrue result ↔ (id.0 < length interner.now) }
{
    interner.form(id).is_some()
}

/// Writes the numbers of a formula's parts, or of many how many there are, with the first and the last.
fn write_ids(alloc: Global, ids: &[FormulaId], out: &mut Writer) -> Result<(), AllocError> {
    match (ids.first(), ids.last()) {
        (Some(first), Some(last)) if ids.len() > 9 => {
            write_number(out, b" parts ", ids.len() as u64);
            write_number(out, b" from ", first.0 as u64);
            write_number(out, b" to ", last.0 as u64);
        }
        _ => {
            let text = format!(in alloc; " parts {ids:?}")?;
            out.push_all(text.as_bytes());
        }
    }
    Ok(())
}

/// Writes the parts of the formula with this number.
fn write_parts(
    alloc: Global,
    interner: &Interner,
    id: FormulaId,
    out: &mut Writer,
) -> Result<(), AllocError> {
    if !knows(interner, id) {
        out.push_all(b" -");
        return Ok(());
    }
    let parts = interner.parts(alloc, id)?;
    write_ids(alloc, parts.as_slice(), out)
}

/// Writes the form of a number.
fn write_form(
    alloc: Global,
    interner: &Interner,
    id: FormulaId,
    out: &mut Writer,
) -> Result<(), AllocError> {
    match interner.form(id) {
        Some(form) => {
            let text = format!(in alloc; " {form:?}")?;
            out.push_all(text.as_bytes());
        }
        None => out.push_all(b" none"),
    }
    Ok(())
}

/// Writes the number of a formula, and how many nodes it has.
fn write_sized(
    alloc: Global,
    interner: &mut Interner,
    formula: &Formula,
    out: &mut Writer,
) -> Result<(), AllocError> {
    let id = intern(alloc, interner, formula)?;
    write_number(out, b" ", id.0 as u64);
    write_number(out, b" size ", formula.size() as u64);
    Ok(())
}

/// Writes the number of a formula's copy, and how many nodes the copy has.
fn write_copy(
    alloc: Global,
    interner: &mut Interner,
    formula: &Formula,
    out: &mut Writer,
) -> Result<(), AllocError> {
    let copy = formula.copy(alloc)?;
    write_sized(alloc, interner, &copy, out)
}

/// Writes the number of a formula, that of its copy, how many nodes the copy has, how many parts it has, and the form of its
/// number.
fn write_formula(
    alloc: Global,
    interner: &mut Interner,
    formula: &Formula,
    out: &mut Writer,
) -> Result<(), AllocError> {
    let id = intern(alloc, interner, formula)?;
    write_number(out, b" ", id.0 as u64);
    write_copy(alloc, interner, formula, out)?;
    write_parts(alloc, interner, id, out)?;
    write_form(alloc, interner, id, out)
}

/// The form of a line over tracks and numbers.
fn form_of(what: &str, one: u32, other: u32) -> Option<Node> {
    match what {
        "sub" => Some(Node::Sub(Track(one), Track(other))),
        "single" => Some(Node::Single(Track(one))),
        "left" => Some(Node::Succ0(Track(one), Track(other))),
        "right" => Some(Node::Succ1(Track(one), Track(other))),
        "root" => Some(Node::Root(Track(one))),
        "and" => Some(Node::And(FormulaId(one), FormulaId(other))),
        "not" => Some(Node::Not(FormulaId(one))),
        "ex" => Some(Node::Ex2(Track(one), FormulaId(other))),
        _ => None,
    }
}

/// The number of a form over numbers; `None` where its parts have none.
fn put(interner: &mut Interner, form: Node) -> Result<Option<FormulaId>, AllocError> {
    let known = match form {
        Node::And(left, right) => knows(interner, left) && knows(interner, right),
        Node::Not(inner) | Node::Ex2(_, inner) => knows(interner, inner),
        _ => true,
    };
    if !known {
        return Ok(None);
    }
    Ok(Some(intern_form(interner, form)?))
}

/// Writes the number of a form.
fn write_put(interner: &mut Interner, form: Node, out: &mut Writer) -> Result<(), AllocError> {
    match put(interner, form)? {
        Some(id) => write_number(out, b" ", id.0 as u64),
        None => out.push_all(b" -"),
    }
    Ok(())
}

/// Writes what there is to say of a large formula.
fn write_large(
    alloc: Global,
    interner: &mut Interner,
    shape: Shape,
    levels: u32,
    out: &mut Writer,
) -> Result<(), AllocError> {
    let formula = large(alloc, shape, levels)?;
    write_formula(alloc, interner, &formula, out)
}

/// Writes what a line asks for of numbers.
fn answer_numbers(
    alloc: Global,
    interner: &mut Interner,
    line: &str,
    out: &mut Writer,
) -> Result<(), AllocError> {
    let what = word_at(line, 0);
    let one = number_of(word_at(line, 1));
    if what == "parts" {
        return write_parts(alloc, interner, FormulaId(one), out);
    }
    if what == "form" {
        return write_form(alloc, interner, FormulaId(one), out);
    }
    match form_of(what, one, number_of(word_at(line, 2))) {
        Some(form) => write_put(interner, form, out),
        None => {
            write_unknown(out);
            Ok(())
        }
    }
}

/// Writes what a line asks for.
pub(crate) fn answer_form(
    alloc: Global,
    interner: &mut Interner,
    line: &str,
    out: &mut Writer,
) -> Result<(), AllocError> {
    match Shape::of(word_at(line, 0)) {
        Some(shape) => write_large(alloc, interner, shape, number_of(word_at(line, 1)), out),
        None => answer_numbers(alloc, interner, line, out),
    }
}
