//! Steps on conjunctions and on quantified formulas.

ghost use Rattle.std.specs.Prelude.{◌≡◌, IfOk, OnOk};
ghost use Rattle.cert_nodes.specs.Spots.{AreDrawn};
ghost use Rattle.cert_steps.specs.Places.{greatests_of};
ghost use Rattle.cert_check.specs.Reading.{IsBaseOfPairs, IsBaseOfSets, ReadsConjunction, ReadsQuantified};

use crate::board::Base;
use crate::reached::{no_pair_says, no_set_says};
use cert_lists::{read_pairs, read_sets, read_settled};
use cert_settled::lead_to_quantified;
use cert_steps::{Drawing, Stop, read_automaton};
use cert_tables::{PairTable, SetTable, Table, lead_to_conjunction};
use cert_text::Line;
use std::alloc::Global;
use ws2s_core::Guide;

/// The automaton of a conjunction, whose pairs go to its states.
fn conjunction_base(table: Table, pairs: &PairTable) -> Base
    ensures { IsBaseOfPairs table pairs.now result }
{
    let never_accepts = no_pair_says(&table, true, pairs.as_slice());
    let never_rejects = no_pair_says(&table, false, pairs.as_slice());
    Base {
        table,
        never_accepts,
        never_rejects,
    }
}

/// The automaton of a quantified formula, whose sets go to its states.
fn quantified_base(table: Table, sets: &SetTable) -> Base
    ensures { IsBaseOfSets table sets.now result }
{
    let never_accepts = no_set_says(&table, true, sets.as_slice());
    let never_rejects = no_set_says(&table, false, sets.as_slice());
    Base {
        table,
        never_accepts,
        never_rejects,
    }
}

/// The automaton of a conjunction, by those of its two parts, and what follows the lines of its step.
///
/// # Errors
///
/// The first line that is wrong in its place; `Open` where the pairs don't lead to the automaton; want of memory.
pub(crate) fn read_conjunction<'a>(
    alloc: Global,
    g: &Guide,
    drawing: &mut Drawing,
    a: &Table,
    a_negated: bool,
    b: &Table,
    b_negated: bool,
    lines: &'a [Line],
) -> Result<(Base, &'a [Line]), Stop>
    requires drawn { AreDrawn drawing.old.nodes }
    requires known { drawing.old.greatest ≡ greatests_of drawing.old.nodes.told }
    ensures drawn { OnOk result (AreDrawn drawing.new.nodes) }
    ensures known { OnOk result (drawing.new.greatest ≡ greatests_of drawing.new.nodes.told) }
    ensures atoms { OnOk result (drawing.new.nodes.atoms ≡ drawing.old.nodes.atoms) }
    ensures found { IfOk result (λ cut. ReadsConjunction g.now drawing.old.nodes.told drawing.new.nodes a.now a_negated
        b.now b_negated lines.now cut.0 cut.1.now) }
{
    let (c, left) = read_automaton(alloc, g, drawing, lines)?;
    let (pairs, rest) = read_pairs(alloc, a, b, &c, left)?;
    let nodes = &drawing.nodes;
    if !lead_to_conjunction(alloc, g, nodes, a, a_negated, b, b_negated, &pairs, &c)? {
        return Err(Stop::Open(rest.len()));
    }
    Ok((conjunction_base(c, &pairs), rest))
}

/// The automaton of a quantified formula, by that of its part, and what follows the lines of its step.
///
/// # Errors
///
/// The first line that is wrong in its place; `Open` where the settled states aren't closed, or the sets don't lead to the
/// automaton; want of memory.
pub(crate) fn read_quantified<'a>(
    alloc: Global,
    g: &Guide,
    drawing: &mut Drawing,
    a: &Table,
    a_negated: bool,
    track: u32,
    lines: &'a [Line],
) -> Result<(Base, &'a [Line]), Stop>
    requires drawn { AreDrawn drawing.old.nodes }
    requires known { drawing.old.greatest ≡ greatests_of drawing.old.nodes.told }
    ensures drawn { OnOk result (AreDrawn drawing.new.nodes) }
    ensures known { OnOk result (drawing.new.greatest ≡ greatests_of drawing.new.nodes.told) }
    ensures atoms { OnOk result (drawing.new.nodes.atoms ≡ drawing.old.nodes.atoms) }
    ensures found { IfOk result (λ cut. ReadsQuantified g.now drawing.old.nodes.told drawing.new.nodes a.now a_negated track
        lines.now cut.0 cut.1.now) }
{
    let (c, left) = read_automaton(alloc, g, drawing, lines)?;
    let nodes = &drawing.nodes;
    let (settled, left) = read_settled(alloc, g, nodes, a, track, left)?;
    let (sets, rest) = read_sets(alloc, a, &c, left)?;
    if !lead_to_quantified(alloc, g, nodes, a, a_negated, track, &settled, &sets, &c)? {
        return Err(Stop::Open(rest.len()));
    }
    Ok((quantified_base(c, &sets), rest))
}
