//! Verdicts on formulas that passes make easier.

ghost use Rattle.std.specs.Prelude.{◌≡◌, ◌<◌, ℕ, Ok, IfOk};
ghost use Rattle.bdd_nodes.specs.Shelf.{limit_of};
ghost use Rattle.gta_keep.specs.Holding.{HasNoTables};
ghost use Rattle.ws2s_core.specs.declared.formula.Formula.TheVariants.{And};
ghost use Rattle.ws2s_core.specs.Satisfaction.{Same};
ghost use Rattle.ws2s_theory.specs.Peaks.{HasPeak};
ghost use Rattle.ws2s_decide.specs.declared.verdict.Verdict.{Verdict};
ghost use Rattle.ws2s_decide.specs.Deciding.{IsVerdict, guide_of, HasKept};
ghost use Rattle.tree_encode.specs.Spaces as spaces;
ghost use Rattle.tree_reached.specs.Alike.{LaysOutTrees};
ghost use Rattle.field_judge.specs.Known.{FollowsFrom};

use crate::guides::first_guide;
use bdd_nodes::Shelf;
use std::alloc::{AllocError, Global};
use tree_encode::Layout;
use tree_reached::by_fields;
use ws2s_core::{Formula, TrackList};
use ws2s_decide::{Decider, Verdict};
use ws2s_pass::{PassList, apply};

/// Both formulas, the known one first.
fn joined_to(alloc: Global, known: &Formula, formula: Formula) -> Result<Formula, AllocError>
    ensures { IfOk result (λ joined. joined ≡ And known.now formula) }
{
    let known = known.copy(alloc)?;
    Formula::and(alloc, known, formula)
}

/// The verdict on what the passes make of a formula and of what is known of all that satisfies it, which is one on the formula
/// too. A limit says nothing of the formula's own Peak.
fn verdict_by_passes(
    alloc: Global,
    formula: Formula,
    known: &Formula,
    passes: &PassList,
    tracks: &TrackList,
    decider: &mut Decider,
    shelf: &mut Shelf,
) -> Result<Verdict, AllocError>
    requires kept { HasKept shelf.old decider.old }
    requires follows { FollowsFrom formula known.now }
    ensures value { IfOk result (IsVerdict tracks.now formula) }
    ensures kept { HasKept shelf.new decider.new }
    ensures guide { guide_of decider.new ≡ guide_of decider.old }
    ensures same_limit { limit_of shelf.new ≡ limit_of shelf.old }
{
    let joined = joined_to(alloc, known, formula)?;
    let easier = apply(alloc, passes, &joined)?;
    let verdict = decider.decide(alloc, &easier, tracks, shelf)?;
    Ok(verdict)
}

/// The verdict on a formula: that on what the passes make of an easier one, which means the same, with what is known in front, and
/// where that is at the limit or wants memory, that on the formula as it stands. So a limit is licensed by the Peak of the formula
/// itself, whatever the passes are, whatever the easier formula is and whatever is known. What is known has to follow from the
/// formula.
///
/// # Errors
///
/// Want of memory, as for [`Decider::decide`] on the formula as it stands. What the passes want of memory, and what they make,
/// ends nothing.
pub fn verdict_on(
    alloc: Global,
    formula: &Formula,
    easier: Formula,
    known: &Formula,
    passes: &PassList,
    tracks: &TrackList,
    decider: &mut Decider,
    shelf: &mut Shelf,
) -> Result<Verdict, AllocError>
    requires kept { HasKept shelf.old decider.old }
    requires follows { FollowsFrom formula.now known.now }
    requires same { Same formula.now easier }

    // The answer.
    ensures value { IfOk result (IsVerdict tracks.now formula.now) }
    ensures limit { result ≡ Ok Verdict.Limit → (p : ℕ) → HasPeak (guide_of decider.old) formula.now p → limit_of shelf.old < p }

    // What the call leaves, whatever it answers.
    ensures kept { HasKept shelf.new decider.new }
    ensures guide { guide_of decider.new ≡ guide_of decider.old }
    ensures same_limit { limit_of shelf.new ≡ limit_of shelf.old }
{
    match verdict_by_passes(alloc, easier, known, passes, tracks, decider, shelf) {
        Ok(Verdict::None) => Ok(Verdict::None),
        Ok(Verdict::Witness(tree, weight)) => Ok(Verdict::Witness(tree, weight)),
        Ok(Verdict::TooLarge) => Ok(Verdict::TooLarge),
        Ok(Verdict::Limit) | Err(_) => decider.decide(alloc, formula, tracks, shelf),
    }
}

/// The verdict on a formula that trees of the layout's stores alone satisfy, under the layout's guide, by a decider for this
/// formula alone, which tries easier ones under the first guide: one in which types of many fields are told by field, and with what
/// is known in front.
///
/// # Errors
///
/// Want of memory, as for [`verdict_on`].
pub(crate) fn verdict_alone(
    alloc: Global,
    l: &Layout<'_>,
    formula: &Formula,
    known: &Formula,
    passes: &PassList,
    tracks: &TrackList,
    shelf: &mut Shelf,
) -> Result<Verdict, AllocError>
    requires tables { HasNoTables shelf.old }
    requires follows { FollowsFrom formula.now known.now }
    requires trees { LaysOutTrees l.now.types l.now.vars formula.now }
    ensures value { IfOk result (IsVerdict tracks.now formula.now) }
    ensures limit { result ≡ Ok Verdict.Limit → (p : ℕ) →
        HasPeak (spaces.guide_of l.now.types l.now.vars l.now.spares) formula.now p → limit_of shelf.old < p }
    ensures tables { HasNoTables shelf.new }
    ensures same_limit { limit_of shelf.new ≡ limit_of shelf.old }
{
    let guide = l.guide(alloc)?;
    let first = first_guide(alloc, l)?;
    let easier = by_fields(alloc, l, formula)?;
    let decider = Decider::with_first(alloc, guide, first)?;
    let mut decider = decider.used_once();
    let verdict = verdict_on(
        alloc,
        formula,
        easier,
        known,
        passes,
        tracks,
        &mut decider,
        shelf,
    );
    decider.close(shelf);
    verdict
}
