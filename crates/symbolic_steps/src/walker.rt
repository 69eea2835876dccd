//! How far a walk over a code has come.

ghost use Rattle.std.specs.Prelude.{◌≡◌, ◌+◌, ◌==◌, length, Some, IfOk, OnOk};
ghost use Rattle.ws2s_core.specs.declared.formula.Formula.TheVariants.{And};
ghost use Rattle.ws2s_forms.specs.Forms.{track};
ghost use Rattle.tree_encode.specs.Tracks.{track_count};
ghost use Rattle.graph_view.specs.Syms as syms;
ghost use Rattle.site_list.specs.States as states;
ghost use Rattle.symbolic_steps.specs.Shown.{defining, happening, valued};

use graph_cells::guard;
use graph_view::{Event, Sym, View};
use plain_data::{Items, at};
use std::alloc::{AllocError, Global};
use store_core::VarId;
use tree_encode::Layout;
use ws2s_core::{Formula, Track};
use ws2s_forms::later;

/// How far a walk over a code has come, with what it has made as formulas.
#[derive(Drop)]
pub struct Walker {
    /// Where the statement is reached: always, or where the root is on this track.
    pub guard: Option<Track>,
    /// The store there, and the first track that quantifiers bind.
    pub view: View,
    /// How many `new` stand before, in all codes.
    pub news: u32,
    /// What defines each track that was made, in the order of making.
    pub defined: Items<Formula>,
    /// How many places were passed.
    pub passed: u32,
    /// The number of the place whose formula is wanted.
    pub wanted: u32,
    /// That formula, once the place was passed.
    pub found: Option<Formula>,
}

/// What stands for a variable.
pub fn value_of(values: &[Sym], v: VarId) -> Sym
    ensures { result ≡ states.value_of values.now v }
{
    match at(values, v.0 as usize) {
        Some(value) => *value,
        None => Sym::Null,
    }
}

/// The track that is made next.
///
/// # Errors
///
/// Where there are not as many tracks.
pub fn next_track(l: &Layout<'_>, w: &Walker) -> Result<Track, AllocError>
    ensures { IfOk result (λ made. made ≡ track (track_count l.now.types l.now.vars + length w.now.defined)) }
{
    let Ok(made) = u32::try_from(w.defined.len()) else {
        return Err(AllocError);
    };
    Ok(Track(later(l.tracks(), made)?))
}

/// Makes a track with this definition.
///
/// # Errors
///
/// Want of memory.
pub fn define(w: &mut Walker, definition: Formula) -> Result<(), AllocError>
    ensures { OnOk result (w.new ≡ defining definition w.old) }
{
    w.defined.push(definition)
}

/// Counts a place, and tells whether it is the one that is wanted.
///
/// # Errors
///
/// As many places as a `u32` counts were passed before.
pub fn passes(w: &mut Walker) -> Result<bool, AllocError>
    ensures { IfOk result (λ here. (here ≡ (w.old.passed == w.old.wanted)) × (w.new ≡ record w.old { passed = w.old.passed + 1 })) }
{
    let here = w.passed == w.wanted;
    w.passed = later(w.passed, 1)?;
    Ok(here)
}

/// Keeps the formula of the place that is wanted.
///
/// # Errors
///
/// Want of memory.
pub fn find(
    alloc: Global,
    w: &mut Walker,
    reached: &Formula,
    condition: Formula,
) -> Result<(), AllocError>
    ensures { OnOk result (w.new ≡ record w.old { found = Some (And reached.now condition) }) }
{
    w.found = Some(Formula::and(alloc, reached.copy(alloc)?, condition)?);
    Ok(())
}

/// Where the statement is reached.
///
/// # Errors
///
/// Want of memory.
pub fn reached(alloc: Global, w: &Walker) -> Result<Formula, AllocError>
    ensures { IfOk result (λ formula. formula ≡ syms.guard w.now.view.next w.now.guard) }
{
    guard(alloc, w.view.next, w.guard)
}

/// A change of the heap.
pub(crate) fn happens(w: &mut Walker, event: Event) -> Result<(), AllocError>
    ensures { OnOk result (w.new ≡ happening event w.old) }
{
    w.view.events.push(event)
}

/// Puts a value for a variable.
pub(crate) fn set_value(w: &mut Walker, v: VarId, value: Sym)
    ensures { w.new ≡ valued v value w.old }
{
    if (v.0 as usize) < w.view.vars.len() {
        w.view.vars.set(v.0 as usize, value);
    }
}
