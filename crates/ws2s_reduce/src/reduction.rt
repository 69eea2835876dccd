//! The two formulas of a text.

ghost use Rattle.std.specs.Prelude.{◌≡◌, [], ◌∷◌, ◌++◌, length, map, IfOk, OnOk, IfErr};
ghost use Rattle.ws2s_syntax.specs.Sentences.{sentence_of};
ghost use Rattle.ws2s_syntax.specs.Checked.{IsChecked, class_of_free};
ghost use Rattle.ws2s_forms.specs.Forms.{and_list};
ghost use Rattle.ws2s_reduce.specs.Reducing.{singles_from, reduced, no_reductions, reductions_from, holds_of, breaks_of};
ghost use Rattle.ws2s_reduce.specs.Answer.{IsReduced, MeansText, MeansBroken, free_from};
ghost use Rattle.ws2s_reduce.specs.Sizes.{IsSmall};

use crate::machine::reduced;
use crate::size::is_small;
use plain_data::Items;
use std::alloc::{AllocError, Global};
use thiserror::Error;
use ws2s_core::{Formula, Track, TrackList};
use ws2s_forms::{and_list, later};
use ws2s_syntax::{Free, Predicate, TextFormula, Ws2sText};

/// The reduction of a text.
#[derive(Debug, Drop)]
pub struct Reduced {
    /// Each `var1` is one position, and the text's formulas hold.
    pub holds: Formula,
    /// Each `var1` is one position, and not all of the text's formulas hold.
    pub breaks: Formula,
    /// The tracks of the free variables, in order of declaration.
    pub free: TrackList,
}

/// Why a text has no reduction.
#[derive(Clone, Copy, Debug, PartialEq, Eq, Error)]
pub enum ReduceFault {
    /// One of the formulas has more than 65,536 nodes.
    #[error("big-formula")]
    BigFormula,
    #[error("out of memory")]
    NoMemory,
}

impl From<AllocError> for ReduceFault {
    ghost use Rattle.std.specs.Prelude.{◌≡◌};
    ghost use Rattle.ws2s_reduce.specs.declared.reduction.ReduceFault.TheVariants.{NoMemory};

    ghost from_gives = { λ _ e. e ≡ NoMemory };

    fn from(_error: AllocError) -> ReduceFault {
        ReduceFault::NoMemory
    }
}

/// `Single` for a free variable that is a position.
fn push_single(formulas: &mut Vec<Formula>, variable: &Free, track: u32) -> Result<(), AllocError>
    ensures { OnOk result (formulas.new.items
        ≡ formulas.old.items ++ singles_from track (class_of_free variable.now ∷ [])) }
{
    if !variable.set {
        formulas.push(Formula::Single(Track(track)))?;
    }
    Ok(())
}

/// `Single` for each free variable that is a position.
fn singles(alloc: Global, free: &[Free]) -> Result<Vec<Formula>, AllocError>
    ensures { IfOk result (λ formulas. formulas.items ≡ singles_from 0 (map class_of_free free.now)) }
{
    let mut formulas = Vec::new(alloc);
    let mut track = 0;
    for variable in free {
        push_single(&mut formulas, variable, track)?;
        track = later(track, 1)?;
    }
    Ok(formulas)
}

fn tracks(alloc: Global, count: u32) -> Result<TrackList, AllocError>
    ensures { IfOk result (λ tracks. tracks ≡ free_from 0 count) }
{
    let mut tracks = Items::new(alloc);
    for track in 0..count {
        tracks.push(Track(track))?;
    }
    Ok(tracks)
}

fn formulas(
    alloc: Global,
    predicates: &[Predicate],
    stated: &[TextFormula],
    next: u32,
) -> Result<Vec<Formula>, AllocError>
    ensures { IfOk result (λ formulas. formulas.items ≡ map (λ f. reduced (reductions_from no_reductions 0
        (map (λ p. sentence_of p.body) predicates.now)) next [] (sentence_of f)) stated.now) }
{
    let mut formulas = Vec::new(alloc);
    for formula in stated {
        let made = reduced(alloc, predicates, formula, next)?;
        formulas.push(made)?;
    }
    Ok(formulas)
}

/// Each `var1` is one position, and these formulas hold.
fn with_singles(
    alloc: Global,
    free: &[Free],
    next: u32,
    mut stated: Vec<Formula>,
) -> Result<Formula, AllocError>
    ensures { IfOk result (λ formula. formula ≡
        and_list next (singles_from 0 (map class_of_free free.now) ++ stated.items)) }
{
    let mut all = singles(alloc, free)?;
    all.append(&mut stated)?;
    and_list(alloc, next, all)
}

fn holds(alloc: Global, text: &Ws2sText, next: u32) -> Result<Formula, AllocError>
    requires { next ≡ length text.now.free }
    ensures { IfOk result (λ formula. formula ≡ holds_of text.now) }
{
    let stated = formulas(
        alloc,
        text.predicates().as_slice(),
        text.formulas().as_slice(),
        next,
    )?;
    with_singles(alloc, text.free().as_slice(), next, stated)
}

fn breaks(alloc: Global, text: &Ws2sText, next: u32) -> Result<Formula, AllocError>
    requires { next ≡ length text.now.free }
    ensures { IfOk result (λ formula. formula ≡ breaks_of text.now) }
{
    let stated = formulas(
        alloc,
        text.predicates().as_slice(),
        text.formulas().as_slice(),
        next,
    )?;
    let whole = and_list(alloc, next, stated)?;
    let fails = Formula::not(alloc, whole)?;
    let mut one = Vec::new(alloc);
    one.push(fails)?;
    with_singles(alloc, text.free().as_slice(), next, one)
}

fn build(alloc: Global, text: &Ws2sText) -> Result<Reduced, AllocError>
    ensures value { IfOk result (λ reduced. IsReduced text.now reduced) }
    ensures checked { IsChecked text.now }
{
    let next = text.free().len() as u32;
    let free = tracks(alloc, next)?;
    let holds = holds(alloc, text, next)?;
    let breaks = breaks(alloc, text, next)?;
    Ok(Reduced {
        holds,
        breaks,
        free,
    })
}

/// The reduction of a text.
///
/// # Errors
///
/// `BigFormula` exactly where `holds` or `breaks` has more than 65,536 nodes, found before anything is built; want of
/// memory.
pub fn reduce(alloc: Global, text: &Ws2sText) -> Result<Reduced, ReduceFault>
    ensures value { IfOk result (λ reduced. IsReduced text.now reduced) }
    // The formulas mean the text, and its breach.
    ensures holds { IfOk result (λ reduced. MeansText text.now reduced.holds) }
    ensures breaks { IfOk result (λ reduced. MeansBroken text.now reduced.breaks) }
    ensures small { IfOk result (λ reduced. IsSmall reduced.holds × IsSmall reduced.breaks) }
    ensures big { IfErr result (λ fault. fault ≡ ReduceFault.BigFormula →
        (IsSmall (holds_of text.now) × IsSmall (breaks_of text.now)) → ⊥) }
{
    if !is_small(alloc, text)? {
        return Err(ReduceFault::BigFormula);
    }
    let reduced = build(alloc, text)?;
    Ok(reduced)
}
