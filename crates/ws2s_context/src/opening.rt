//! Quantifiers at the end of a formula's outer spine are opened: an automaton need not be projected for the verdict.
//!
//! They are where some free tracks are weighed and others aren't, so that the formula is one of a store: a text's own formulas were decided faster
//! with their quantifiers, without which all conjunctions above have the bound tracks.

ghost use Rattle.std.specs.Prelude.{◌≡◌, ℕ, List, Contains, IfOk, OnOk, Some, true, slice_get};
ghost use Rattle.std.specs.List.{AllByRecursion};
ghost use Rattle.ws2s_core.specs.declared.formula.Formula.{Formula};
ghost use Rattle.ws2s_core.specs.Nodes.{Extends, IsOnceEach};
ghost use Rattle.ws2s_core.specs.Tracks.{IsFree};
ghost use Rattle.ws2s_facts.specs.Conjuncts.{IsThere, formula_of};
ghost use Rattle.ws2s_facts.specs.Facts.{AreFacts};
ghost use Rattle.ws2s_context.specs.Opening.{AreOf, IsOpened, IsSpine, spined};

use crate::hints::{has_stranger, of_list};
use std::alloc::{AllocError, Global};
use ws2s_core::{FormulaId, Interner, Node, Track, TrackList};
use ws2s_facts::{Facts, make};

/// How far the outer spine is followed.
const MANY_STEPS: u32 = 100_000;

/// An outer spine: conjuncts from the left, and what stands after them.
#[derive(Drop)]
pub(crate) struct Spine {
    pub(crate) conjuncts: Vec<FormulaId>,
    pub(crate) last: FormulaId,
}

/// The number of the formula without quantifiers at the end of its outer spine whose tracks aren't weighed: what satisfies
/// it satisfies the formula, and for what satisfies the formula something satisfies it that weighs the same.
///
/// # Errors
///
/// Want of memory.
pub fn opened(
    alloc: Global,
    interner: &mut Interner,
    id: FormulaId,
    weigh: &TrackList,
) -> Result<FormulaId, AllocError>
    requires { (f : Formula) × (slice_get interner.old id.0 ≡ Some f) }
    ensures value { IfOk result (λ made. (f : Formula) → slice_get interner.old id.0 ≡ Some f →
        (g : Formula) × (slice_get interner.new made.0 ≡ Some g) × ((tracks : List ℕ) → AreOf weigh.now tracks → IsOpened tracks f g)) }
    ensures kept { Extends interner.old interner.new }
    ensures once { IsOnceEach interner.new }
{
    let made = opened_number(alloc, interner, id, weigh);
    // Only for its clause `once`.
    let _ = interner.form(id);
    made
}

/// The same, with formulas by their places.
fn opened_number(
    alloc: Global,
    interner: &mut Interner,
    id: FormulaId,
    weigh: &TrackList,
) -> Result<FormulaId, AllocError>
    requires { IsThere interner.old id }
    ensures there { IfOk result (IsThere interner.new) }
    ensures opened { IfOk result (λ made. (tracks : List ℕ) → AreOf weigh.now tracks →
        IsOpened tracks (formula_of interner.old id) (formula_of interner.new made)) }
    ensures kept { Extends interner.old interner.new }
{
    let mut facts = Facts::of_parts(alloc, interner, id)?;
    let is_wanted = has_stranger(&facts, id, &of_list(alloc, weigh)?);
    let spine = spine_of(alloc, interner, &facts, id, weigh, is_wanted)?;
    let made = joined_again(alloc, interner, &mut facts, spine)?;
    Ok(made)
}

/// The outer spine of a formula, with those quantifiers left out.
fn spine_of(
    alloc: Global,
    interner: &Interner,
    facts: &Facts,
    id: FormulaId,
    weigh: &TrackList,
    is_wanted: bool,
) -> Result<Spine, AllocError>
    requires there { IsThere interner.now id }
    requires facts { AreFacts interner.now facts.now.facts.items }
    ensures there { IfOk result (IsSpine interner.now) }
    ensures opened { IfOk result (λ spine. (tracks : List ℕ) → AreOf weigh.now tracks →
        IsOpened tracks (formula_of interner.now id) (spined interner.now spine)) }
{
    let mut spine = Spine {
        conjuncts: Vec::new(alloc),
        last: id,
    };
    'steps: for _ in 0..MANY_STEPS {
        if !descend(interner, facts, weigh, is_wanted, &mut spine)? {
            break 'steps;
        }
    }
    Ok(spine)
}

/// Goes one step down the spine, and tells whether there was one.
fn descend(
    interner: &Interner,
    facts: &Facts,
    weigh: &TrackList,
    is_wanted: bool,
    spine: &mut Spine,
) -> Result<bool, AllocError>
    requires there { IsSpine interner.now spine.old }
    requires facts { AreFacts interner.now facts.now.facts.items }
    ensures there { OnOk result (IsSpine interner.now spine.new) }
    ensures opened { OnOk result ((tracks : List ℕ) → AreOf weigh.now tracks →
        IsOpened tracks (spined interner.now spine.old) (spined interner.now spine.new)) }
{
    let Some(node) = interner.form(spine.last) else {
        return Ok(false);
    };
    match node {
        Node::And(f, g) => {
            spine.conjuncts.push(f)?;
            spine.last = g;
            Ok(true)
        }
        Node::Ex2(t, f) => {
            let may = may_open(facts, weigh, is_wanted, spine.conjuncts.as_slice(), t);
            if may {
                spine.last = f;
            }
            Ok(may)
        }
        _ => Ok(false),
    }
}

/// Whether its quantifier is to be opened: the track isn't weighed, and is free in none of the conjuncts, as far as known.
fn may_open(
    facts: &Facts,
    weigh: &TrackList,
    is_wanted: bool,
    conjuncts: &[FormulaId],
    t: Track,
) -> bool
    ensures unweighed { result ≡ true → Contains weigh.now t → ⊥ }
    ensures unbound { result ≡ true → (formulas : List Formula) → AreFacts formulas facts.now.facts.items →
        AllByRecursion (λ c. IsFree t.0 (formula_of formulas c) → ⊥) conjuncts.now }
{
    is_wanted && !weigh.as_slice().contains(&t) && all_lack(facts, conjuncts, t)
}

/// Whether the track is known to be free in none of the conjuncts.
fn all_lack(facts: &Facts, conjuncts: &[FormulaId], t: Track) -> bool
    ensures { result ≡ true → (formulas : List Formula) → AreFacts formulas facts.now.facts.items →
        AllByRecursion (λ c. IsFree t.0 (formula_of formulas c) → ⊥) conjuncts.now }
{
    let mut rest = conjuncts;
    while let Some((conjunct, more)) = rest.split_first() {
        if !facts.lacks(*conjunct, t) {
            return false;
        }
        rest = more;
    }
    true
}

/// The formula of a spine.
fn joined_again(
    alloc: Global,
    interner: &mut Interner,
    facts: &mut Facts,
    spine: Spine,
) -> Result<FormulaId, AllocError>
    requires there { IsSpine interner.old spine }
    requires facts { AreFacts interner.old facts.old.facts.items }
    ensures there { IfOk result (IsThere interner.new) }
    ensures value { IfOk result (λ made. formula_of interner.new made ≡ spined interner.old spine) }
    ensures kept { Extends interner.old interner.new }
{
    let Spine {
        mut conjuncts,
        last,
    } = spine;
    let mut made = last;
    while let Some(conjunct) = conjuncts.pop() {
        made = make(alloc, interner, facts, Node::And(conjunct, made))?;
    }
    Ok(made)
}
