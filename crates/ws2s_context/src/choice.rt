//! Which conjuncts come into contexts, and where they are conjoined. It is a choice alone, so it promises nothing.
//!
//! Where each free track is weighed, or none, a formula is a text's own: atoms alone come into contexts, and are conjoined where a
//! position is found by steps from others, since a set of many positions there needs many states. Otherwise it says of a
//! store's tree that it fails, and cells are weighed: conjuncts of its outer spine say what a tree of a store is, and without them automata inside
//! tell apart trees of none. So these and small conjuncts come into contexts, as they were rewritten, and are conjoined at each
//! quantifier and negation.

ghost use Rattle.ws2s_facts.specs.Conjuncts.{IsContext, IsThere};

use crate::blocks::Blocks;
use crate::context::{Context, members_of, note};
use crate::hints::{has_stranger, is_relevant, of_list, size};
use crate::spine::{conjuncts_of, has_step, is_atom, is_position, single_of};
use std::alloc::{AllocError, Global};
use std::collections::{HashMap, HashSet};
use ws2s_core::{FormulaId, Interner, Node, Track, TrackList};
use ws2s_facts::Facts;

/// How many nodes a conjunct has at most that comes into contexts wherever it stands.
const MANY_NODES: u32 = 1_000;

/// How many nodes a formula under a quantifier has at most beside which no context is conjoined in the formula of a store: its automaton is
/// small without it, and that of the context would be multiplied with it for nothing.
const FEW_QUANTIFIED: u32 = 50;

/// The same of a formula that is negated.
const FEW_NEGATED: u32 = 10;

/// How far the outer spine is followed.
const MANY_STEPS: u32 = 100_000;

/// What comes into contexts.
#[derive(Drop)]
pub(crate) struct Choice {
    /// Whether other conjuncts than atoms come into contexts.
    is_whole: bool,
    /// Those formulas that are conjuncts all along: they come into contexts however large they are.
    spine: HashSet<FormulaId>,
    /// The tracks that conjuncts define: each is the first one under the quantifier of a track.
    defined: HashMap<FormulaId, Track>,
    /// Conjuncts, as they were rewritten, that come into contexts.
    taken: HashSet<FormulaId>,
    /// The numbers of the tracks that definitions are projected to, beside their own.
    weighed: HashSet<u32>,
    /// The formula whose parts are rewritten.
    root: FormulaId,
    /// The quantified positions around the part that is looked at.
    blocks: Blocks,
}

impl Choice {
    /// What comes into the contexts of a formula's parts, where these tracks are weighed.
    pub(crate) fn of_formula(
        alloc: Global,
        interner: &Interner,
        facts: &Facts,
        id: FormulaId,
        weigh: &TrackList,
    ) -> Result<Choice, AllocError>
        requires { IsThere interner.now id }
    {
        let mut choice = Choice {
            is_whole: false,
            spine: HashSet::new(alloc),
            defined: HashMap::new(alloc),
            taken: HashSet::new(alloc),
            weighed: of_list(alloc, weigh)?,
            root: id,
            blocks: Blocks::new(alloc),
        };
        choice.is_whole = has_stranger(facts, id, &choice.weighed);
        if choice.is_whole {
            choice.follow(alloc, interner, id)?;
        }
        Ok(choice)
    }

    /// Whether other conjuncts than atoms come into contexts.
    pub(crate) fn is_whole(&self) -> bool {
        self.is_whole
    }

    /// Follows the outer spine: the right halves of conjunctions, and what stands under quantifiers.
    fn follow(
        &mut self,
        alloc: Global,
        interner: &Interner,
        id: FormulaId,
    ) -> Result<(), AllocError>
        requires { IsThere interner.now id }
    {
        let mut next = id;
        let mut bound = None;
        'steps: for _ in 0..MANY_STEPS {
            let Some(node) = interner.form(next) else {
                break 'steps;
            };
            match node {
                Node::And(f, g) => {
                    self.pass(alloc, interner, f, bound)?;
                    bound = None;
                    next = g;
                }
                Node::Ex2(t, f) => {
                    bound = Some(t);
                    next = f;
                }
                _ => break 'steps,
            }
        }
        Ok(())
    }

    /// Notes a conjunct of the spine, which defines the track that was bound just before.
    fn pass(
        &mut self,
        alloc: Global,
        interner: &Interner,
        conjunct: FormulaId,
        bound: Option<Track>,
    ) -> Result<(), AllocError>
        requires { IsThere interner.now conjunct }
    {
        note(&mut self.spine, conjunct)?;
        for part in &conjuncts_of(alloc, interner, conjunct)? {
            note(&mut self.spine, *part)?;
        }
        match bound {
            Some(t) => {
                let _ = self.defined.insert(conjunct, t)?;
                Ok(())
            }
            None => Ok(()),
        }
    }

    /// The left half of a conjunction was rewritten: its conjuncts are taken where it is small or on the spine.
    pub(crate) fn take(
        &mut self,
        alloc: Global,
        interner: &Interner,
        facts: &Facts,
        left: FormulaId,
        to: FormulaId,
    ) -> Result<(), AllocError>
        requires { IsThere interner.now to }
    {
        let is_large = size(facts, left) > MANY_NODES && !self.spine.contains(&left);
        if !self.is_whole || is_large {
            return Ok(());
        }
        for conjunct in &conjuncts_of(alloc, interner, to)? {
            note(&mut self.taken, *conjunct)?;
        }
        Ok(())
    }

    /// Whether the conjunct comes into contexts.
    pub(crate) fn takes(&self, interner: &Interner, conjunct: FormulaId) -> bool {
        is_atom(interner, conjunct) || self.taken.contains(&conjunct)
    }

    /// The tracks of a definition that aren't its own or weighed, in their order; none where the formula is no definition.
    pub(crate) fn strangers(
        &self,
        alloc: Global,
        facts: &Facts,
        left: FormulaId,
        to: FormulaId,
    ) -> Result<Vec<u32>, AllocError> {
        let mut strangers = Vec::new(alloc);
        let (Some(own), Some(fact)) = (self.defined.get(&left), facts.get(to)) else {
            return Ok(strangers);
        };
        for track in &fact.tracks {
            if *track != own.0 && !self.weighed.contains(track) {
                strangers.push(*track)?;
            }
        }
        strangers.sort()?;
        Ok(strangers)
    }

    /// Whether the conjunct is a `Single` atom that comes beside negations of the formula. In a text's own formula it is one of a free
    /// position, or of one that is quantified in the innermost block, beside what relates it to others: with those of outer blocks too,
    /// alternating quantifiers over pairs of positions took fifty times as long.
    pub(crate) fn restricts(
        &self,
        interner: &Interner,
        facts: &Facts,
        conjunct: FormulaId,
        id: FormulaId,
    ) -> bool {
        let Some(t) = single_of(interner, conjunct) else {
            return false;
        };
        is_relevant(facts, conjunct, id)
            && (self.is_whole
                || (self.blocks.has(t) && has_others(facts, id))
                || is_relevant(facts, conjunct, self.root))
    }

    /// Whether all tracks of the conjunct are weighed, as far as known.
    pub(crate) fn is_of_weighed(&self, facts: &Facts, conjunct: FormulaId) -> bool {
        !has_stranger(facts, conjunct, &self.weighed)
    }

    /// What is looked at next stands under a negation.
    pub(crate) fn enter_negation(&mut self) -> Result<(), AllocError> {
        self.blocks.enter_negation()
    }

    /// What is looked at next is the formula, under a quantifier of the track.
    pub(crate) fn enter_quantifier(
        &mut self,
        alloc: Global,
        interner: &Interner,
        t: Track,
        f: FormulaId,
    ) -> Result<(), AllocError>
        requires { IsThere interner.now f }
    {
        let is_position = !self.is_whole && is_position(alloc, interner, t, f)?;
        self.blocks.enter_quantifier(t, is_position)
    }

    /// What is looked at next stands outside the innermost negation or quantifier.
    pub(crate) fn leave(&mut self) {
        self.blocks.leave();
    }

    /// Whether a context is conjoined under a quantifier of the formula.
    pub(crate) fn is_wanted(
        &self,
        alloc: Global,
        interner: &Interner,
        facts: &Facts,
        id: FormulaId,
    ) -> Result<bool, AllocError> {
        if self.is_whole {
            return Ok(size(facts, id) > FEW_QUANTIFIED);
        }
        has_step(alloc, interner, id)
    }

    /// Whether all of a context is conjoined beside a negation of the formula.
    pub(crate) fn wants_all(&self, facts: &Facts, id: FormulaId) -> bool {
        self.is_whole && size(facts, id) > FEW_NEGATED
    }

    /// The conjuncts of a context of which is noted where they are conjoined: none where all are conjoined everywhere.
    pub(crate) fn watched(
        &self,
        alloc: Global,
        interner: &Interner,
        context: Context,
    ) -> Result<Vec<FormulaId>, AllocError>
        requires { IsContext interner.now context }
    {
        if self.is_whole {
            return Ok(Vec::new(alloc));
        }
        members_of(alloc, interner, context)
    }
}

/// Whether the formula has more than one free track, as far as known.
fn has_others(facts: &Facts, id: FormulaId) -> bool {
    match facts.get(id) {
        Some(fact) => fact.tracks.len() > 1,
        None => true,
    }
}
