//! What is found of each part of a formula, once: its free tracks, and its size as a tree.

ghost use Rattle.std.specs.Prelude.{◌≡◌, ℕ, ◌<◌, IfOk, OnOk, IfSome, IfNone, List, length, true, Contains, ◌||◌};
ghost use Rattle.std.specs.Prelude.{◌==◌, if◌then◌else◌, false, nat_eq, Some, slice_get};
ghost use Rattle.std.specs.HashSet.{contains};
ghost use Rattle.ws2s_core.specs.declared.formula.Formula.{Formula};
ghost use Rattle.ws2s_core.specs.Nodes.{Extends, HasPartsBelow, formula_of_node};
ghost use Rattle.ws2s_core.specs.Tracks.{is_free, IsFree};
ghost use Rattle.ws2s_facts.specs.Conjuncts.{IsThere, formula_of};
ghost use Rattle.ws2s_facts.specs.Facts.{IsFact, AreFacts, Finds};

use crate::tracks::{copy_of, of_two, union, without};
use std::alloc::{AllocError, Global};
use std::collections::{HashMap, HashSet};
use ws2s_core::{FormulaId, Interner, Node, Track, intern_form};

/// How many free tracks a formula has at most of which anything is kept.
const MANY_TRACKS: usize = 256;

/// What is known of a formula.
#[derive(Drop)]
pub struct Fact {
    pub id: FormulaId,
    /// The numbers of its free tracks.
    pub tracks: HashSet<u32>,
    /// How many nodes it has as a tree, or the greatest number where it has more: a hint of which nothing is promised.
    pub size: u32,
}

/// What is known of the parts of a formula. Nothing is known of those with too many free tracks.
#[derive(Drop)]
pub struct Facts {
    pub facts: Vec<Fact>,
    /// Where the fact about a formula stands.
    places: HashMap<FormulaId, usize>,
}

impl Facts {
    /// What is known of all parts of a formula.
    ///
    /// # Errors
    ///
    /// Want of memory.
    pub fn of_parts(alloc: Global, interner: &Interner, id: FormulaId) -> Result<Facts, AllocError>
        requires { IsThere interner.now id }
        ensures { IfOk result (λ facts. AreFacts interner.now facts.facts.items) }
    {
        let parts = interner.parts(alloc, id)?;
        let mut facts = Facts {
            facts: Vec::new(alloc),
            places: HashMap::new(alloc),
        };
        for part in parts.as_slice() {
            facts.add(alloc, interner, *part)?;
        }
        Ok(facts)
    }

    /// What is known of a formula.
    pub fn get(&self, id: FormulaId) -> Option<&Fact>
        ensures id { IfSome result (λ fact. fact.now.id ≡ id) }
        ensures fact { IfSome result (λ fact. (formulas : List Formula) → AreFacts formulas self.now.facts.items → IsFact formulas fact.now) }
    {
        let place = *self.places.get(&id)?;
        let fact = self.facts.get(place)?;
        if fact.id == id {
            return Some(fact);
        }
        None
    }

    /// The numbers of a formula's free tracks. `None` where they aren't known.
    ///
    /// # Errors
    ///
    /// Want of memory.
    pub fn free_tracks(&self, alloc: Global, id: FormulaId) -> Result<Option<Vec<u32>>, AllocError>
        ensures { IfOk result (λ found. IfSome found (λ numbers. (formulas : List Formula) → AreFacts formulas self.now.facts.items → (t : ℕ) →
            IsFree t (formula_of formulas id) → Contains numbers.items t)) }
    {
        let Some(fact) = self.get(id) else {
            return Ok(None);
        };
        let mut numbers = Vec::new(alloc);
        numbers.extend(fact.tracks.iter().copied())?;
        Ok(Some(numbers))
    }

    /// Puts in what is found of a formula by what is known of its parts, unless it is known.
    fn add(&mut self, alloc: Global, interner: &Interner, id: FormulaId) -> Result<(), AllocError>
        requires { AreFacts interner.now self.old.facts.items }
        ensures { OnOk result (AreFacts interner.now self.new.facts.items) }
    {
        if self.get(id).is_some() {
            return Ok(());
        }
        let Some(node) = interner.form(id) else {
            return Ok(());
        };
        let found = self.found(alloc, node)?;
        let Some(tracks) = found else {
            return Ok(());
        };
        if tracks.len() > MANY_TRACKS {
            return Ok(());
        }
        self.places.insert(id, self.facts.len())?;
        let size = self.size_of(node);
        self.facts.push(Fact { id, tracks, size })?;
        Ok(())
    }

    /// How many nodes the formula has as a tree, or the greatest number where it has more or that isn't known.
    fn size(&self, id: FormulaId) -> u32 {
        match self.get(id) {
            Some(fact) => fact.size,
            None => u32::MAX,
        }
    }

    /// The same of a node's formula.
    fn size_of(&self, node: Node) -> u32 {
        match node {
            Node::Sub(_, _)
            | Node::Single(_)
            | Node::Succ0(_, _)
            | Node::Succ1(_, _)
            | Node::Root(_) => 1,
            Node::And(f, g) => self.size(f).saturating_add(self.size(g)).saturating_add(1),
            Node::Not(f) | Node::Ex2(_, f) => self.size(f).saturating_add(1),
        }
    }

    /// The free tracks of a node's formula. `None` where they aren't known of a part.
    fn found(&self, alloc: Global, node: Node) -> Result<Option<HashSet<u32>>, AllocError>
        ensures { IfOk result (λ found. IfSome found (λ tracks. Finds self.now.facts.items
            (λ formulas t. is_free t (formula_of_node formulas node)) tracks)) }
    {
        match node {
            Node::Sub(x, y) => self.found_atom(alloc, x, y),
            Node::Single(x) => self.found_atom(alloc, x, x),
            Node::Succ0(x, y) => self.found_atom(alloc, x, y),
            Node::Succ1(x, y) => self.found_atom(alloc, x, y),
            Node::Root(x) => self.found_atom(alloc, x, x),
            Node::And(f, g) => self.found_and(alloc, f, g),
            Node::Not(f) => self.found_not(alloc, f),
            Node::Ex2(t, f) => self.found_ex2(alloc, t, f),
        }
    }

    fn found_atom(
        &self,
        alloc: Global,
        x: Track,
        y: Track,
    ) -> Result<Option<HashSet<u32>>, AllocError>
        ensures { IfOk result (λ found. IfSome found (λ tracks. Finds self.now.facts.items
            (λ formulas t. (x.0 == t) || (y.0 == t)) tracks)) }
    {
        let tracks = of_two(alloc, x, y)?;
        Ok(Some(tracks))
    }

    fn found_and(
        &self,
        alloc: Global,
        f: FormulaId,
        g: FormulaId,
    ) -> Result<Option<HashSet<u32>>, AllocError>
        ensures { IfOk result (λ found. IfSome found (λ tracks. Finds self.now.facts.items
            (λ formulas t. is_free t (formula_of formulas f) || is_free t (formula_of formulas g)) tracks)) }
    {
        let Some(left) = self.get(f) else {
            return Ok(None);
        };
        let Some(right) = self.get(g) else {
            return Ok(None);
        };
        let tracks = union(alloc, &left.tracks, &right.tracks)?;
        Ok(Some(tracks))
    }

    fn found_not(&self, alloc: Global, f: FormulaId) -> Result<Option<HashSet<u32>>, AllocError>
        ensures { IfOk result (λ found. IfSome found (λ tracks. Finds self.now.facts.items
            (λ formulas t. is_free t (formula_of formulas f)) tracks)) }
    {
        let Some(inner) = self.get(f) else {
            return Ok(None);
        };
        let tracks = copy_of(alloc, &inner.tracks)?;
        Ok(Some(tracks))
    }

    fn found_ex2(
        &self,
        alloc: Global,
        t: Track,
        f: FormulaId,
    ) -> Result<Option<HashSet<u32>>, AllocError>
        ensures { IfOk result (λ found. IfSome found (λ tracks. Finds self.now.facts.items
            (λ formulas u. if t.0 == u then false else is_free u (formula_of formulas f)) tracks)) }
    {
        let Some(inner) = self.get(f) else {
            return Ok(None);
        };
        let tracks = without(alloc, &inner.tracks, t)?;
        Ok(Some(tracks))
    }

    /// Whether the track is known not to be free in the formula.
    pub fn lacks(&self, id: FormulaId, t: Track) -> bool
        ensures { result ≡ true → (formulas : List Formula) → AreFacts formulas self.now.facts.items →
            IsFree t.0 (formula_of formulas id) → ⊥ }
    {
        match self.get(id) {
            Some(fact) => !fact.tracks.contains(&t.0),
            None => false,
        }
    }
}

/// The number of the node's formula, of which is found what can be known of it.
///
/// # Errors
///
/// Want of memory.
pub fn make(
    alloc: Global,
    interner: &mut Interner,
    facts: &mut Facts,
    node: Node,
) -> Result<FormulaId, AllocError>
    requires parts { HasPartsBelow (length interner.old) node }
    requires facts { AreFacts interner.old facts.old.facts.items }
    ensures kept { Extends interner.old interner.new }
    ensures value { IfOk result (λ id. slice_get interner.new id.0 ≡ Some (formula_of_node interner.old node)) }
    ensures facts { IfOk result (λ id. AreFacts interner.new facts.new.facts.items) }
{
    let id = intern_form(interner, node)?;
    facts.add(alloc, interner, id)?;
    Ok(id)
}
