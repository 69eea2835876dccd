//! How often automata are asked for on the way to the automaton of one formula.

use bdd_walk::NoMemory;
use plain_data::Items;
use std::alloc::Global;
use ws2s_core::{FormulaId, Interner, Node};

/// How often a formula counts as asked for that was asked for more often than was counted: it may always come again.
const ALWAYS: u32 = u32::MAX;

/// For each formula how often its automaton is still to be asked for, where the automata that come again are kept. What is
/// kept depends on it, and no clause does.
#[derive(Drop)]
pub(crate) struct Uses {
    /// By the numbers of the formulas.
    left: Items<u32>,
}

impl Uses {
    /// The uses on the way to the automaton of the formula with the number.
    ///
    /// # Errors
    ///
    /// Want of memory.
    pub(crate) fn new(alloc: Global, interner: &Interner, id: FormulaId) -> Result<Uses, NoMemory> {
        let count = id.0 as usize + 1;
        let mut uses = Uses {
            left: zeros(alloc, count)?,
        };
        uses.add(id, 1);
        for place in 0..count {
            uses.add_parts(interner, FormulaId((count - 1 - place) as u32));
        }
        Ok(uses)
    }

    /// The automaton of the formula is asked for.
    pub(crate) fn ask(&mut self, id: FormulaId) {
        let left = match self.left(id) {
            0 | ALWAYS => ALWAYS,
            left => left - 1,
        };
        self.set(id, left);
    }

    /// Whether the automaton of the formula may be asked for once more.
    pub(crate) fn may_come(&self, id: FormulaId) -> bool {
        self.left(id) > 0
    }

    /// The uses of the parts of a formula whose own uses are all counted. The automaton of a negation isn't kept, so its
    /// part is asked for each time.
    fn add_parts(&mut self, interner: &Interner, id: FormulaId) {
        let times = self.left(id);
        if times == 0 {
            return;
        }
        match interner.form(id) {
            Some(Node::And(f, h)) => {
                self.add(f, 1);
                self.add(h, 1);
            }
            Some(Node::Not(f)) => self.add(f, times),
            Some(Node::Ex2(_, f)) => self.add(f, 1),
            _ => {}
        }
    }

    fn add(&mut self, id: FormulaId, times: u32) {
        let left = self.left(id).saturating_add(times);
        self.set(id, left);
    }

    /// 0 for a formula that isn't counted.
    fn left(&self, id: FormulaId) -> u32 {
        self.left.get(id.0 as usize).copied().unwrap_or(0)
    }

    fn set(&mut self, id: FormulaId, left: u32) {
        let place = id.0 as usize;
        if place < self.left.len() {
            self.left.set(place, left);
        }
    }
}

/// Whether the automaton of the formula may be asked for once more: always where uses aren't counted.
pub(crate) fn may_come(id: FormulaId, uses: &Option<Uses>) -> bool {
    match uses {
        Some(uses) => uses.may_come(id),
        None => true,
    }
}

/// So many zeros.
fn zeros(alloc: Global, count: usize) -> Result<Items<u32>, NoMemory> {
    let mut zeros = Items::new(alloc);
    for _ in 0..count {
        zeros.push(0)?;
    }
    Ok(zeros)
}
