//! The weights that are found so far, and the queue.

ghost use Rattle.std.specs.Prelude.{◌≡◌, ◌≤◌, ℕ, Bool, IfOk, None};
ghost use Rattle.std.specs.BinaryHeap.{heap_items};
ghost use Rattle.gta_reach.specs.declared.form.Form.{Form};
ghost use Rattle.gta_witness.specs.declared.goal.Goal.{Goal};
ghost use Rattle.gta_witness.specs.Rules.{key};
ghost use Rattle.gta_witness.specs.Searching.{found_by, settled_weight, IsHigher, IsSearch, GoesOn, IsCovered, IsJustified};

use crate::goal::{Found, Goal, Reason, Waiting, Weight};
use std::alloc::{AllocError, Global};
use std::collections::{BinaryHeap, HashMap};

/// A search for least weights.
#[derive(Drop)]
pub(crate) struct Search {
    pub found: HashMap<Goal, Found>,
    /// Has each goal that isn't settled, with its weight.
    pub queue: BinaryHeap<Waiting>,
}

impl Search {
    /// Nothing is found, and nothing waits.
    pub(crate) fn new(alloc: Global) -> Search
        ensures search { (form : Form) (weighs : ℕ → Bool) → IsSearch form weighs 0 result }
        ensures none { (goal : Goal) → found_by result goal ≡ None }
    {
        Search {
            found: HashMap::new(alloc),
            queue: BinaryHeap::new(alloc),
        }
    }

    /// What is found for a goal.
    #[inline]
    pub(crate) fn at(&self, goal: Goal) -> Option<Found>
        ensures { result ≡ found_by self.now goal }
    {
        self.found.get(&goal).copied()
    }

    /// The weight of a goal that is settled.
    #[inline]
    pub(crate) fn settled(&self, goal: Goal) -> Option<Weight>
        ensures { result ≡ settled_weight (found_by self.now goal) }
    {
        let found = self.at(goal)?;
        if found.is_settled {
            Some(found.weight)
        } else {
            None
        }
    }
}

/// Gives a goal a weight, unless it has one that is no higher.
pub(crate) fn relax(
    search: &mut Search,
    goal: Goal,
    weight: Weight,
    reason: Reason,
) -> Result<(), AllocError>
    ensures { (form : Form) (weighs : ℕ → Bool) (now : ℕ) → IsSearch form weighs now search.old → now ≤ key weight
        → IsJustified form weighs (found_by search.old) goal reason weight
        → IfOk result (λ done. GoesOn form weighs now search.old search.new × IsCovered (found_by search.new) goal weight) }
{
    if let Some(found) = search.at(goal) {
        if found.weight.key() <= weight.key() {
            return Ok(());
        }
    }
    put(search, goal, weight, reason)
}

/// Gives a goal a lower weight.
fn put(search: &mut Search, goal: Goal, weight: Weight, reason: Reason) -> Result<(), AllocError>
    ensures { (form : Form) (weighs : ℕ → Bool) (now : ℕ) → IsSearch form weighs now search.old → now ≤ key weight
        → IsHigher (found_by search.old goal) weight
        → IsJustified form weighs (found_by search.old) goal reason weight
        → IfOk result (λ done. GoesOn form weighs now search.old search.new × IsCovered (found_by search.new) goal weight) }
{
    search.queue.push(Waiting {
        nearness: u128::MAX - weight.key(),
        goal,
    })?;
    search.found.insert(
        goal,
        Found {
            weight,
            reason,
            is_settled: false,
        },
    )?;
    Ok(())
}
