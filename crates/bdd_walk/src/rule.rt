//! Rules: what a join gives for a list of states.

ghost use Rattle.std.specs.Prelude.{◌≡◌, ◌<◌, ◌^◌, ℕ, List, Option, Some, IfOk};
ghost use Rattle.bdd_walk.specs.Answers.{Answers, KeepsAnswers, AnswersOnly};

use plain_data::Items;
use std::alloc::AllocError;

/// Numbers of states in order, each below 2 ^ 31.
pub type StateList = Items<u32>;

/// Gives a state for a list of states, and stays with it: a list that was answered once has that answer for good.
pub trait LeafRule {
    /// The answers that were given so far.
    ghost answers: { Self → Answers };

    /// Which lists the rule may be asked, by what stands in them and by how long they are.
    ghost may_ask: { Self → List ℕ → Type 0 };

    /// Which lists have one answer: where one is answered, so may each that is like it be. By itself a list is like none but
    /// itself; a rule that answers by sets says here which lists are of one set.
    ghost like: { List ℕ → List ℕ → Type 0 } = { λ one other. other ≡ one };

    /// The state for a list of states. Want of memory leaves the answers that were given; the list may have one, too.
    fn leaf(&mut self, states: &StateList) -> Result<u32, AllocError>
        requires { may_ask self.old states.now }
        ensures answered { IfOk result (λ answer. answers self.new states.now ≡ Some answer) }
        ensures small { IfOk result (λ answer. answer < 2 ^ 31) }
        ensures kept { KeepsAnswers (answers self.old) (answers self.new) }
        ensures only { AnswersOnly (like states.now) (answers self.old) (answers self.new) }
        ensures may_ask_still { (asked : List ℕ) → may_ask self.old asked → may_ask self.new asked };
}
