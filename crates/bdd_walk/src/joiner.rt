//! Joins that keep their results for the next one.

ghost use Rattle.std.specs.Prelude.{◌≡◌, ℕ, List, Option, Some, Err, All, IfOk, OnOk};
ghost use Rattle.labels.specs.Labels.{Label};
ghost use Rattle.bdd_nodes.specs.Shelf.{Contents, IsShelf, IsValid, state_of, limit_of};
ghost use Rattle.bdd_nodes.specs.Changes.{Keeps, SameTables};
ghost use Rattle.bdd_walk.specs.Answers.{Answers, KeepsAnswers, AnswersOnly, Completes};
ghost use Rattle.bdd_walk.specs.Asked.{asked_of, IsGiven};
ghost use Rattle.bdd_walk.specs.Under.{Exceeds, Adds, AddsParts, AddsUnder};
ghost use Rattle.bdd_walk.specs.Fits.{Fits};

use crate::roots::join_roots;
use crate::rule::LeafRule;
use crate::stop::Stop;
use crate::two_roots::RefPair;
use crate::walk::Kept;
use bdd_nodes::{NodeRef, Shelf};
use std::alloc::Global;

/// What joins have made so far, for joins to come: a part of a result that was made once is found, and not made again.
/// It is right for one way of dropping, and for a shelf and a rule that go on from where they were: not over a
/// collection, and not for another rule.
#[derive(Drop)]
pub struct Joiner {
    pub(crate) one: Kept<NodeRef>,
    pub(crate) two: Kept<RefPair>,
    pub(crate) many: Kept<Vec<NodeRef>>,
}

impl Joiner {
    /// Nothing is made so far. Takes no memory.
    pub fn new(alloc: Global) -> Joiner
        ensures { (dropped : Option ℕ) (shelf : Contents) (answers : Answers) → Fits result dropped shelf answers }
    {
        Joiner {
            one: Kept::new(alloc),
            two: Kept::new(alloc),
            many: Kept::new(alloc),
        }
    }

    /// `join` of the roots: for each label the rule's answer on the list of leaves. After a stop make a new one.
    pub fn join<L: LeafRule>(
        &mut self,
        alloc: Global,
        shelf: &mut Shelf,
        roots: &[NodeRef],
        dropped: Option<u32>,
        rule: &mut L,
    ) -> Result<NodeRef, Stop>
        requires valid { All (IsValid shelf.old) roots.now }
        requires may_ask { (label : Label) → L.may_ask rule.old (asked_of shelf.old roots.now dropped label) }
        requires fits { Fits self.old dropped shelf.old (L.answers rule.old) }

        // The result.
        ensures value { IfOk result (λ made. (label : Label) →
            L.answers rule.new (asked_of shelf.old roots.now dropped label) ≡ Some (state_of shelf.new made label)) }
        ensures valid { IfOk result (IsValid shelf.new) }
        ensures nodes { IfOk result (AddsUnder shelf.old shelf.new) }
        ensures limit { result ≡ Err Stop.Limit → (given : List ℕ → ℕ) → Completes (L.answers rule.new) given
            → Exceeds shelf.old (λ label. given (asked_of shelf.old roots.now dropped label)) }
        ensures fits { OnOk result (Fits self.new dropped shelf.new (L.answers rule.new)) }

        // What the call leaves, whatever it answers.
        ensures kept { Keeps shelf.old shelf.new }
        ensures parts { (given : List ℕ → ℕ) → Completes (L.answers rule.new) given
            → AddsParts shelf.old shelf.new (λ label. given (asked_of shelf.old roots.now dropped label)) }
        ensures adds { (given : List ℕ → ℕ) → Completes (L.answers rule.new) given
            → Adds shelf.old shelf.new (λ label. given (asked_of shelf.old roots.now dropped label)) }
        ensures same_limit { limit_of shelf.new ≡ limit_of shelf.old }
        ensures tables { SameTables shelf.old shelf.new }
        ensures shelf { IsShelf shelf.new }
        ensures answers { KeepsAnswers (L.answers rule.old) (L.answers rule.new) }
        ensures only { AnswersOnly (IsGiven L.like (asked_of shelf.old roots.now dropped)) (L.answers rule.old) (L.answers rule.new) }
        ensures may_ask_still { (asked : List ℕ) → L.may_ask rule.old asked → L.may_ask rule.new asked }
    {
        let made = join_roots(alloc, shelf, self, roots, dropped, rule)?;
        Ok(made)
    }
}
