//! The calls.

ghost use Rattle.std.specs.Prelude.{◌≡◌, ◌<◌, ◌^◌, ℕ, Bool, List, Option, Some, Err, length, slice_index, All, IfOk, OnErr};
ghost use Rattle.labels.specs.Labels.{Label, with_track};
ghost use Rattle.bdd_nodes.specs.Shelf.{IsShelf, IsValid, state_of, limit_of};
ghost use Rattle.bdd_nodes.specs.Changes.{Keeps, SameTables};
ghost use Rattle.bdd_walk.specs.Answers.{Answers, KeepsAnswers, AnswersOnly, Completes};
ghost use Rattle.bdd_walk.specs.Asked.{asked_of, IsGiven};
ghost use Rattle.bdd_walk.specs.Under.{Exceeds, Adds, AddsParts, AddsUnder};

use crate::joiner::Joiner;
use crate::one_root::{FixedTrack, OneRoot};
use crate::rule::LeafRule;
use crate::rules::{Renaming, SameState};
use crate::stop::Stop;
use crate::walk::join_from;
use bdd_nodes::{NodeRef, RefList, Shelf};
use plain_data::Items;
use std::alloc::Global;

/// Numbers of states: at index q the new number of state q.
pub type StateMap = Items<u32>;

/// For each label the rule's answer on the list of leaves.
///
/// With no dropped track the list has the leaf of each root, in order; no roots give the rule's answer on the empty
/// list. With a dropped track it has the leaves of all roots with that track unset, and then those with it set.
/// `Limit` comes only where the result has more functions without a node than the shelf has room for, whatever the
/// rule would have answered; then and at want of memory the rule has the answers that it gave.
pub fn join<L: LeafRule>(
    alloc: Global,
    shelf: &mut Shelf,
    roots: &RefList,
    dropped: Option<u32>,
    rule: &mut L,
) -> Result<NodeRef, Stop>
    requires valid { All (IsValid shelf.old) roots.now }
    requires may_ask { (label : Label) → L.may_ask rule.old (asked_of shelf.old roots.now dropped label) }

    // The result.
    ensures value { IfOk result (λ made. (label : Label) →
        L.answers rule.new (asked_of shelf.old roots.now dropped label) ≡ Some (state_of shelf.new made label)) }
    ensures valid { IfOk result (IsValid shelf.new) }
    ensures nodes { IfOk result (AddsUnder shelf.old shelf.new) }
    ensures limit { result ≡ Err Stop.Limit → (given : List ℕ → ℕ) → Completes (L.answers rule.new) given
        → Exceeds shelf.old (λ label. given (asked_of shelf.old roots.now dropped label)) }

    // What the call leaves, whatever it answers.
    ensures kept { Keeps shelf.old shelf.new }
    ensures parts { (given : List ℕ → ℕ) → Completes (L.answers rule.new) given
        → AddsParts shelf.old shelf.new (λ label. given (asked_of shelf.old roots.now dropped label)) }
    ensures adds { (given : List ℕ → ℕ) → Completes (L.answers rule.new) given
        → Adds shelf.old shelf.new (λ label. given (asked_of shelf.old roots.now dropped label)) }
    ensures same_limit { limit_of shelf.new ≡ limit_of shelf.old }
    ensures tables { SameTables shelf.old shelf.new }
    ensures shelf { IsShelf shelf.new }
    ensures answers { KeepsAnswers (L.answers rule.old) (L.answers rule.new) }
    ensures only { AnswersOnly (IsGiven L.like (asked_of shelf.old roots.now dropped)) (L.answers rule.old) (L.answers rule.new) }
    ensures may_ask_still { (asked : List ℕ) → L.may_ask rule.old asked → L.may_ask rule.new asked }
{
    let mut joiner = Joiner::new(alloc);
    let made = joiner.join(alloc, shelf, roots.as_slice(), dropped, rule)?;
    Ok(made)
}

/// The function with each leaf's state replaced by its new number.
pub fn rename(
    alloc: Global,
    shelf: &mut Shelf,
    root: NodeRef,
    states: &StateMap,
) -> Result<NodeRef, Stop>
    requires valid { IsValid shelf.old root }
    requires numbered { (label : Label) → state_of shelf.old root label < length states.now }
    requires numbers { All (λ state. state < 2 ^ 31) states.now }

    // The result.
    ensures value { IfOk result (λ made. (label : Label) →
        state_of shelf.new made label ≡ slice_index states.now (state_of shelf.old root label)) }
    ensures valid { IfOk result (IsValid shelf.new) }
    ensures nodes { IfOk result (AddsUnder shelf.old shelf.new) }
    ensures limit { result ≡ Err Stop.Limit
        → Exceeds shelf.old (λ label. slice_index states.now (state_of shelf.old root label)) }

    // What the call leaves, whatever it answers.
    ensures kept { Keeps shelf.old shelf.new }
    ensures parts { AddsParts shelf.old shelf.new (λ label. slice_index states.now (state_of shelf.old root label)) }
    ensures adds { Adds shelf.old shelf.new (λ label. slice_index states.now (state_of shelf.old root label)) }
    ensures same_limit { limit_of shelf.new ≡ limit_of shelf.old }
    ensures tables { SameTables shelf.old shelf.new }
    ensures shelf { IsShelf shelf.new }
{
    let walk = OneRoot { fixed: None };
    let made = join_from(alloc, &walk, shelf, root, &mut Renaming { numbers: states })?;
    Ok(made)
}

/// The function with the track fixed: what it gives for a label is what it gave with the track set, or unset.
pub fn restrict(
    alloc: Global,
    shelf: &mut Shelf,
    root: NodeRef,
    track: u32,
    bit: bool,
) -> Result<NodeRef, Stop>
    requires valid { IsValid shelf.old root }

    // The result.
    ensures value { IfOk result (λ made. (label : Label) →
        state_of shelf.new made label ≡ state_of shelf.old root (with_track label track bit)) }
    ensures valid { IfOk result (IsValid shelf.new) }
    ensures nodes { IfOk result (AddsUnder shelf.old shelf.new) }
    ensures limit { result ≡ Err Stop.Limit
        → Exceeds shelf.old (λ label. state_of shelf.old root (with_track label track bit)) }

    // What the call leaves, whatever it answers.
    ensures kept { Keeps shelf.old shelf.new }
    ensures parts { AddsParts shelf.old shelf.new (λ label. state_of shelf.old root (with_track label track bit)) }
    ensures adds { Adds shelf.old shelf.new (λ label. state_of shelf.old root (with_track label track bit)) }
    ensures same_limit { limit_of shelf.new ≡ limit_of shelf.old }
    ensures tables { SameTables shelf.old shelf.new }
    ensures shelf { IsShelf shelf.new }
{
    // Only for its clause `shelf`.
    let _ = shelf.count();
    let walk = OneRoot {
        fixed: Some(FixedTrack { track, bit }),
    };
    let made = join_from(alloc, &walk, shelf, root, &mut SameState)?;
    Ok(made)
}
