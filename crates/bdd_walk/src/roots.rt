//! A join of a list of roots: of one and of two without a dropped track by keys of their own.

ghost use Rattle.std.specs.Prelude.{◌≡◌, ◌++◌, ℕ, List, Option, Some, None, Err, IfOk, OnOk, IsTrue};
ghost use Rattle.std.specs.List.{list_all};
ghost use Rattle.labels.specs.Labels.{Label};
ghost use Rattle.bdd_nodes.specs.Changes.{is_valid};
ghost use Rattle.bdd_nodes.specs.Shelf.{IsShelf};
ghost use Rattle.bdd_walk.specs.Answers.{AnswersOnly, Completes};
ghost use Rattle.bdd_walk.specs.Asked.{leaves_of, asked_of, IsGiven};
ghost use Rattle.bdd_walk.specs.Under.{Exceeds};
ghost use Rattle.bdd_walk.specs.Stands.{Stands};
ghost use Rattle.bdd_walk.specs.Progress.{Progress};
ghost use Rattle.bdd_walk.specs.Fits.{Fits, FitsMany};

use crate::joiner::Joiner;
use crate::many_roots::ManyRoots;
use crate::one_root::OneRoot;
use crate::rule::LeafRule;
use crate::stop::Stop;
use crate::two_roots::{RefPair, TwoRoots};
use crate::walk::{Kept, join_kept};
use bdd_nodes::{NodeRef, Shelf};
use std::alloc::{AllocError, Global};

/// The references twice.
fn twice(alloc: Global, roots: &[NodeRef]) -> Result<Vec<NodeRef>, AllocError>
    ensures { IfOk result (λ all. all.items ≡ roots.now ++ roots.now) }
{
    let mut all = Vec::from_slice(alloc, roots)?;
    all.extend_from_slice(roots)?;
    Ok(all)
}

/// Joins the roots with a dropped track.
fn join_dropped<L: LeafRule>(
    alloc: Global,
    shelf: &mut Shelf,
    kept: &mut Kept<Vec<NodeRef>>,
    roots: &[NodeRef],
    track: u32,
    rule: &mut L,
) -> Result<NodeRef, Stop>
    requires shelf { IsShelf shelf.old }
    requires valid { IsTrue (list_all (is_valid shelf.old) roots.now) }
    requires may_ask { (label : Label) → L.may_ask rule.old (asked_of shelf.old roots.now (Some track) label) }
    requires fits { FitsMany (Some track) shelf.old (L.answers rule.old) kept.old.memo }
    ensures progress { Progress (record { shelf = shelf.old; answers = L.answers rule.old; whole = asked_of shelf.old roots.now (Some track) })
        shelf.new (L.answers rule.new) }
    ensures stands { IfOk result (Stands shelf.new (L.answers rule.new) (asked_of shelf.old roots.now (Some track))) }
    ensures limit { result ≡ Err Stop.Limit → (given : List ℕ → ℕ) → Completes (L.answers rule.new) given
        → Exceeds shelf.old (λ label. given (asked_of shelf.old roots.now (Some track) label)) }
    ensures only { AnswersOnly (IsGiven L.like (asked_of shelf.old roots.now (Some track))) (L.answers rule.old) (L.answers rule.new) }
    ensures fits { OnOk result (FitsMany (Some track) shelf.new (L.answers rule.new) kept.new.memo) }
    ensures may_ask_still { (asked : List ℕ) → L.may_ask rule.old asked → L.may_ask rule.new asked }
{
    let all = twice(alloc, roots)?;
    let walk = ManyRoots {
        dropped: Some(track),
    };
    join_kept(alloc, &walk, shelf, kept, all, rule)
}

/// Joins a list of roots.
fn join_list<L: LeafRule>(
    alloc: Global,
    shelf: &mut Shelf,
    kept: &mut Kept<Vec<NodeRef>>,
    roots: &[NodeRef],
    rule: &mut L,
) -> Result<NodeRef, Stop>
    requires shelf { IsShelf shelf.old }
    requires valid { IsTrue (list_all (is_valid shelf.old) roots.now) }
    requires may_ask { (label : Label) → L.may_ask rule.old (leaves_of shelf.old roots.now label) }
    requires fits { FitsMany None shelf.old (L.answers rule.old) kept.old.memo }
    ensures progress { Progress (record { shelf = shelf.old; answers = L.answers rule.old; whole = leaves_of shelf.old roots.now })
        shelf.new (L.answers rule.new) }
    ensures stands { IfOk result (Stands shelf.new (L.answers rule.new) (leaves_of shelf.old roots.now)) }
    ensures limit { result ≡ Err Stop.Limit → (given : List ℕ → ℕ) → Completes (L.answers rule.new) given
        → Exceeds shelf.old (λ label. given (leaves_of shelf.old roots.now label)) }
    ensures only { AnswersOnly (IsGiven L.like (leaves_of shelf.old roots.now)) (L.answers rule.old) (L.answers rule.new) }
    ensures fits { OnOk result (FitsMany None shelf.new (L.answers rule.new) kept.new.memo) }
    ensures may_ask_still { (asked : List ℕ) → L.may_ask rule.old asked → L.may_ask rule.new asked }
{
    let all = Vec::from_slice(alloc, roots)?;
    join_kept(alloc, &ManyRoots { dropped: None }, shelf, kept, all, rule)
}

/// Joins roots without a dropped track.
fn join_plain<L: LeafRule>(
    alloc: Global,
    shelf: &mut Shelf,
    joiner: &mut Joiner,
    roots: &[NodeRef],
    rule: &mut L,
) -> Result<NodeRef, Stop>
    requires shelf { IsShelf shelf.old }
    requires valid { IsTrue (list_all (is_valid shelf.old) roots.now) }
    requires may_ask { (label : Label) → L.may_ask rule.old (leaves_of shelf.old roots.now label) }
    requires fits { Fits joiner.old None shelf.old (L.answers rule.old) }
    ensures progress { Progress (record { shelf = shelf.old; answers = L.answers rule.old; whole = leaves_of shelf.old roots.now })
        shelf.new (L.answers rule.new) }
    ensures stands { IfOk result (Stands shelf.new (L.answers rule.new) (leaves_of shelf.old roots.now)) }
    ensures limit { result ≡ Err Stop.Limit → (given : List ℕ → ℕ) → Completes (L.answers rule.new) given
        → Exceeds shelf.old (λ label. given (leaves_of shelf.old roots.now label)) }
    ensures only { AnswersOnly (IsGiven L.like (leaves_of shelf.old roots.now)) (L.answers rule.old) (L.answers rule.new) }
    ensures fits { OnOk result (Fits joiner.new None shelf.new (L.answers rule.new)) }
    ensures may_ask_still { (asked : List ℕ) → L.may_ask rule.old asked → L.may_ask rule.new asked }
{
    match roots {
        [root] => join_kept(
            alloc,
            &OneRoot { fixed: None },
            shelf,
            &mut joiner.one,
            *root,
            rule,
        ),
        [left, right] => {
            let pair = RefPair {
                left: *left,
                right: *right,
            };
            join_kept(alloc, &TwoRoots, shelf, &mut joiner.two, pair, rule)
        }
        _ => join_list(alloc, shelf, &mut joiner.many, roots, rule),
    }
}

/// Joins the roots.
pub(crate) fn join_roots<L: LeafRule>(
    alloc: Global,
    shelf: &mut Shelf,
    joiner: &mut Joiner,
    roots: &[NodeRef],
    dropped: Option<u32>,
    rule: &mut L,
) -> Result<NodeRef, Stop>
    requires valid { IsTrue (list_all (is_valid shelf.old) roots.now) }
    requires may_ask { (label : Label) → L.may_ask rule.old (asked_of shelf.old roots.now dropped label) }
    requires fits { Fits joiner.old dropped shelf.old (L.answers rule.old) }
    ensures progress { Progress (record { shelf = shelf.old; answers = L.answers rule.old; whole = asked_of shelf.old roots.now dropped })
        shelf.new (L.answers rule.new) }
    ensures stands { IfOk result (Stands shelf.new (L.answers rule.new) (asked_of shelf.old roots.now dropped)) }
    ensures limit { result ≡ Err Stop.Limit → (given : List ℕ → ℕ) → Completes (L.answers rule.new) given
        → Exceeds shelf.old (λ label. given (asked_of shelf.old roots.now dropped label)) }
    ensures only { AnswersOnly (IsGiven L.like (asked_of shelf.old roots.now dropped)) (L.answers rule.old) (L.answers rule.new) }
    ensures fits { OnOk result (Fits joiner.new dropped shelf.new (L.answers rule.new)) }
    ensures may_ask_still { (asked : List ℕ) → L.may_ask rule.old asked → L.may_ask rule.new asked }
{
    // Only for its clause `shelf`.
    let _ = shelf.count();
    match dropped {
        Some(track) => join_dropped(alloc, shelf, &mut joiner.many, roots, track, rule),
        None => join_plain(alloc, shelf, joiner, roots, rule),
    }
}
