//! The lightest tree that satisfies the formula of a site.

ghost use Rattle.std.specs.Prelude.{◌≡◌, ◌⊎◌, ◌<◌, ◌≤◌, ◌+◌, ℕ, List, Option, Ok, IfOk};
ghost use Rattle.bdd_nodes.specs.Shelf.{limit_of};
ghost use Rattle.gta_keep.specs.Holding.{HasNoTables};
ghost use Rattle.ws2s_core.specs.declared.track.Track.{Track};
ghost use Rattle.ws2s_core.specs.declared.formula.Formula.{Formula};
ghost use Rattle.store_core.specs.Tables.{IsTypeTable};
ghost use Rattle.ws2s_decide.specs.declared.verdict.Verdict.{Verdict};
ghost use Rattle.ws2s_decide.specs.Deciding.{guide_of, HasKept};
ghost use Rattle.tree_encode.specs.Spaces as spaces;
ghost use Rattle.tree_apart.specs.Apart.{HoldsOfTrees};
ghost use Rattle.site_list.specs.Triples.{site_formula};
ghost use Rattle.triple_judge.specs.declared.searching.Searched.{Searched};
ghost use Rattle.triple_judge.specs.Judging.{ArePeaksWithin};
ghost use Rattle.triple_judge.specs.Searching as known;
ghost use Rattle.triple_judge.specs.Searching.{IsLightestOf, IsVerdictAt, IsSearched};

use crate::verdicts::verdict_at;
use bdd_nodes::Shelf;
use field_judge::first_guide;
use std::alloc::{AllocError, Global};
use store_exec::Triple;
use tree_apart::cells_apart;
use tree_encode::Layout;
use ws2s_core::{Formula, LabelTree, TrackList};
use ws2s_decide::{Decider, Verdict};
use ws2s_pass::PassList;

/// A tree that satisfies the formula of a site, and its weight.
#[derive(Drop)]
pub(crate) struct Found {
    /// The number of the site, counted from 0.
    pub site: u32,
    pub tree: LabelTree,
    pub weight: u64,
}

/// What is known once some sites are decided.
#[derive(Drop)]
pub(crate) enum Searched {
    /// Nothing satisfies the formula of any of them.
    Nothing,
    /// The lightest tree, of the first site that has one as light.
    Lightest(Found),
    /// The lightest trees of one of them are too large.
    TooLarge,
    /// The shelf has too little room for one of them.
    Limit,
}

/// The lighter of two trees, and the one of the earlier site where they are as light.
fn lighter(earlier: Found, later: Found) -> Found
    ensures later { later.weight < earlier.weight → result ≡ later }
    ensures earlier { earlier.weight ≤ later.weight → result ≡ earlier }
{
    if later.weight < earlier.weight {
        later
    } else {
        earlier
    }
}

/// What is known with a lightest tree of the next site.
fn with_tree(searched: Searched, found: Found) -> Searched
    ensures value { (formulas : ℕ → Option Formula) (tracks : List Track) → IsSearched formulas tracks found.site searched →
        IsLightestOf formulas tracks found → IsSearched formulas tracks (found.site + 1) result }
    ensures limit { result ≡ Searched.Limit → searched ≡ Searched.Limit }
{
    match searched {
        Searched::Nothing => Searched::Lightest(found),
        Searched::Lightest(best) => Searched::Lightest(lighter(best, found)),
        Searched::TooLarge => Searched::TooLarge,
        Searched::Limit => Searched::Limit,
    }
}

/// What is known with the verdict on the formula of the next site.
fn with_verdict(searched: Searched, site: u32, verdict: Verdict) -> Searched
    ensures value { (formulas : ℕ → Option Formula) (tracks : List Track) → IsSearched formulas tracks site searched →
        IsVerdictAt formulas tracks site verdict → IsSearched formulas tracks (site + 1) result }
    ensures limit { result ≡ Searched.Limit → (searched ≡ Searched.Limit) ⊎ (verdict ≡ Verdict.Limit) }
{
    match verdict {
        Verdict::None => searched,
        Verdict::Witness(tree, weight) => with_tree(searched, Found { site, tree, weight }),
        Verdict::TooLarge => Searched::TooLarge,
        Verdict::Limit => Searched::Limit,
    }
}

/// No later site is looked at: no tree is lighter than one without weight, and without room for one nothing is said.
fn is_settled(searched: &Searched) -> bool
    ensures { result ≡ known.is_settled searched.now }
{
    match searched {
        Searched::Nothing => false,
        Searched::Lightest(found) => found.weight == 0,
        Searched::TooLarge | Searched::Limit => true,
    }
}

/// Decides the sites with numbers below `count` in order, by one decider, until no later one counts. The formula
/// `of_trees` holds of all trees of stores.
fn decide_in_order(
    alloc: Global,
    l: &Layout<'_>,
    t: &Triple,
    count: u32,
    of_trees: &Formula,
    passes: &PassList,
    tracks: &TrackList,
    decider: &mut Decider,
    shelf: &mut Shelf,
) -> Result<Searched, AllocError>
    requires kept { HasKept shelf.old decider.old }
    requires table { IsTypeTable l.now.types }
    requires holds { HoldsOfTrees l.now.types l.now.vars of_trees.now }
    ensures value { IfOk result (IsSearched (site_formula l.now.types l.now.vars t.now) tracks.now count) }
    ensures limit { result ≡ Ok Searched.Limit → (p : ℕ) →
        ArePeaksWithin (guide_of decider.old) (site_formula l.now.types l.now.vars t.now) p → limit_of shelf.old < p }
    ensures kept { HasKept shelf.new decider.new }
    ensures same_limit { limit_of shelf.new ≡ limit_of shelf.old }
{
    let mut searched = Searched::Nothing;
    for site in 0..count {
        if is_settled(&searched) {
            return Ok(searched);
        }
        let verdict = verdict_at(alloc, l, t, site, of_trees, passes, tracks, decider, shelf)?;
        searched = with_verdict(searched, site, verdict);
    }
    Ok(searched)
}

/// The lightest tree that satisfies the formula of a site with a number below `count`, and the first such site. What the formulas
/// of two sites share is built once where it is still kept.
///
/// # Errors
///
/// Want of memory, as for [`verdict_at`].
pub(crate) fn decide_sites(
    alloc: Global,
    l: &Layout<'_>,
    t: &Triple,
    count: u32,
    passes: &PassList,
    tracks: &TrackList,
    shelf: &mut Shelf,
) -> Result<Searched, AllocError>
    requires tables { HasNoTables shelf.old }
    requires table { IsTypeTable l.now.types }
    ensures value { IfOk result (IsSearched (site_formula l.now.types l.now.vars t.now) tracks.now count) }
    ensures limit { result ≡ Ok Searched.Limit → (p : ℕ) →
        ArePeaksWithin (spaces.guide_of l.now.types l.now.vars l.now.spares) (site_formula l.now.types l.now.vars t.now) p → limit_of shelf.old < p }
    ensures tables { HasNoTables shelf.new }
    ensures same_limit { limit_of shelf.new ≡ limit_of shelf.old }
{
    let guide = l.guide(alloc)?;
    let of_trees = cells_apart(alloc, l)?;
    let first = first_guide(alloc, l)?;
    let mut decider = Decider::with_first(alloc, guide, first)?;
    let searched = decide_in_order(
        alloc,
        l,
        t,
        count,
        &of_trees,
        passes,
        tracks,
        &mut decider,
        shelf,
    );
    decider.close(shelf);
    searched
}
