//! Verdicts on the formulas of sites.

ghost use Rattle.std.specs.Prelude.{◌≡◌, ◌<◌, ℕ, Ok, IfOk};
ghost use Rattle.bdd_nodes.specs.Shelf.{limit_of};
ghost use Rattle.store_core.specs.Tables.{IsTypeTable};
ghost use Rattle.ws2s_decide.specs.declared.verdict.Verdict.{Verdict};
ghost use Rattle.ws2s_decide.specs.Deciding.{guide_of, HasKept};
ghost use Rattle.tree_apart.specs.Apart.{HoldsOfTrees};
ghost use Rattle.site_list.specs.Triples.{site_formula};
ghost use Rattle.triple_judge.specs.Judging.{ArePeaksWithin};
ghost use Rattle.triple_judge.specs.Searching.{IsVerdictAt};

use bdd_nodes::Shelf;
use field_judge::verdict_on;
use pred_transform::triple_formula;
use std::alloc::{AllocError, Global};
use store_exec::Triple;
use tree_encode::Layout;
use tree_reached::by_fields;
use ws2s_core::{Formula, TrackList};
use ws2s_decide::{Decider, Verdict};
use ws2s_pass::PassList;

/// The verdict on the formula of the site with this number, counted from 0, by what holds of all trees too, and with types of many
/// fields told by field. A site that isn't there has no formula, so nothing satisfies it.
///
/// # Errors
///
/// Want of memory, as for [`triple_formula`] and [`verdict_on`].
pub(crate) fn verdict_at(
    alloc: Global,
    l: &Layout<'_>,
    t: &Triple,
    site: u32,
    of_trees: &Formula,
    passes: &PassList,
    tracks: &TrackList,
    decider: &mut Decider,
    shelf: &mut Shelf,
) -> Result<Verdict, AllocError>
    requires kept { HasKept shelf.old decider.old }
    requires table { IsTypeTable l.now.types }
    requires holds { HoldsOfTrees l.now.types l.now.vars of_trees.now }
    ensures value { IfOk result (IsVerdictAt (site_formula l.now.types l.now.vars t.now) tracks.now site) }
    ensures limit { result ≡ Ok Verdict.Limit → (p : ℕ) →
        ArePeaksWithin (guide_of decider.old) (site_formula l.now.types l.now.vars t.now) p → limit_of shelf.old < p }
    ensures kept { HasKept shelf.new decider.new }
    ensures guide { guide_of decider.new ≡ guide_of decider.old }
    ensures same_limit { limit_of shelf.new ≡ limit_of shelf.old }
{
    match triple_formula(alloc, l, t, site)? {
        Some(formula) => {
            let easier = by_fields(alloc, l, &formula)?;
            let verdict = verdict_on(
                alloc, &formula, easier, of_trees, passes, tracks, decider, shelf,
            )?;
            Ok(verdict)
        }
        None => Ok(Verdict::None),
    }
}
