//! Whether a triple is valid.

ghost use Rattle.std.specs.Prelude.{◌≡◌, ◌<◌, ℕ, length, Ok, IfOk};
ghost use Rattle.bdd_nodes.specs.Shelf.{limit_of};
ghost use Rattle.gta_keep.specs.Holding.{HasNoTables};
ghost use Rattle.store_core.specs.Tables.{IsTypeTable};
ghost use Rattle.store_logic.specs.Fits.{KnowsVars};
ghost use Rattle.witness_store.specs.Alike.{AreFunctional};
ghost use Rattle.site_list.specs.Sites.{sites_of};
ghost use Rattle.triple_judge.specs.declared.judging.Judged.{Judged};
ghost use Rattle.triple_judge.specs.Spares as cells;
ghost use Rattle.triple_judge.specs.Standing.{CanBeJudged};
ghost use Rattle.triple_judge.specs.Judging.{HasTriplePeak, IsLeastFailing, IsJudged};
ghost use Rattle.triple_judge.specs.Lightest.{IsLightestFailure};

use crate::making::spares_of;
use crate::searching::{Found, Searched, decide_sites};
use bdd_nodes::Shelf;
use field_judge::weighed;
use plain_data::at;
use site_list::{Site, sites};
use std::alloc::{AllocError, Global};
use store_core::{Store, TypeTable, VarTable};
use store_exec::{Cause, Triple};
use tree_encode::Layout;
use witness_store::decode;
use ws2s_pass::PassList;

/// What is said of a triple.
#[derive(Drop)]
pub enum Judged {
    /// No store that meets it fails.
    Valid,
    /// This store meets it and fails with this cause at this line, and none of fewer cells meets it and fails.
    Invalid(Store, Cause, u32),
    /// The shelf has too little room: the triple's Peak exceeds its limit.
    Limit,
}

/// How many sites the triple has.
fn site_count(alloc: Global, l: &Layout<'_>, t: &Triple) -> Result<u32, AllocError>
    ensures { IfOk result (λ count. count ≡ length (sites_of l.now.types t.now)) }
{
    let places = sites(alloc, l, t)?;
    let Ok(count) = u32::try_from(places.len()) else {
        return Err(AllocError);
    };
    Ok(count)
}

/// The store that the lightest tree lays out, and the site at which the triple fails from it.
fn failure_of(
    alloc: Global,
    l: &Layout<'_>,
    t: &Triple,
    found: &Found,
) -> Result<(Store, Site), AllocError>
    requires table { IsTypeTable l.now.types }
    requires triple { CanBeJudged l.now.types l.now.vars t.now }
    requires lightest { IsLightestFailure l.now.types l.now.vars t.now found.now }
    ensures { AreFunctional l.now.types →
        IfOk result (λ failure. IsLeastFailing l.now.types l.now.vars t.now failure.0 failure.1.cause failure.1.line) }
{
    let store = decode(alloc, l, &found.tree)?;
    let places = sites(alloc, l, t)?;
    let Some(place) = at(places.as_slice(), found.site as usize) else {
        unreachable!()
    };
    Ok((store, *place))
}

/// What is said of the triple, by trees on a layout with a spare slot for each cell that its code makes.
fn judge_laid_out(
    alloc: Global,
    l: &Layout<'_>,
    t: &Triple,
    passes: &PassList,
    shelf: &mut Shelf,
) -> Result<Judged, AllocError>
    requires triple { CanBeJudged l.now.types l.now.vars t.now }
    requires spares { l.now.spares ≡ cells.spares_of t.now }
    requires tables { HasNoTables shelf.old }
    ensures value { AreFunctional l.now.types → IfOk result (IsJudged l.now.types l.now.vars t.now) }
    ensures limit { result ≡ Ok Judged.Limit → (p : ℕ) → HasTriplePeak l.now.types l.now.vars t.now p → limit_of shelf.old < p }
    ensures tables { HasNoTables shelf.new }
    ensures same_limit { limit_of shelf.new ≡ limit_of shelf.old }
{
    let tracks = weighed(alloc, l)?;
    let count = site_count(alloc, l, t)?;
    match decide_sites(alloc, l, t, count, passes, &tracks, shelf)? {
        Searched::Nothing => Ok(Judged::Valid),
        Searched::Lightest(found) => {
            let (store, place) = failure_of(alloc, l, t, &found)?;
            Ok(Judged::Invalid(store, place.cause, place.line))
        }
        // No store has room for so many cells.
        Searched::TooLarge => Err(AllocError),
        Searched::Limit => Ok(Judged::Limit),
    }
}

/// Judges a triple over a table of types and one of variables: [`Judged::Valid`] exactly where no store that meets the triple fails;
/// otherwise a store of the fewest cells that meets the triple and fails, with the cause and line; or [`Judged::Limit`], only where
/// the triple's Peak, the greatest of those of its sites' formulas, exceeds the shelf's limit, whatever the passes are. The store's
/// cells are numbered from 1 without a gap. What `Valid` and a store say stands where every pointer field of the types is functional,
/// as [`judge_field`](field_judge::judge_field) tells. The kinds of the variables name types of the table, each claim of the triple
/// is on all cells, or on the part, or its rest, that its cut hands over or that its start got back, and each tail names a cut. The
/// shelf has no table at the call, and none afterwards. (Møller and Schwartzbach, PLDI 2001.)
///
/// # Errors
///
/// Want of memory; also where the tracks, the spaces or the sites have no room in their integers, and where stores fail at a site, but
/// each tree of a least one has 2^32 - 1 nodes or more.
pub fn judge(
    alloc: Global,
    types: &TypeTable,
    vars: &VarTable,
    t: &Triple,
    passes: &PassList,
    shelf: &mut Shelf,
) -> Result<Judged, AllocError>
    requires tables { HasNoTables shelf.old }
    requires vars { KnowsVars types.now vars.now }
    requires triple { CanBeJudged types.now vars.now t.now }

    // The answer.
    ensures value { AreFunctional types.now → IfOk result (IsJudged types.now vars.now t.now) }
    ensures limit { result ≡ Ok Judged.Limit → (p : ℕ) → HasTriplePeak types.now vars.now t.now p → limit_of shelf.old < p }

    // What the call leaves, whatever it answers.
    ensures tables { HasNoTables shelf.new }
    ensures same_limit { limit_of shelf.new ≡ limit_of shelf.old }
{
    let spares = spares_of(alloc, t)?;
    let l = Layout::new(alloc, types, vars, &spares)?;
    judge_laid_out(alloc, &l, t, passes, shelf)
}
