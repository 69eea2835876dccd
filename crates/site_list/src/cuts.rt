//! What can be wrong on arriving at a cut.

ghost use Rattle.std.specs.Prelude.{◌≡◌, ◌++◌, slice_get, [], OnOk};
ghost use Rattle.std.specs.Option.{option_map_or};
ghost use Rattle.site_list.specs.Sites.{cut_sites};

use crate::SiteList;
use crate::reading::push_site;
use plain_data::at;
use std::alloc::AllocError;
use store_exec::{Cause, Cut};

fn push_cut(sites: &mut SiteList, cut: &Cut) -> Result<(), AllocError>
    ensures { OnOk result (sites.new ≡ sites.old ++ cut_sites cut.now) }
{
    push_site(sites, cut.line, Cause::DanglingRef)?;
    push_site(sites, cut.line, Cause::Shared)?;
    push_site(sites, cut.line, Cause::Leak)?;
    push_site(sites, cut.line, Cause::Field)?;
    if cut.handed.is_some() {
        push_site(sites, cut.line, Cause::Escape)?;
    }
    push_site(sites, cut.line, Cause::Post)
}

/// The cut at the place is arrived at.
pub(crate) fn push_cut_at(sites: &mut SiteList, cuts: &[Cut], place: u32) -> Result<(), AllocError>
    ensures { OnOk result (sites.new ≡ sites.old ++ option_map_or cut_sites (slice_get cuts.now place) []) }
{
    match at(cuts, place as usize) {
        Some(cut) => push_cut(sites, cut),
        None => Ok(()),
    }
}
