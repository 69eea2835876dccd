//! The places of a triple.

ghost use Rattle.std.specs.Prelude.{◌≡◌, IfOk};
ghost use Rattle.site_list.specs.Sites.{sites_of};

use crate::SiteList;
use crate::codes::push_code;
use std::alloc::{AllocError, Global};
use store_exec::Triple;
use tree_encode::Layout;

/// Every place where a cause can come, in the order in which the code of the triple reaches them.
///
/// # Errors
///
/// Want of memory.
pub fn sites(alloc: Global, l: &Layout<'_>, t: &Triple) -> Result<SiteList, AllocError>
    ensures { IfOk result (λ sites. sites ≡ sites_of l.now.types t.now) }
{
    let mut sites = SiteList::new(alloc);
    push_code(alloc, l.types(), &mut sites, t.cuts.as_slice(), &t.code)?;
    Ok(sites)
}
