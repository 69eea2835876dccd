//! Where code can fail.

ghost use Rattle.std.specs.Prelude.{◌≡◌, ◌++◌, OnOk};
ghost use Rattle.site_list.specs.Sites.{item_sites, items_sites, code_sites};

use crate::SiteList;
use crate::acts::push_act;
use crate::conditions::push_cond;
use crate::cuts::push_cut_at;
use std::alloc::{AllocError, Global};
use store_core::TypeTable;
use store_exec::{Code, Cut, Item, Tail};

/// The items one after the other. Takes a level of the stack for each `if` within another one.
#[cycle(items)]
fn push_items(
    alloc: Global,
    types: &TypeTable,
    sites: &mut SiteList,
    items: &[Item],
) -> Result<(), AllocError>
    ensures { OnOk result (sites.new ≡ sites.old ++ items_sites types.now items.now) }
{
    for item in items {
        push_item(alloc, types, sites, item)?;
    }
    Ok(())
}

#[cycle(items)]
fn push_item(
    alloc: Global,
    types: &TypeTable,
    sites: &mut SiteList,
    item: &Item,
) -> Result<(), AllocError>
    ensures { OnOk result (sites.new ≡ sites.old ++ item_sites types.now item.now) }
{
    match item {
        Item::Do(line, act) => push_act(alloc, types, sites, *line, act),
        Item::If(line, cond, taken, other) => {
            push_cond(alloc, types, sites, *line, cond)?;
            push_items(alloc, types, sites, taken.as_slice())?;
            push_items(alloc, types, sites, other.as_slice())?;
            Ok(())
        }
    }
}

/// A code of a triple with these cuts. Takes a level of the stack for each branch within another one.
#[tactic(auto, using(crate::proofs::CauseLemmas::cut_made, crate::proofs::CauseLemmas::branch_made))]
pub(crate) fn push_code(
    alloc: Global,
    types: &TypeTable,
    sites: &mut SiteList,
    cuts: &[Cut],
    code: &Code,
) -> Result<(), AllocError>
    ensures { OnOk result (sites.new ≡ sites.old ++ code_sites types.now cuts.now code.now) }
{
    push_items(alloc, types, sites, code.items.as_slice())?;
    match &code.tail {
        Tail::Cut(place) => {
            push_cut_at(sites, cuts, *place)?;
            Ok(())
        }
        Tail::Branch(line, cond, taken, other) => {
            push_cond(alloc, types, sites, *line, cond)?;
            push_code(alloc, types, sites, cuts, taken.get())?;
            push_code(alloc, types, sites, cuts, other.get())?;
            Ok(())
        }
    }
}
