//! Where conditions can fail, from the left.

ghost use Rattle.std.specs.Prelude.{◌≡◌, ◌++◌, ◌+◌, ◌<◌, ◌∷◌, map, flat_map, sum_by, OnOk};
ghost use Rattle.store_logic.specs.PostfixConds.{form_count};
ghost use Rattle.site_list.specs.Sites.{site_at, cond_causes};
ghost use Rattle.site_list.specs.Left.{causes_left, forms_left};

use crate::SiteList;
use crate::reading::{push_cell, push_operand, push_path};
use plain_data::Stack;
use std::alloc::{AllocError, Global};
use store_core::TypeTable;
use store_logic::Cond;

/// A condition is read, however deep it is.
pub(crate) fn push_cond(
    alloc: Global,
    types: &TypeTable,
    sites: &mut SiteList,
    line: u32,
    cond: &Cond,
) -> Result<(), AllocError>
    ensures { OnOk result (sites.new ≡ sites.old ++ map (site_at line) (cond_causes types.now cond.now)) }
{
    let mut left = Stack::new(alloc);
    left.push(cond)?;
    while let Some(next) = left.pop() {
        push_first(types, sites, line, next, &mut left)?;
    }
    Ok(())
}

/// The condition that is read next: one without parts is read, and the parts of another one are left to be read.
fn push_first<'a>(
    types: &TypeTable,
    sites: &mut SiteList,
    line: u32,
    cond: &'a Cond,
    left: &mut Stack<&'a Cond>,
) -> Result<(), AllocError>
    ensures sites { OnOk result (sites.new ++ map (site_at line) (causes_left types.now left.new)
        ≡ sites.old ++ map (site_at line) (cond_causes types.now cond.now ++ causes_left types.now left.old)) }
    ensures less { OnOk result (forms_left left.new < form_count cond.now + forms_left left.old) }
{
    match cond {
        Cond::True | Cond::False => Ok(()),
        Cond::Bool(path) => push_path(types, sites, line, path.fields.as_slice()),
        Cond::Is(path, _) => {
            push_path(types, sites, line, path.fields.as_slice())?;
            push_cell(sites, line)
        }
        Cond::Same(one, other) => {
            push_operand(types, sites, line, one)?;
            push_operand(types, sites, line, other)
        }
        Cond::Not(part) => left.push(part.get()),
        Cond::And(first, second) | Cond::Or(first, second) => {
            left.push(second.get())?;
            left.push(first.get())
        }
    }
}
