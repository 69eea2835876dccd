//! Where acts can fail.

ghost use Rattle.std.specs.Prelude.{◌≡◌, ◌++◌, map, OnOk};
ghost use Rattle.site_list.specs.Sites.{site_at, rhs_causes, assign_causes, act_causes};

use crate::SiteList;
use crate::conditions::push_cond;
use crate::reading::{push_field, push_operand, push_path, push_site};
use std::alloc::{AllocError, Global};
use store_core::{FieldId, TypeTable};
use store_exec::Cause;
use store_logic::{Act, Rhs};

/// What is assigned is evaluated.
fn push_rhs(
    alloc: Global,
    types: &TypeTable,
    sites: &mut SiteList,
    line: u32,
    value: &Rhs,
) -> Result<(), AllocError>
    ensures { OnOk result (sites.new ≡ sites.old ++ map (site_at line) (rhs_causes types.now value.now)) }
{
    match value {
        Rhs::Cell(operand) => push_operand(types, sites, line, operand),
        Rhs::New(_) => Ok(()),
        Rhs::Truth(cond) => push_cond(alloc, types, sites, line, cond),
    }
}

/// The fields of a place are read but for the last one, then what is assigned is evaluated, and then the place is written.
fn push_assign(
    alloc: Global,
    types: &TypeTable,
    sites: &mut SiteList,
    line: u32,
    place: &[FieldId],
    value: &Rhs,
) -> Result<(), AllocError>
    ensures { OnOk result (sites.new ≡ sites.old ++ map (site_at line) (assign_causes types.now place.now (rhs_causes types.now value.now))) }
{
    let Some((last, before)) = place.split_last() else {
        return push_rhs(alloc, types, sites, line, value);
    };
    push_path(types, sites, line, before)?;
    push_rhs(alloc, types, sites, line, value)?;
    push_field(types, sites, line, *last)?;
    Ok(())
}

pub(crate) fn push_act(
    alloc: Global,
    types: &TypeTable,
    sites: &mut SiteList,
    line: u32,
    act: &Act,
) -> Result<(), AllocError>
    ensures { OnOk result (sites.new ≡ sites.old ++ map (site_at line) (act_causes types.now act.now)) }
{
    match act {
        Act::Assign(place, value) => {
            push_assign(alloc, types, sites, line, place.fields.as_slice(), value)
        }
        Act::Free(_) => {
            push_site(sites, line, Cause::Null)?;
            push_site(sites, line, Cause::DoubleFree)
        }
        Act::Assert(_) => push_site(sites, line, Cause::Assert),
    }
}
