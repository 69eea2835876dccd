//! Where reading and writing of fields can fail.

ghost use Rattle.std.specs.Prelude.{◌≡◌, ◌++◌, ◌∷◌, [], map, OnOk};
ghost use Rattle.site_list.specs.Sites.{site_at, cell_causes, field_causes, path_causes, operand_causes};

use crate::{Site, SiteList};
use std::alloc::AllocError;
use store_core::{FieldId, Owner, TypeTable};
use store_exec::Cause;
use store_logic::Operand;

/// A cause can come at the line.
pub(crate) fn push_site(sites: &mut SiteList, line: u32, cause: Cause) -> Result<(), AllocError>
    ensures { OnOk result (sites.new ≡ sites.old ++ site_at line cause ∷ []) }
{
    sites.push(Site { cause, line })
}

/// A cell is looked at.
pub(crate) fn push_cell(sites: &mut SiteList, line: u32) -> Result<(), AllocError>
    ensures { OnOk result (sites.new ≡ sites.old ++ map (site_at line) cell_causes) }
{
    push_site(sites, line, Cause::Null)?;
    push_site(sites, line, Cause::Dangling)?;
    Ok(())
}

/// A field of a cell is read or written.
pub(crate) fn push_field(
    types: &TypeTable,
    sites: &mut SiteList,
    line: u32,
    field: FieldId,
) -> Result<(), AllocError>
    ensures { OnOk result (sites.new ≡ sites.old ++ map (site_at line) (field_causes types.now field)) }
{
    push_cell(sites, line)?;
    if let Some(Owner::Variant(_)) = types.owner(field) {
        push_site(sites, line, Cause::Variant)?;
    }
    Ok(())
}

/// Fields are read one after the other.
pub(crate) fn push_path(
    types: &TypeTable,
    sites: &mut SiteList,
    line: u32,
    fields: &[FieldId],
) -> Result<(), AllocError>
    ensures { OnOk result (sites.new ≡ sites.old ++ map (site_at line) (path_causes types.now fields.now)) }
{
    for field in fields {
        push_field(types, sites, line, *field)?;
    }
    Ok(())
}

pub(crate) fn push_operand(
    types: &TypeTable,
    sites: &mut SiteList,
    line: u32,
    operand: &Operand,
) -> Result<(), AllocError>
    ensures { OnOk result (sites.new ≡ sites.old ++ map (site_at line) (operand_causes types.now operand.now)) }
{
    match operand {
        Operand::Null => Ok(()),
        Operand::Path(path) => push_path(types, sites, line, path.fields.as_slice()),
    }
}
