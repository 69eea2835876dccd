//! The ways to the cells of a type.

ghost use Rattle.std.specs.Prelude.{◌≡◌, ◌++◌, flat_map, IfOk, OnOk};
ghost use Rattle.store_core.specs.Tables.{IsTypeTable};
ghost use Rattle.tree_formula.specs.WellEncoded.{vars_in, fields_in, types_in};
ghost use Rattle.tree_reached.specs.ByField as formulas;
ghost use Rattle.tree_reached.specs.ByField.{ways_of_var, ways_of_field, ways_from};

use std::alloc::{AllocError, Global};
use store_core::{FieldId, FieldKind, TypeId, VarId, VarKind};
use tree_encode::Layout;

/// A way to a cell: so many steps by 1 and then one by 0, from the root, or from each cell that has the field.
#[derive(Clone, Copy, Drop)]
pub struct Way {
    pub(crate) number: u32,
    pub(crate) holder: Option<FieldId>,
}

/// The way to the slot of a variable, if it is a data variable of the type.
fn push_way_to_slot(
    ways: &mut Vec<Way>,
    l: &Layout<'_>,
    ty: TypeId,
    v: VarId,
) -> Result<(), AllocError>
    ensures { OnOk result (ways.new.items ≡ ways.old.items ++ ways_of_var l.now.vars ty v) }
{
    if let (Some(VarKind::Data(target)), Some(number)) = (l.vars().kind(v), l.slot(v))
        && target.0 == ty.0
    {
        ways.push(Way {
            number,
            holder: None,
        })?;
    }
    Ok(())
}

/// The ways to the slots of the data variables of a type.
fn push_ways_to_slots(ways: &mut Vec<Way>, l: &Layout<'_>, ty: TypeId) -> Result<(), AllocError>
    ensures { OnOk result (ways.new.items ≡ ways.old.items ++ flat_map (ways_of_var l.now.vars ty) (vars_in l.now.vars)) }
{
    for index in 0..l.vars().vars() {
        push_way_to_slot(ways, l, ty, VarId(index))?;
    }
    Ok(())
}

/// The way to the child that a field leads to, if it is a data field with the type as target.
fn push_way_to_child(
    ways: &mut Vec<Way>,
    l: &Layout<'_>,
    ty: TypeId,
    f: FieldId,
) -> Result<(), AllocError>
    ensures { OnOk result (ways.new.items ≡ ways.old.items ++ ways_of_field l.now.types ty f) }
{
    if let (Some(FieldKind::Data(target)), Some(number)) = (l.types().kind(f), l.child(f))
        && target.0 == ty.0
    {
        ways.push(Way {
            number,
            holder: Some(f),
        })?;
    }
    Ok(())
}

/// The ways to the children that the fields of one type lead to, with another as target.
fn push_ways_from(
    ways: &mut Vec<Way>,
    l: &Layout<'_>,
    ty: TypeId,
    parent: TypeId,
) -> Result<(), AllocError>
    ensures { OnOk result (ways.new.items ≡ ways.old.items ++ ways_from l.now.types ty parent) }
{
    for index in 0..l.types().fields(parent) {
        push_way_to_child(ways, l, ty, FieldId { ty: parent, index })?;
    }
    Ok(())
}

/// The same of all types.
fn push_ways_to_children(ways: &mut Vec<Way>, l: &Layout<'_>, ty: TypeId) -> Result<(), AllocError>
    ensures value { OnOk result (ways.new.items ≡ ways.old.items ++ flat_map (ways_from l.now.types ty) (types_in l.now.types)) }
    ensures inside { IsTypeTable l.now.types }
{
    for index in 0..l.types().types() {
        push_ways_from(ways, l, ty, TypeId(index))?;
    }
    Ok(())
}

/// All ways to the cells of a type: to slots, and then to children.
pub(crate) fn ways_to(alloc: Global, l: &Layout<'_>, ty: TypeId) -> Result<Vec<Way>, AllocError>
    ensures value { IfOk result (λ ways. ways.items ≡ formulas.ways l.now.types l.now.vars ty) }
    ensures inside { OnOk result (IsTypeTable l.now.types) }
{
    let mut ways = Vec::new(alloc);
    push_ways_to_slots(&mut ways, l, ty)?;
    push_ways_to_children(&mut ways, l, ty)?;
    Ok(ways)
}

/// The greatest number of steps by 1.
pub(crate) fn last_number(ways: &[Way]) -> u32
    ensures { result ≡ formulas.last_number ways.now }
{
    let mut last = 0u32;
    for way in ways {
        last = last.max(way.number);
    }
    last
}
