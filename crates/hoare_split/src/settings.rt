//! Settings to null or false before a cut.

ghost use Rattle.std.specs.Prelude.{◌≡◌, ◌++◌, OnOk};
ghost use Rattle.hoare_split.specs.Picking.{test_of};
ghost use Rattle.hoare_split.specs.Settings.{setting, settings};

use crate::caller::class_at;
use crate::picking::{Pick, picked};
use std::alloc::{AllocError, Global};
use store_core::{VarId, VarTable};
use store_exec::{Item, ItemList};
use store_logic::{Act, Cond, FieldList, Operand, Path, Rhs};

/// `x = null;`, or `x = false;` for a truth value.
fn setting(alloc: Global, vars: &VarTable, line: u32, var: VarId) -> Item
    ensures { result ≡ setting vars.now line var }
{
    let place = Path {
        var,
        fields: FieldList::new(alloc),
    };
    let value = if class_at(vars, var).holds_cell() {
        Rhs::Cell(Operand::Null)
    } else {
        Rhs::Truth(Cond::False)
    };
    Item::Do(line, Act::Assign(place, value))
}

/// Puts a setting for each picked variable at the end of the items, in order of the table, with the line of the cut that follows.
pub fn set_picked(
    alloc: Global,
    vars: &VarTable,
    pick: Pick<'_>,
    line: u32,
    items: &mut ItemList,
) -> Result<(), AllocError>
    ensures { OnOk result (items.new ≡ items.old ++ settings vars.now (test_of pick.entry) line) }
{
    let settled = picked(alloc, vars, pick)?;
    for var in settled.as_slice() {
        items.push(setting(alloc, vars, line, *var))?;
    }
    Ok(())
}
