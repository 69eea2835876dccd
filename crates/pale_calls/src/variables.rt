//! Variables of the caller.

ghost use Rattle.std.specs.Prelude.{◌≡◌, None, IfOk, IfErr, OnOk};
ghost use Rattle.pale_tables.specs.Faults.{IsStop};
ghost use Rattle.pale_tables.specs.Names.{is_new};
ghost use Rattle.pale_calls.specs.Calls.{kind_of, variable_of, variable_fault, is_of_type, beside_fault};

use crate::class::{VarClass, type_in};
use crate::signature::Formal;
use pale_syntax::Name;
use pale_tables::{Names, need};
use pale_text::{Refusal, RefusalKind, TextStop};
use store_core::{VarId, VarKind, VarTable};

/// A variable of the caller.
#[derive(Clone, Copy)]
pub(crate) struct Variable {
    pub(crate) id: VarId,
    pub(crate) kind: VarKind,
}

/// The variable of this name.
#[tactic(auto, unfolding(crate::specs::Calls::variable_fault, crate::specs::Calls::kind_of, crate::specs::Calls::variable_of))]
pub(crate) fn read_variable(vars: &VarTable, name: &Name) -> Result<Variable, TextStop>
    ensures met { OnOk result (variable_fault vars.now name.now ≡ None) }
    ensures id { IfOk result (λ found. found.id ≡ variable_of vars.now name.now) }
    ensures kind { IfOk result (λ found. found.kind ≡ kind_of vars.now name.now) }
    ensures stop { IfErr result (IsStop (variable_fault vars.now name.now)) }
{
    let Some(id) = vars.find(name.bytes.as_slice()) else {
        return Err(TextStop::Refused(Refusal::at(name.place, RefusalKind::Unknown)));
    };
    let Some(kind) = vars.kind(id) else {
        return Err(TextStop::Refused(Refusal::at(name.place, RefusalKind::Unknown)));
    };
    Ok(Variable { id, kind: *kind })
}

/// Whether a name isn't among those before it.
pub(crate) fn is_new(before: &Names, name: &Name) -> bool
    ensures { result ≡ is_new before.now name.now.bytes }
{
    before.find(name.bytes.as_slice()).is_none()
}

/// Whether a variable of this kind has the type that is declared.
fn is_of_type(formal: Formal, kind: VarKind) -> bool
    ensures { result ≡ is_of_type formal kind }
{
    match (type_in(kind), formal.ty) {
        (None, _) => true,
        (Some(_), None) => false,
        (Some(ty), Some(other)) => ty.0 == other.0,
    }
}

/// A variable beside what is declared.
#[tactic(auto, unfolding(crate::specs::Calls::beside_fault))]
pub(crate) fn read_beside(vars: &VarTable, formal: Formal, name: &Name) -> Result<VarId, TextStop>
    ensures met { OnOk result (beside_fault vars.now formal name.now ≡ None) }
    ensures id { IfOk result (λ id. id ≡ variable_of vars.now name.now) }
    ensures stop { IfErr result (IsStop (beside_fault vars.now formal name.now)) }
{
    let found = read_variable(vars, name)?;
    let is_of_class = VarClass::of(found.kind).is_same(formal.class);
    need(is_of_class, RefusalKind::Kind, name.place)?;
    need(
        is_of_type(formal, found.kind),
        RefusalKind::Type,
        name.place,
    )?;
    Ok(found.id)
}
