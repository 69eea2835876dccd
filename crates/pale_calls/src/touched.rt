//! What a call touches.

ghost use Rattle.std.specs.Prelude.{◌≡◌, map, flat_map};
ghost use Rattle.pale_calls.specs.Calls.{kind_of, cell_name, touched, allowed_each};

use crate::class::VarClass;
use pale_syntax::{Argument, Call, Name};
use pale_terms::Scope;
use store_core::{VarKind, VarTable};

/// What a variable holds; one that isn't there counts as a truth value.
#[tactic(auto, unfolding(crate::specs::Calls::kind_of))]
fn kind_of(vars: &VarTable, name: &Name) -> VarKind
    ensures { result ≡ kind_of vars.now name.now }
{
    let Some(id) = vars.find(name.bytes.as_slice()) else {
        return VarKind::Bool;
    };
    match vars.kind(id) {
        Some(kind) => *kind,
        None => VarKind::Bool,
    }
}

fn allow_results(scope: &mut Scope, names: &[Name], may: bool)
    ensures { scope.new ≡ allowed_each may scope.old (map (λ x. x.bytes) names.now) }
{
    for name in names {
        scope.allow(name.bytes.as_slice(), may);
    }
}

fn allow_cell(scope: &mut Scope, vars: &VarTable, argument: &Argument, may: bool)
    ensures { scope.new ≡ allowed_each may scope.old (cell_name vars.now argument.now) }
{
    match argument {
        Argument::Name(name) => {
            if VarClass::of(kind_of(vars, name)).holds_cell() {
                scope.allow(name.bytes.as_slice(), may);
            }
        }
        Argument::Null(_) | Argument::Truth(_, _) => {}
    }
}

fn allow_cells(scope: &mut Scope, vars: &VarTable, arguments: &[Argument], may: bool)
    ensures { scope.new ≡ allowed_each may scope.old (flat_map (cell_name vars.now) arguments.now) }
{
    for argument in arguments {
        allow_cell(scope, vars, argument, may);
    }
}

/// Says whether the place may name what a call touches: its results, and its data and pointer arguments. Takes no memory.
pub fn allow_touched(scope: &mut Scope, vars: &VarTable, call: &Call, may: bool)
    ensures { scope.new ≡ allowed_each may scope.old (touched vars.now call.now) }
{
    allow_results(scope, call.results.as_slice(), may);
    allow_cells(scope, vars, call.arguments.as_slice(), may);
}
