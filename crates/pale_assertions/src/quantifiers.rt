//! What quantifiers bind.

ghost use Rattle.std.specs.Prelude.{◌≡◌, ◌++◌, ◌∷◌, [], None, length, map, take, IfOk, IfErr, OnOk, OnErr};
ghost use Rattle.pale_tables.specs.Faults.{IsStop};
ghost use Rattle.pale_terms.specs.Scopes.{new_name_fault};
ghost use Rattle.pale_vocabulary.specs.Quantifiers.{sort_of, type_found, bound_entry, bound_type, names_fault, quantifier_fault, inside};

use pale_syntax::{Name, Quantifier};
use pale_tables::need;
use pale_terms::{Origin, Scope, Sort, Visible};
use pale_text::{RefusalKind, TextStop};
use store_core::{TypeId, TypeTable};

/// What a quantifier over cells or sets of this type binds.
fn sort_of(of_sets: bool, ty: TypeId) -> Sort
    ensures { result ≡ sort_of of_sets ty }
{
    if of_sets {
        Sort::Set(ty)
    } else {
        Sort::Cell(ty)
    }
}

/// The type of the cells.
#[tactic(auto, unfolding(pale_vocabulary::specs::Quantifiers::type_found))]
fn find_type(types: &TypeTable, quantifier: &Quantifier) -> Option<TypeId>
    ensures { result ≡ type_found types.now quantifier.now }
{
    types.find_type(quantifier.ty.bytes.as_slice())
}

/// Binds a name.
fn bind_name(scope: &mut Scope, sort: Sort, name: &Name) -> Result<(), TextStop>
    ensures met { OnOk result (new_name_fault scope.old name.now ≡ None) }
    ensures scope { OnOk result (scope.new ≡ scope.old ++ bound_entry sort name.now ∷ []) }
    ensures err { OnErr result (scope.new ≡ scope.old) }
    ensures stop { IfErr result (IsStop (new_name_fault scope.old name.now)) }
{
    scope.need_new(name)?;
    let visible = Visible {
        origin: Origin::Quantifier,
        sort,
        may: true,
    };
    scope.add(name.bytes.as_slice(), visible)?;
    Ok(())
}

/// Binds names, each visible to those behind it.
fn bind_names(scope: &mut Scope, sort: Sort, names: &[Name]) -> Result<(), TextStop>
    ensures met { OnOk result (names_fault sort scope.old names.now ≡ None) }
    ensures scope { OnOk result (scope.new ≡ scope.old ++ map (bound_entry sort) names.now) }
    ensures kept { take (length scope.old) scope.new ≡ scope.old }
    ensures stop { IfErr result (IsStop (names_fault sort scope.old names.now)) }
{
    for name in names {
        bind_name(scope, sort, name)?;
    }
    Ok(())
}

/// Binds the names of a quantifier, and gives the type of its cells.
///
/// # Errors
///
/// `Refused` is `duplicate` at a name that is visible already, and then `unknown` at a type that isn't there.
#[tactic(auto, unfolding(pale_vocabulary::specs::Quantifiers::quantifier_fault))]
pub fn bind(
    scope: &mut Scope,
    types: &TypeTable,
    quantifier: &Quantifier,
) -> Result<TypeId, TextStop>
    ensures met { OnOk result (quantifier_fault types.now scope.old quantifier.now ≡ None) }
    ensures ty { IfOk result (λ ty. ty ≡ bound_type types.now quantifier.now) }
    ensures scope { OnOk result (scope.new ≡ inside types.now scope.old quantifier.now) }
    ensures kept { take (length scope.old) scope.new ≡ scope.old }
    ensures stop { IfErr result (IsStop (quantifier_fault types.now scope.old quantifier.now)) }
{
    let found = find_type(types, quantifier);
    let ty = found.unwrap_or(TypeId(0));
    let sort = sort_of(quantifier.of_sets, ty);
    bind_names(scope, sort, quantifier.names.as_slice())?;
    need(found.is_some(), RefusalKind::Unknown, quantifier.ty.place)?;
    Ok(ty)
}
