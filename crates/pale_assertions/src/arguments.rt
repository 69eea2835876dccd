//! Uses of predicates.

ghost use Rattle.std.specs.Prelude.{◌≡◌, None, IfOk, IfErr, OnOk, length};
ghost use Rattle.pale_tables.specs.Faults.{IsStop};
ghost use Rattle.pale_vocabulary.specs.Arguments.{truth_argument_fault, cell_argument_fault, set_argument_fault, argument_fault, arguments_fault};
ghost use Rattle.pale_vocabulary.specs.Arguments.{truth_argument, cell_argument, set_argument, argument_of, arguments_of};
ghost use Rattle.pale_vocabulary.specs.Arguments.{pred_named, applied_fault, applied_to, use_fault, use_of};

use pale_syntax::{Name, Path};
use pale_tables::need;
use pale_terms::{Scope, Sort, read_path, read_set_path};
use pale_text::{Refusal, RefusalKind, TextStop};
use pale_vocabulary::Vocabulary;
use plain_data::Items;
use std::alloc::Global;
use store_core::TypeTable;
use store_logic::{Arg, ArgList, Assertion};

/// An argument for a truth value.
#[tactic(auto, unfolding(pale_vocabulary::specs::Arguments::truth_argument_fault, pale_vocabulary::specs::Arguments::truth_argument))]
fn read_truth_argument(
    alloc: Global,
    types: &TypeTable,
    scope: &Scope,
    path: &Path,
) -> Result<Arg, TextStop>
    ensures met { OnOk result (truth_argument_fault types.now scope.now path.now ≡ None) }
    ensures arg { IfOk result (λ arg. arg ≡ truth_argument types.now scope.now path.now) }
    ensures stop { IfErr result (IsStop (truth_argument_fault types.now scope.now path.now)) }
{
    let typed = read_path(alloc, types, scope, path)?;
    need(typed.sort.is_truth(), RefusalKind::Kind, path.base.place)?;
    Ok(Arg::Truth(typed.into_term()))
}

/// An argument for a cell.
#[tactic(auto, unfolding(pale_vocabulary::specs::Arguments::cell_argument_fault, pale_vocabulary::specs::Arguments::cell_argument))]
fn read_cell_argument(
    alloc: Global,
    types: &TypeTable,
    scope: &Scope,
    sort: Sort,
    path: &Path,
) -> Result<Arg, TextStop>
    ensures met { OnOk result (cell_argument_fault types.now scope.now sort path.now ≡ None) }
    ensures arg { IfOk result (λ arg. arg ≡ cell_argument types.now scope.now path.now) }
    ensures stop { IfErr result (IsStop (cell_argument_fault types.now scope.now sort path.now)) }
{
    let typed = read_path(alloc, types, scope, path)?;
    need(typed.sort.is_cell(), RefusalKind::Kind, path.base.place)?;
    need(
        typed.sort.is_of_type_of(sort),
        RefusalKind::Type,
        path.base.place,
    )?;
    Ok(Arg::Cell(typed.into_term()))
}

/// An argument for a set.
#[tactic(auto, unfolding(pale_vocabulary::specs::Arguments::set_argument_fault, pale_vocabulary::specs::Arguments::set_argument))]
fn read_set_argument(scope: &Scope, sort: Sort, path: &Path) -> Result<Arg, TextStop>
    ensures met { OnOk result (set_argument_fault scope.now sort path.now ≡ None) }
    ensures arg { IfOk result (λ arg. arg ≡ set_argument scope.now path.now) }
    ensures stop { IfErr result (IsStop (set_argument_fault scope.now sort path.now)) }
{
    let set = read_set_path(scope, path)?;
    need(
        set.sort.is_of_type_of(sort),
        RefusalKind::Type,
        path.base.place,
    )?;
    Ok(Arg::Set(set.base))
}

/// An argument for a parameter of this sort.
fn read_argument(
    alloc: Global,
    types: &TypeTable,
    scope: &Scope,
    sort: Sort,
    path: &Path,
) -> Result<Arg, TextStop>
    ensures met { OnOk result (argument_fault types.now scope.now sort path.now ≡ None) }
    ensures arg { IfOk result (λ arg. arg ≡ argument_of types.now scope.now sort path.now) }
    ensures stop { IfErr result (IsStop (argument_fault types.now scope.now sort path.now)) }
{
    match sort {
        Sort::Truth => read_truth_argument(alloc, types, scope, path),
        Sort::Cell(_) => read_cell_argument(alloc, types, scope, sort, path),
        Sort::Set(_) => read_set_argument(scope, sort, path),
    }
}

/// One argument for each parameter.
fn read_arguments(
    alloc: Global,
    types: &TypeTable,
    scope: &Scope,
    params: &[Sort],
    paths: &[Path],
) -> Result<ArgList, TextStop>
    requires { length paths.now ≡ length params.now }
    ensures met { OnOk result (arguments_fault types.now scope.now params.now paths.now ≡ None) }
    ensures args { IfOk result (λ args. args ≡ arguments_of types.now scope.now params.now paths.now) }
    ensures stop { IfErr result (IsStop (arguments_fault types.now scope.now params.now paths.now)) }
{
    let mut args = Items::new(alloc);
    for (place, path) in paths.iter().enumerate() {
        let arg = read_argument(alloc, types, scope, params[place], path)?;
        args.push(arg)?;
    }
    Ok(args)
}

/// The predicate of this place, of so many arguments as it has parameters.
#[tactic(auto, unfolding(pale_vocabulary::specs::Arguments::applied_fault, pale_vocabulary::specs::Arguments::applied_to))]
fn read_applied(
    alloc: Global,
    vocabulary: &Vocabulary,
    scope: &Scope,
    place: usize,
    name: &Name,
    paths: &[Path],
) -> Result<Assertion, TextStop>
    ensures met { OnOk result (applied_fault vocabulary.now scope.now place name.now paths.now ≡ None) }
    ensures assertion { IfOk result (λ made. made ≡ applied_to vocabulary.now scope.now place paths.now) }
    ensures stop { IfErr result (IsStop (applied_fault vocabulary.now scope.now place name.now paths.now)) }
{
    let params = vocabulary.preds.params(place);
    need(paths.len() == params.len(), RefusalKind::Arity, name.place)?;
    let args = read_arguments(alloc, &vocabulary.types, scope, params, paths)?;
    match u32::try_from(place) {
        Ok(number) => Ok(Assertion::Pred(number, args)),
        Err(_) => Err(TextStop::NoMemory),
    }
}

/// The place of the predicate of this name.
fn find_pred(vocabulary: &Vocabulary, name: &Name) -> Option<usize>
    ensures { result ≡ pred_named vocabulary.now name.now }
{
    vocabulary.preds.find(name.bytes.as_slice())
}

/// A use of a predicate that is declared.
///
/// # Errors
///
/// `Refused` is `unknown` at a name of no predicate, `arity` there where it has more or fewer parameters, and then the first
/// fault of the arguments.
#[tactic(auto, unfolding(pale_vocabulary::specs::Arguments::use_fault, pale_vocabulary::specs::Arguments::use_of))]
pub fn read_use(
    alloc: Global,
    vocabulary: &Vocabulary,
    scope: &Scope,
    name: &Name,
    paths: &[Path],
) -> Result<Assertion, TextStop>
    ensures met { OnOk result (use_fault vocabulary.now scope.now name.now paths.now ≡ None) }
    ensures assertion { IfOk result (λ made. made ≡ use_of vocabulary.now scope.now name.now paths.now) }
    ensures stop { IfErr result (IsStop (use_fault vocabulary.now scope.now name.now paths.now)) }
{
    match find_pred(vocabulary, name) {
        None => Err(TextStop::Refused(Refusal::at(name.place, RefusalKind::Unknown))),
        Some(place) => read_applied(alloc, vocabulary, scope, place, name, paths),
    }
}
