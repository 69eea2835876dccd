//! What the places of a procedure see of its variables.

ghost use Rattle.std.specs.Prelude.{◌≡◌, ◌++◌, length, IfOk, IfSome, OnOk};
ghost use Rattle.store_core.specs.Tables.{AreDistinct, var_names};
ghost use Rattle.pale_terms.specs.Scopes.{visible_names};
ghost use Rattle.pale_sights.specs.Framing.{IsHeading, IsBody};
ghost use Rattle.pale_sights.specs.Sights.{numbers, seen, first_local, first_logic, heading_sight, body_sight, vars_of, frame_of};

use crate::variables::Variable;
use pale_terms::{Origin, Scope, Sort, Visible};
use plain_data::Items;
use std::alloc::{AllocError, Global};
use store_core::{VarId, VarTable};
use store_logic::VarList;

/// What a procedure declares before its body, and how many locals the body declares.
#[derive(Drop)]
pub struct Heading {
    pub params: Items<Variable>,
    pub results: Items<Variable>,
    pub logics: Items<Variable>,
    pub locals: usize,
}

impl Heading {
    /// The number of the first local. `None` where it is too large.
    pub fn first_local(&self) -> Option<usize>
        ensures { IfSome result (λ number. number ≡ first_local self.now) }
    {
        self.params.len().checked_add(self.results.len())
    }

    /// The number of the first logic variable. `None` where it is too large.
    pub fn first_logic(&self) -> Option<usize>
        ensures { IfSome result (λ number. number ≡ first_logic self.now) }
    {
        self.first_local()?.checked_add(self.locals)
    }
}

/// What the statements of a procedure see.
#[derive(Drop)]
pub struct Frame {
    /// The table: parameters, results, locals, logic variables.
    pub vars: VarTable,
    /// For conditions, assignments and `free`, which may name no logic variable.
    pub code: Scope,
    /// For assertions, which may name all variables.
    pub stated: Scope,
}

/// Makes variables visible, the first of which has this number.
fn show(
    scope: &mut Scope,
    may: bool,
    first: usize,
    variables: &[Variable],
) -> Result<(), AllocError>
    requires { AreDistinct (visible_names scope.old ++ var_names variables.now) }
    ensures { OnOk result (scope.new ≡ scope.old ++ seen may first variables.now) }
{
    let mut number = first;
    for variable in variables {
        let Ok(var) = u32::try_from(number) else {
            return Err(AllocError);
        };
        let visible = Visible {
            origin: Origin::Variable(VarId(var)),
            sort: Sort::of_var(variable.kind()),
            may,
        };
        scope.add(variable.name(), visible)?;
        number += 1;
    }
    Ok(())
}

/// What the heading sees, without the locals.
pub fn heading_sight(
    alloc: Global,
    heading: &Heading,
    params_may: bool,
    results_may: bool,
) -> Result<Scope, AllocError>
    requires { IsHeading heading.now }
    ensures { IfOk result (λ scope. scope ≡ heading_sight params_may results_may heading.now) }
{
    let Some(first_logic) = heading.first_logic() else {
        return Err(AllocError);
    };
    let mut scope = Scope::new(alloc);
    show(&mut scope, params_may, 0, heading.params.as_slice())?;
    let first_result = heading.params.len();
    show(
        &mut scope,
        results_may,
        first_result,
        heading.results.as_slice(),
    )?;
    show(&mut scope, true, first_logic, heading.logics.as_slice())?;
    Ok(scope)
}

/// What the body sees.
fn body_sight(
    alloc: Global,
    heading: &Heading,
    locals: &[Variable],
    logics_may: bool,
) -> Result<Scope, AllocError>
    requires { IsBody heading.now locals.now }
    ensures { IfOk result (λ scope. scope ≡ body_sight logics_may heading.now locals.now) }
{
    let (Some(first_local), Some(first_logic)) = (heading.first_local(), heading.first_logic())
    else {
        return Err(AllocError);
    };
    let mut scope = Scope::new(alloc);
    show(&mut scope, true, 0, heading.params.as_slice())?;
    let first_result = heading.params.len();
    show(&mut scope, true, first_result, heading.results.as_slice())?;
    show(&mut scope, true, first_local, locals)?;
    show(
        &mut scope,
        logics_may,
        first_logic,
        heading.logics.as_slice(),
    )?;
    Ok(scope)
}

/// Adds variables at the end of a table.
fn add_all(vars: &mut VarTable, variables: &[Variable]) -> Result<(), AllocError>
    requires { AreDistinct (var_names vars.old ++ var_names variables.now) }
    ensures { OnOk result (vars.new ≡ vars.old ++ variables.now) }
{
    for variable in variables {
        if vars.vars() == u32::MAX {
            return Err(AllocError);
        }
        let _var = vars.add(variable.name(), variable.kind())?;
    }
    Ok(())
}

/// The table of all variables.
fn table_of(alloc: Global, heading: &Heading, locals: &[Variable]) -> Result<VarTable, AllocError>
    requires { IsBody heading.now locals.now }
    ensures { IfOk result (λ vars. vars ≡ vars_of heading.now locals.now) }
{
    let mut vars = VarTable::new(alloc);
    add_all(&mut vars, heading.params.as_slice())?;
    add_all(&mut vars, heading.results.as_slice())?;
    add_all(&mut vars, locals)?;
    add_all(&mut vars, heading.logics.as_slice())?;
    Ok(vars)
}

/// What statements see, where the body has these locals.
pub fn frame_of(alloc: Global, heading: &Heading, locals: &[Variable]) -> Result<Frame, AllocError>
    requires { IsBody heading.now locals.now }
    ensures { IfOk result (λ frame. frame ≡ frame_of heading.now locals.now) }
{
    let vars = table_of(alloc, heading, locals)?;
    let code = body_sight(alloc, heading, locals, false)?;
    let stated = body_sight(alloc, heading, locals, true)?;
    Ok(Frame { vars, code, stated })
}

/// The numbers of variables, the first of which has this one.
pub fn numbers(alloc: Global, first: usize, variables: &[Variable]) -> Result<VarList, AllocError>
    ensures { IfOk result (λ found. found ≡ numbers first variables.now) }
{
    let mut found = Items::new(alloc);
    let mut number = first;
    for _variable in variables {
        let Ok(var) = u32::try_from(number) else {
            return Err(AllocError);
        };
        found.push(VarId(var))?;
        number += 1;
    }
    Ok(found)
}
