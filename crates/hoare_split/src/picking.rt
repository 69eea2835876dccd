//! Variables of a procedure, in order of its table.

ghost use Rattle.std.specs.Prelude.{◌≡◌, length, IfOk};
ghost use Rattle.hoare_split.specs.Picking.{is_handed, is_argument, test_of, those};

use crate::caller::{class_at, is_listed};
use pale_calls::{Actual, VarClass};
use pale_typed::{CallParts, TypedProc};
use std::alloc::{AllocError, Global};
use store_core::{VarId, VarTable};
use store_logic::VarList;

/// Which variables of a table are picked.
#[derive(Clone, Copy)]
pub enum Pick<'a> {
    /// What is null or false at the entry: results and locals.
    Fresh(&'a TypedProc),
    /// What is set to null at the exit: data and pointer variables that are no results.
    Left(&'a TypedProc),
    /// What is set to null or false before a call: its results that aren't among its arguments.
    Awaited(&'a CallParts),
    /// The pointer variables among a call's arguments.
    Lent(&'a CallParts),
    /// What is null after a call: its data and pointer arguments that are no results.
    Spent(&'a CallParts),
    /// The pointer variables among a call's results.
    Gained(&'a CallParts),
}

/// Whether the variable is what is handed over.
fn is_handed(var: VarId, arg: Actual) -> bool
    ensures { result ≡ is_handed var arg }
{
    match arg {
        Actual::Var(handed) => handed.0 == var.0,
        Actual::Null | Actual::Truth(_) => false,
    }
}

/// Whether the variable is among these arguments.
pub fn is_argument(args: &[Actual], var: VarId) -> bool
    ensures { result ≡ is_argument args.now var }
{
    args.iter().any(|arg| is_handed(var, *arg))
}

impl Pick<'_> {
    /// Whether the variable, which is of this class, is picked.
    fn takes(self, class: VarClass, var: VarId) -> bool
        ensures { result ≡ test_of self.entry class var }
    {
        match self {
            Pick::Fresh(proc) => {
                is_listed(proc.results.as_slice(), var) || is_listed(proc.locals.as_slice(), var)
            }
            Pick::Left(proc) => class.holds_cell() && !is_listed(proc.results.as_slice(), var),
            Pick::Awaited(call) => {
                is_listed(call.results.as_slice(), var) && !is_argument(call.args.as_slice(), var)
            }
            Pick::Lent(call) => {
                matches!(class, VarClass::Pointer) && is_argument(call.args.as_slice(), var)
            }
            Pick::Spent(call) => {
                class.holds_cell()
                    && is_argument(call.args.as_slice(), var)
                    && !is_listed(call.results.as_slice(), var)
            }
            Pick::Gained(call) => {
                matches!(class, VarClass::Pointer) && is_listed(call.results.as_slice(), var)
            }
        }
    }
}

/// The variables of the table that are picked, in its order.
#[tactic(auto, using(std::proofs::lemmas::List::FromFn::filter_of_map_range_with_len_more))]
pub fn picked(alloc: Global, vars: &VarTable, pick: Pick<'_>) -> Result<VarList, AllocError>
    ensures { IfOk result (λ found. found ≡ those (test_of pick.entry) vars.now) }
{
    let mut found = VarList::new(alloc);
    for index in 0..vars.vars() {
        let var = VarId(index);
        if pick.takes(class_at(vars, var), var) {
            found.push(var)?;
        }
    }
    Ok(found)
}

/// How many variables of the table are picked.
#[tactic(auto, using(std::proofs::lemmas::List::FromFn::filter_of_map_range_with_len_more))]
pub(crate) fn picked_count(vars: &VarTable, pick: Pick<'_>) -> u32
    ensures { result ≡ length (those (test_of pick.entry) vars.now) }
{
    let mut count = 0;
    for index in 0..vars.vars() {
        let var = VarId(index);
        if pick.takes(class_at(vars, var), var) {
            count += 1;
        }
    }
    count
}
