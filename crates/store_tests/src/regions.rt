//! What is true on parts of stores and on the rest, where cells outside are named, or the store isn't well-formed: no program
//! can say it there.

mod rows;

use crate::programs::VARS;
use crate::questions::{Question, answers};
use plain_data::Items;
use rows::CASES;
use std::alloc::{AllocError, Global};
use std::test::Fail;
use store_core::{Store, TypeTable, VarId};
use store_logic::{Assertion, Region};
use store_sat::sat;

/// The part of some variables, or the rest behind it.
#[derive(Clone, Copy)]
pub enum On {
    Part(&'static [VarId]),
    Rest(&'static [VarId]),
}

fn region_of(alloc: Global, on: On) -> Result<Region, AllocError> {
    match on {
        On::Part(vars) => Ok(Region::Part(Items::from_slice(alloc, vars)?)),
        On::Rest(vars) => Ok(Region::Rest(Items::from_slice(alloc, vars)?)),
    }
}

/// Whether an assertion is true there.
pub(crate) fn is_true_on(
    alloc: Global,
    types: &TypeTable,
    store: &Store,
    assertion: &Assertion,
    on: On,
) -> Result<bool, AllocError> {
    let region = region_of(alloc, on)?;
    sat(alloc, types, store, &region, assertion)
}

#[test]
fn names_from_outside_count_as_null(rt: HostRuntime) -> Result<(), Fail> {
    for case in CASES {
        for (on, assertion, truth) in case.rows {
            let question = Question::On(*on, *truth);
            let is_so = answers(rt.alloc(), VARS, assertion, case.text, question)?;
            assert!(rt; is_so, "{assertion} of {}", case.text);
        }
    }
    Ok(())
}
