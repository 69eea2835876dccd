//! What has no static fault fits its tables: routes, assertions, predicates, conditions and acts, each law the contract of a
//! function that does nothing.
//!
//! `specs/Standing.antt` says when visible names stand for the variables of a table, `specs/Naming.antt` when the names that
//! routes use are those of a type table, and `specs/Declaring.antt` when declarations fit.
#![tactic(auto)]

mod assertions;
mod code;
mod declarations;

pub use assertions::{
    assertions_of_procedures_can_be_expanded, assertions_of_procedures_fit,
    assertions_that_fit_can_be_expanded, assertions_without_fault_fit, expansions_fit,
    expansions_of_procedures_fit, paths_without_fault_fit, variables_stand_for_their_table,
    variant_tests_without_fault_fit,
};
pub use code::{
    assignments_without_fault_fit, conditions_without_fault_fit, frees_without_fault_fit,
};
pub use declarations::{
    declarations_without_fault_fit, names_of_declarations_are_those_of_their_table,
    routes_without_fault_fit,
};
