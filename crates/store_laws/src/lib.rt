//! Laws of stores: what each change of a store changes and what it leaves, and which changes keep a store fitting its tables
//! and fresh. Each law is the contract of a function that does nothing.
//!
//! `specs/Changed.antt` says for each change what it changes and what it leaves, as facts to take apart.
#![tactic(auto)]

mod changes;
mod fitting;
mod freshness;

pub use changes::{putting_a_cell, removing_a_cell, setting_a_field, setting_a_variable};
pub use fitting::{
    empty_stores_fit, putting_a_cell_keeps_fitting, removing_a_cell_keeps_fitting,
    setting_a_field_keeps_fitting, setting_a_variable_keeps_fitting,
};
pub use freshness::{
    empty_stores_are_fresh, putting_a_cell_keeps_fresh, removing_a_cell_keeps_fresh,
    setting_a_field_keeps_fresh, setting_a_variable_keeps_fresh,
    stores_without_dead_names_are_fresh,
};
