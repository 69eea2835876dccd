//! Values, live cells, fields and steps, as formulas on the tree of a store after a list of heap events.
//!
//! Each function makes exactly the formula of `graph_view` that its clause names, or wants memory, also where there are not as
//! many tracks.
#![tactic(auto)]

mod fields;
mod live;
mod selecting;
mod slots;
mod steps;
mod syms;

pub use fields::{Saying, after, data_names, first_view, is_true};
pub use live::{has, is_dead, is_live, is_not_live, lives, lives_in};
pub use selecting::{Kinds, fields_named, fields_of_kind, push_of_kind};
pub use steps::{
    is_left, join_live, rounds, stay_at_truth, stay_in_type, stay_in_variant, stay_where_none,
};
pub use syms::{all_three, guard, is_in, is_null, is_same, some_pair, truth};
