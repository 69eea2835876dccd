//! What the formulas of cells, walks, cuts and pointer fields say of the store that a view sees.
//!
//! No code runs here; each module has theorems as the contracts of functions that do nothing. `live`: where the cells of a seen
//! store stand, and what the formulas of live cells say of them (`specs/Live/Meaning.antt` says what it is for a formula to mean
//! something, `specs/Live/Standing.antt` where cells stand). `walks`: the formulas of walks (`specs/Walks/Walking.antt`). `cuts`:
//! the formulas of cuts. `fields`: what the formula of a pointer field says of the backbone whose tree it is read on, and when the
//! field is functional (`specs/Fields/Beginning.antt` has the view of a store before all events, `specs/Fields/Forking.antt` what
//! it is for a cell to have two destinations).
#![tactic(auto)]

pub mod cuts;
pub mod fields;
pub mod live;
pub mod walks;
