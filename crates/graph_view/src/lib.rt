//! What stands for values and heap events, and the formulas of routes, fields and cuts on the tree of a store after a list of
//! heap events.
//!
//! `specs/Sights.antt` has what is looked at, `specs/Live.antt`, `specs/Fields.antt`, `specs/Routes.antt` and `specs/Cuts.antt`
//! have the formulas, `specs/Fitting.antt` which views fit a layout, and `specs/After.antt` what a view stands for.
#![tactic(auto)]

mod view;

pub use view::{CutCheck, Event, EventList, Sym, SymList, View};
