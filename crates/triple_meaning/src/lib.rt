//! What the formulas of a triple's sites mean: over the trees of well-formed stores some site's is satisfied exactly where the store
//! meets the triple and fails, and the first such site has the cause and the line; nothing else satisfies one.
//!
//! No code runs here; each module has theorems as the contracts of functions that do nothing. `claims`: what the formulas of
//! assertions and of claims say of the store that a view sees (`specs/Claims/Bound.antt` says what names stand for inside
//! quantifiers, `specs/Claims/Given.antt` which tracks have the cells of a part, `specs/Claims/Stating.antt` what a state of symbolic
//! execution sees). `sites`: the walk over code means execution on the stores that are seen (`specs/Sites/Places.antt` says which
//! causes come at places, `specs/Sites/Seeing.antt` what a state of the walk sees, `specs/Sites/Answering.antt` what the walk over
//! what is read means). `triples`: on the tree of a well-formed store the walk over a triple's code means how the triple fails
//! (`specs/Triples/Parted.antt` says of which cells the claims of cuts speak). `tracks`: the tracks that the walk makes have values
//! on every assignment of finite sets, and binding them means that they have some (`specs/Tracks/Defining.antt`). `failing`: the
//! theorem (`specs/Failing/Satisfying.antt` says which sites an assignment satisfies).
#![tactic(auto)]

pub mod claims;
pub mod failing;
pub mod sites;
pub mod tracks;
pub mod triples;
