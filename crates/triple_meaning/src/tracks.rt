//! Made tracks have values, and binding them means that they have.

ghost use Rattle.std.specs.Prelude.{◌↔◌, ℕ, List};
ghost use Rattle.gta_theory.specs.Assignments.{Assignment, IsFinite};
ghost use Rattle.ws2s_core.specs.declared.formula.Formula.{Formula};
ghost use Rattle.ws2s_core.specs.Satisfaction.{WSat};
ghost use Rattle.store_core.specs.Tables.{TypeEntry, VarEntry};
ghost use Rattle.store_exec.specs.declared.triple.Triple.{Triple};
ghost use Rattle.store_exec.specs.Fits.{TripleFits};
ghost use Rattle.tree_encode.specs.Tracks.{track_count};
ghost use Rattle.site_list.specs.Triples.{walked, bind, definitions};
ghost use Rattle.triple_meaning.specs.Sites.Seeing.{HasRoom, AreDefined};
ghost use Rattle.triple_meaning.specs.Tracks.Defining.{AreDefining, IsWithMade};

/// The walk over a triple that fits makes tracks one after the other: what defines one looks at no later one, and has a value
/// whatever stands on the others, also where the track's place isn't reached.
pub fn tracks_are_defined_one_after_the_other()
    ensures { (types : List TypeEntry) (vars : List VarEntry) (t : Triple) → TripleFits types vars t →
        AreDefining (track_count types vars) (walked types vars t).defined }
{}

/// On each assignment of finite sets the tracks that the walk made can have what defines them, and all others stay.
pub fn made_tracks_have_values()
    ensures { (types : List TypeEntry) (vars : List VarEntry) (t : Triple) (a : Assignment) (next : ℕ) → TripleFits types vars t → IsFinite a →
        HasRoom types vars next (walked types vars t) →
        (b : Assignment) × IsWithMade types vars (walked types vars t) a b × AreDefined next b (walked types vars t) }
{}

/// A formula whose made tracks are bound, where they are free in it, holds exactly where it holds with some values that define all
/// made tracks.
pub fn bound_formulas_hold_with_values_of_made_tracks()
    ensures { (types : List TypeEntry) (vars : List VarEntry) (t : Triple) (f : Formula) (a : Assignment) (next : ℕ) → TripleFits types vars t →
        IsFinite a → HasRoom types vars next (walked types vars t) →
        WSat (bind (track_count types vars) (definitions (walked types vars t) next) f) a
        ↔ ((b : Assignment) × IsWithMade types vars (walked types vars t) a b × AreDefined next b (walked types vars t) × WSat f b) }
{}
