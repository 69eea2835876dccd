//! The list of sites and the walk that makes formulas go together.

ghost use Rattle.std.specs.Prelude.{◌≡◌, List};
ghost use Rattle.store_core.specs.Tables.{TypeEntry, VarEntry};
ghost use Rattle.store_exec.specs.declared.triple.Triple.{Triple};
ghost use Rattle.site_list.specs.Sites.{sites_of};
ghost use Rattle.site_list.specs.Triples.{passed};

/// The places that the walk over the code of a triple passes are the triple's sites, so that the number of a site is that of its
/// formula.
pub fn the_walk_passes_the_sites()
    ensures { (types : List TypeEntry) (vars : List VarEntry) (t : Triple) → passed types vars t ≡ sites_of types t }
{}
