//! What no part of a narrowed formula is.

ghost use Rattle.ws2s_core.specs.declared.track.Track.{Track};
ghost use Rattle.ws2s_core.specs.declared.formula.Formula.{Formula};
ghost use Rattle.ws2s_core.specs.declared.formula.Formula.TheVariants.{And, Ex2};
ghost use Rattle.ws2s_core.specs.Parts.{IsPart};
ghost use Rattle.ws2s_core.specs.Tracks.{IsFree};
ghost use Rattle.ws2s_narrow.specs.Narrowing.{narrowed};

/// Where `narrow_scope` went no quantifier stands before a conjunction one side of which hasn't its track free.
pub fn narrow_quantifiers_bind_both_sides()
    ensures { (f g h : Formula) (t : Track) → IsPart (narrowed f) (Ex2 t (And g h)) → IsFree t.0 g × IsFree t.0 h }
{}
