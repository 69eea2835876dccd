//! Laws of the atoms' automata.

ghost use Rattle.gta_theory.specs.Guides.{Spaces, IsGuide};
ghost use Rattle.ws2s_core.specs.declared.track.Track.{Track};
ghost use Rattle.ws2s_core.specs.declared.formula.Formula.TheVariants.{Sub, Single, Succ0, Succ1, Root};
ghost use Rattle.ws2s_core.specs.Recognising.{Recognises};
ghost use Rattle.ws2s_theory.specs.Atoms.{sub_automaton, single_automaton, root_automaton};
ghost use Rattle.ws2s_theory.specs.Atoms.{succ0_automaton, succ1_automaton};

/// Under every guide the automaton of an atom recognises it.
pub fn atoms_are_recognised()
    ensures sub { (g : Spaces) (x y : Track) → IsGuide g → Recognises g (sub_automaton x.0 y.0) (Sub x y) }
    ensures single { (g : Spaces) (x : Track) → IsGuide g → Recognises g (single_automaton x.0) (Single x) }
    ensures succ0 { (g : Spaces) (x y : Track) → IsGuide g → Recognises g (succ0_automaton x.0 y.0) (Succ0 x y) }
    ensures succ1 { (g : Spaces) (x y : Track) → IsGuide g → Recognises g (succ1_automaton x.0 y.0) (Succ1 x y) }
    ensures root { (g : Spaces) (x : Track) → IsGuide g → Recognises g (root_automaton x.0) (Root x) }
{}
