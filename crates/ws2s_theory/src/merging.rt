//! Which states of an atom's automaton are one state of its minimal automaton, in each space.

ghost use Rattle.std.specs.Prelude.{◌≢◌, ℕ, Bool, true, false};
ghost use Rattle.gta_theory.specs.Guides.{Spaces, IsGuide};
ghost use Rattle.ws2s_core.specs.declared.track.Track.{Track};
ghost use Rattle.ws2s_core.specs.declared.formula.Formula.TheVariants.{Sub, Single, Succ0, Succ1, Root};
ghost use Rattle.ws2s_core.specs.Recognising.{IsMinimalOf};
ghost use Rattle.ws2s_theory.specs.Atoms.{inside, sub_automaton, single_automaton, root_automaton};
ghost use Rattle.ws2s_theory.specs.Atoms.{neither, succ0_automaton, succ1_automaton};
ghost use Rattle.ws2s_theory.specs.Merging.{IsChildTest, merged, Stands};
ghost use Rattle.ws2s_theory.specs.Merging.{sub_classes, single_classes, root_classes, succ_classes};

/// Each guide has a test of which spaces are children of positions' spaces.
pub fn child_tests_exist()
    ensures { (g : Spaces) → IsGuide g → (is_child : Bool → ℕ → Bool) × IsChildTest g is_child }
{}

/// With a test of which spaces are children of positions' spaces, the classes of an atom's states are known, and make
/// its minimal automaton.
pub fn atoms_merge_by_space()
    ensures sub { (g : Spaces) (is_child : Bool → ℕ → Bool) (x y : Track) → IsGuide g →
        IsChildTest g is_child → y.0 ≢ x.0 →
        IsMinimalOf g (merged (sub_classes is_child) (sub_automaton x.0 y.0)) (Stands (sub_classes is_child)) (Sub x y) }
    ensures single { (g : Spaces) (is_child : Bool → ℕ → Bool) (x : Track) → IsGuide g → IsChildTest g is_child →
        IsMinimalOf g (merged (single_classes is_child) (single_automaton x.0)) (Stands (single_classes is_child))
        (Single x) }
    ensures succ0 { (g : Spaces) (is_child : Bool → ℕ → Bool) (x y : Track) → IsGuide g →
        IsChildTest g is_child → y.0 ≢ x.0 →
        IsMinimalOf g (merged (succ_classes false is_child) (succ0_automaton x.0 y.0))
        (Stands (succ_classes false is_child)) (Succ0 x y) }
    ensures succ1 { (g : Spaces) (is_child : Bool → ℕ → Bool) (x y : Track) → IsGuide g →
        IsChildTest g is_child → y.0 ≢ x.0 →
        IsMinimalOf g (merged (succ_classes true is_child) (succ1_automaton x.0 y.0))
        (Stands (succ_classes true is_child)) (Succ1 x y) }
    ensures root { (g : Spaces) (is_child : Bool → ℕ → Bool) (x : Track) → IsGuide g → IsChildTest g is_child →
        IsMinimalOf g (merged (root_classes is_child) (root_automaton x.0)) (Stands (root_classes is_child)) (Root x) }
{}

/// An atom of one track twice holds always or never, and one state stands for all.
pub fn equal_tracks_leave_one_state()
    ensures sub { (g : Spaces) (x : Track) → IsGuide g →
        IsMinimalOf g (merged (λ s q. inside) (sub_automaton x.0 x.0)) (Stands (λ s q. inside)) (Sub x x) }
    ensures succ0 { (g : Spaces) (x : Track) → IsGuide g →
        IsMinimalOf g (merged (λ s q. neither) (succ0_automaton x.0 x.0)) (Stands (λ s q. neither)) (Succ0 x x) }
    ensures succ1 { (g : Spaces) (x : Track) → IsGuide g →
        IsMinimalOf g (merged (λ s q. neither) (succ1_automaton x.0 x.0)) (Stands (λ s q. neither)) (Succ1 x x) }
{}
