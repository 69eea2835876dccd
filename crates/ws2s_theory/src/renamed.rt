//! Formulas with their tracks renamed in order.

ghost use Rattle.std.specs.Prelude.{ℕ, ◌↔◌};
ghost use Rattle.gta_theory.specs.Guides.{Spaces, IsGuide};
ghost use Rattle.gta_theory.specs.Renamed.{IsIncreasing};
ghost use Rattle.ws2s_core.specs.declared.track.Track.{Track};
ghost use Rattle.ws2s_core.specs.declared.formula.Formula.{Formula};
ghost use Rattle.ws2s_core.specs.Tracks.{renamed, renamed_track};
ghost use Rattle.ws2s_theory.specs.Peaks.{HasMinimalSize, HasProductSize, HasSubsetSize, HasPeak};

/// A formula whose tracks are renamed in order, free and bound ones, has the same Sizes and the same Peak.
pub fn names_of_tracks_change_no_peak()
    ensures minimal { (g : Spaces) (r : ℕ → ℕ) (f : Formula) (n : ℕ) → IsGuide g → IsIncreasing r →
        HasMinimalSize g f n ↔ HasMinimalSize g (renamed r f) n }
    ensures product { (g : Spaces) (r : ℕ → ℕ) (f h : Formula) (n : ℕ) → IsGuide g → IsIncreasing r →
        HasProductSize g f h n ↔ HasProductSize g (renamed r f) (renamed r h) n }
    ensures subset { (g : Spaces) (r : ℕ → ℕ) (t : Track) (f : Formula) (n : ℕ) → IsGuide g → IsIncreasing r →
        HasSubsetSize g t f n ↔ HasSubsetSize g (renamed_track r t) (renamed r f) n }
    ensures peak { (g : Spaces) (r : ℕ → ℕ) (f : Formula) (n : ℕ) → IsGuide g → IsIncreasing r →
        HasPeak g f n ↔ HasPeak g (renamed r f) n }
{}
