//! Laws of the Peak.

ghost use Rattle.std.specs.Prelude.{◌≡◌, ℕ, ◌↔◌};
ghost use Rattle.gta_theory.specs.Guides.{Spaces, IsGuide};
ghost use Rattle.ws2s_core.specs.declared.track.Track.{Track};
ghost use Rattle.ws2s_core.specs.declared.formula.Formula.{Formula};
ghost use Rattle.ws2s_core.specs.declared.formula.Formula.TheVariants.{Sub, Single, Succ0, Succ1, Root, And, Not, Ex2};
ghost use Rattle.ws2s_theory.specs.Peaks.{HasMinimalSize, IsPeakOfAnd, IsPeakOfEx2, HasPeak};

/// The Peak goes by the form of the formula.
pub fn peak_goes_by_cases()
    ensures sub { (g : Spaces) (x y : Track) (n : ℕ) → HasPeak g (Sub x y) n ↔ HasMinimalSize g (Sub x y) n }
    ensures single { (g : Spaces) (x : Track) (n : ℕ) → HasPeak g (Single x) n ↔ HasMinimalSize g (Single x) n }
    ensures succ0 { (g : Spaces) (x y : Track) (n : ℕ) → HasPeak g (Succ0 x y) n ↔ HasMinimalSize g (Succ0 x y) n }
    ensures succ1 { (g : Spaces) (x y : Track) (n : ℕ) → HasPeak g (Succ1 x y) n ↔ HasMinimalSize g (Succ1 x y) n }
    ensures root { (g : Spaces) (x : Track) (n : ℕ) → HasPeak g (Root x) n ↔ HasMinimalSize g (Root x) n }
    ensures conjunction { (g : Spaces) (f h : Formula) (n : ℕ) →
        HasPeak g (And f h) n ↔ IsPeakOfAnd g f h (HasPeak g f) (HasPeak g h) n }
    ensures negation { (g : Spaces) (f : Formula) (n : ℕ) → HasPeak g (Not f) n ↔ HasPeak g f n }
    ensures quantifier { (g : Spaces) (t : Track) (f : Formula) (n : ℕ) →
        HasPeak g (Ex2 t f) n ↔ IsPeakOfEx2 g t f (HasPeak g f) n }
{}

/// Every formula has a Peak under every guide.
pub fn peaks_exist()
    ensures { (g : Spaces) (f : Formula) → IsGuide g → (n : ℕ) × HasPeak g f n }
{}

/// A formula has one Peak at most under a guide.
pub fn peaks_are_unique()
    ensures { (g : Spaces) (f : Formula) (n m : ℕ) → IsGuide g → HasPeak g f n → HasPeak g f m → n ≡ m }
{}
