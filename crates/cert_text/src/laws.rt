//! Laws of spelled lines.

ghost use Rattle.std.specs.Prelude.{◌≡◌, ◌++◌, ℕ, List};
ghost use Rattle.cert_text.specs.declared.line.Line.{Line};
ghost use Rattle.cert_text.specs.Spelling.{line_text, IsLine};

/// A text begins with one line at most.
pub fn texts_begin_with_one_line()
    ensures { (l m : Line) (after rest : List ℕ) → IsLine l → IsLine m →
        line_text l ++ after ≡ line_text m ++ rest → (l ≡ m) × (after ≡ rest) }
{}
