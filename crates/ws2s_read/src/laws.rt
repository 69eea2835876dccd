//! What is found in a source tree.

ghost use Rattle.std.specs.Prelude.{◌≡◌, Ok, IsTrue};
ghost use Rattle.ws2s_syntax.specs.declared.source.Source.{Source as SourceTree};
ghost use Rattle.ws2s_syntax.specs.Checked.{Text, is_checked};
ghost use Rattle.ws2s_read.specs.Resolving.{resolved};

/// Where each name of a source tree is found and of the right class, the text that it is has every name in scope and of
/// the class that its place needs.
pub fn resolved_texts_are_checked()
    ensures { (source : SourceTree) (text : Text) → resolved source ≡ Ok text → IsTrue (is_checked text) }
{}
