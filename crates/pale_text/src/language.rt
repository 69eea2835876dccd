//! What a language of texts has to say of itself.

ghost use Rattle.std.specs.Prelude.{◌≡◌, OnOk};
ghost use Rattle.pale_text.specs.declared.token.TokenKind.{TokenKind};
ghost use Rattle.pale_text.specs.Near.{Near, near_of};

use crate::near::Near;
use crate::token::TokenKind;
use ll1_reader::Grammar;
use std::alloc::{AllocError, Global};

/// A language of texts: its grammar, how it tells tokens apart, and what its acts make.
pub trait Language: Grammar {
    /// What is made so far of a text under way.
    type Parts: Drop;
    /// What a whole text is.
    type Tree: Drop;

    /// What contracts see of the parts.
    ghost Made: { Type 0 };

    /// That of these parts.
    ghost made_of: { Self.Parts → Made };

    /// Nothing is made yet.
    ghost nothing: { Made };

    /// What is made after an act, between these tokens.
    ghost after: { Self.Act → Near → Made → Made };

    /// The tree, once a whole text is read.
    ghost tree_of: { Made → Self.Tree };

    /// The kind of a token, as the grammar tells kinds apart.
    ghost kind_of: { TokenKind → Self.Kind };

    /// The kind of a token. Takes no memory.
    fn kind(token: &TokenKind) -> Self::Kind
        ensures { result ≡ kind_of token.now };

    /// Nothing is made yet. Takes no memory.
    fn begin(alloc: Global) -> Self::Parts
        ensures { made_of result ≡ nothing };

    /// Does what the act says.
    fn perform(parts: &mut Self::Parts, act: Self::Act, near: Near) -> Result<(), AllocError>
        ensures { OnOk result (made_of parts.new ≡ after act (near_of near.entry) (made_of parts.old)) };

    /// The tree that is made. Takes no memory.
    fn finish(parts: Self::Parts) -> Self::Tree
        ensures { result ≡ tree_of (made_of parts) };
}
