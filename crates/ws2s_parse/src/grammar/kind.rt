//! What the grammar of WS2S text tells tokens apart by.

ghost use Rattle.std.specs.Prelude.{◌≡◌};
ghost use Rattle.ws2s_parse.specs.SourceWords.{name_kind, number_kind, kind_of};

use pale_text::{Mark, TokenKind, kind_among};

/// The kind of a token of WS2S text, as its grammar tells kinds apart.
#[derive(Clone, Copy)]
pub enum SourceKind {
    /// A name that is not reserved.
    Name,
    /// A number of other digits than these two. No text has one.
    Number,
    /// `0`
    Zero,
    /// `1`
    One,
    /// `ws2s`
    Ws2s,
    /// `var1`
    Var1,
    /// `var2`
    Var2,
    /// `pred`
    Pred,
    /// `ex1`
    Ex1,
    /// `all1`
    All1,
    /// `ex2`
    Ex2,
    /// `all2`
    All2,
    /// `in`
    In,
    /// `notin`
    NotIn,
    /// `sub`
    Sub,
    /// `empty`
    Empty,
    /// `root`
    Root,
    /// `true`
    True,
    /// `false`
    False,
    Mark(Mark),
}

/// The words that name nothing, each with its kind.
const RESERVED: [(&[u8], SourceKind); 15] = [
    (b"ws2s", SourceKind::Ws2s),
    (b"var1", SourceKind::Var1),
    (b"var2", SourceKind::Var2),
    (b"pred", SourceKind::Pred),
    (b"ex1", SourceKind::Ex1),
    (b"all1", SourceKind::All1),
    (b"ex2", SourceKind::Ex2),
    (b"all2", SourceKind::All2),
    (b"in", SourceKind::In),
    (b"notin", SourceKind::NotIn),
    (b"sub", SourceKind::Sub),
    (b"empty", SourceKind::Empty),
    (b"root", SourceKind::Root),
    (b"true", SourceKind::True),
    (b"false", SourceKind::False),
];

/// The numbers that texts have, each with its kind.
const NUMBERS: [(&[u8], SourceKind); 2] = [(b"0", SourceKind::Zero), (b"1", SourceKind::One)];

/// The kind of a name: its own where it is reserved.
#[tactic(auto, unfolding(crate::specs::SourceWords::name_kind))]
fn name_kind(name: &[u8]) -> SourceKind
    ensures { result ≡ name_kind name.now }
{
    kind_among(&RESERVED, SourceKind::Name, name)
}

/// The kind of a number: its own where it is `0` or `1`.
#[tactic(auto, unfolding(crate::specs::SourceWords::number_kind))]
fn number_kind(digits: &[u8]) -> SourceKind
    ensures { result ≡ number_kind digits.now }
{
    kind_among(&NUMBERS, SourceKind::Number, digits)
}

impl SourceKind {
    /// The kind of a token. Takes no memory.
    pub fn of(token: &TokenKind) -> SourceKind
        ensures { result ≡ kind_of token.now }
    {
        match token {
            TokenKind::Name(name) => name_kind(name.as_slice()),
            TokenKind::Number(digits) => number_kind(digits.as_slice()),
            TokenKind::Mark(mark) => SourceKind::Mark(*mark),
        }
    }
}
