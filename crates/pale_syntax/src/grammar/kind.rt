//! What the grammar of programs tells tokens apart by.

ghost use Rattle.std.specs.Prelude.{◌≡◌};
ghost use Rattle.pale_syntax.specs.ProgramWords.{name_kind, kind_of};

use pale_text::{Mark, TokenKind, kind_among};

/// The kind of a token of program text, as its grammar tells kinds apart.
#[derive(Clone, Copy)]
pub enum ProgramKind {
    /// A name that is not reserved.
    Name,
    /// A number. No program has one.
    Number,
    /// `type`
    Type,
    /// `bool`
    Bool,
    /// `data`
    Data,
    /// `pointer`
    Pointer,
    /// `pred`
    Pred,
    /// `set`
    Set,
    /// `proc`
    Proc,
    /// `returns`
    Returns,
    /// `logic`
    Logic,
    /// `pre`
    Pre,
    /// `post`
    Post,
    /// `skip`
    Skip,
    /// `if`
    If,
    /// `else`
    Else,
    /// `while`
    While,
    /// `split`
    Split,
    /// `assert`
    Assert,
    /// `free`
    Free,
    /// `new`
    New,
    /// `null`
    Null,
    /// `true`
    True,
    /// `false`
    False,
    /// `call`
    Call,
    /// `keep`
    Keep,
    /// `ex`
    Ex,
    /// `all`
    All,
    /// `in`
    In,
    /// `sub`
    Sub,
    /// `root`
    Root,
    Mark(Mark),
}

/// The words that name nothing, each with its kind.
const RESERVED: [(&[u8], ProgramKind); 29] = [
    (b"type", ProgramKind::Type),
    (b"bool", ProgramKind::Bool),
    (b"data", ProgramKind::Data),
    (b"pointer", ProgramKind::Pointer),
    (b"pred", ProgramKind::Pred),
    (b"set", ProgramKind::Set),
    (b"proc", ProgramKind::Proc),
    (b"returns", ProgramKind::Returns),
    (b"logic", ProgramKind::Logic),
    (b"pre", ProgramKind::Pre),
    (b"post", ProgramKind::Post),
    (b"skip", ProgramKind::Skip),
    (b"if", ProgramKind::If),
    (b"else", ProgramKind::Else),
    (b"while", ProgramKind::While),
    (b"split", ProgramKind::Split),
    (b"assert", ProgramKind::Assert),
    (b"free", ProgramKind::Free),
    (b"new", ProgramKind::New),
    (b"null", ProgramKind::Null),
    (b"true", ProgramKind::True),
    (b"false", ProgramKind::False),
    (b"call", ProgramKind::Call),
    (b"keep", ProgramKind::Keep),
    (b"ex", ProgramKind::Ex),
    (b"all", ProgramKind::All),
    (b"in", ProgramKind::In),
    (b"sub", ProgramKind::Sub),
    (b"root", ProgramKind::Root),
];

/// The kind of a name: its own where it is reserved.
#[tactic(auto, unfolding(crate::specs::ProgramWords::name_kind))]
fn name_kind(name: &[u8]) -> ProgramKind
    ensures { result ≡ name_kind name.now }
{
    kind_among(&RESERVED, ProgramKind::Name, name)
}

impl ProgramKind {
    /// The kind of a token. Takes no memory.
    pub fn of(token: &TokenKind) -> ProgramKind
        ensures { result ≡ kind_of token.now }
    {
        match token {
            TokenKind::Name(name) => name_kind(name.as_slice()),
            TokenKind::Number(_) => ProgramKind::Number,
            TokenKind::Mark(mark) => ProgramKind::Mark(*mark),
        }
    }
}
