//! Why a text is refused, and where.

ghost use Rattle.std.specs.Prelude.{◌≡◌};
ghost use Rattle.pale_text.specs.Refusals.{refused_at, word_of};

use crate::place::Pos;
use std::alloc::{AllocError, AllocFailed};
use thiserror::Error;

/// The rule that a text breaks.
#[derive(Clone, Copy, Debug, PartialEq, Eq)]
pub enum RefusalKind {
    /// A byte begins no token.
    Char,
    /// A token continues no sentence.
    Syntax,
    /// A token opens one level too many.
    Deep,
    /// A name is declared twice.
    Duplicate,
    /// A name stands for nothing there.
    Unknown,
    /// A name or a term is of another class.
    Kind,
    /// A term is of another type.
    Type,
    /// A use has more or fewer arguments than its declaration.
    Arity,
    /// There is one type too many.
    ManyTypes,
    /// A type has one field too many.
    ManyFields,
    /// A procedure has one variable too many.
    ManyVars,
    /// A part of a procedure between two cuts has too many atoms.
    LongPart,
    /// A part of a procedure between two cuts makes too many cells.
    ManyNew,
    /// An assertion is too big once its predicates are put in.
    BigFormula,
    /// A type has one variant too many.
    ManyVariants,
    /// A route has too many nodes.
    BigRoute,
    /// A path has too many fields.
    LongPath,
}

impl RefusalKind {
    /// The word that is printed for it. Takes no memory.
    pub fn word(&self) -> &'static str
        ensures { result.now ≡ word_of self.now }
    {
        match self {
            RefusalKind::Char => "char",
            RefusalKind::Syntax => "syntax",
            RefusalKind::Deep => "deep",
            RefusalKind::Duplicate => "duplicate",
            RefusalKind::Unknown => "unknown",
            RefusalKind::Kind => "kind",
            RefusalKind::Type => "type",
            RefusalKind::Arity => "arity",
            RefusalKind::ManyTypes => "many-types",
            RefusalKind::ManyFields => "many-fields",
            RefusalKind::ManyVars => "many-vars",
            RefusalKind::LongPart => "long-part",
            RefusalKind::ManyNew => "many-new",
            RefusalKind::BigFormula => "big-formula",
            RefusalKind::ManyVariants => "many-variants",
            RefusalKind::BigRoute => "big-route",
            RefusalKind::LongPath => "long-path",
        }
    }
}

/// Why a text is refused, and at which byte or token. Both numbers count from 1, and a column counts bytes.
#[derive(Clone, Copy, Debug, PartialEq, Eq)]
pub struct Refusal {
    pub line: u32,
    pub column: u32,
    pub kind: RefusalKind,
}

impl Refusal {
    /// The refusal of what stands at this place. Takes no memory.
    pub fn at(place: Pos, kind: RefusalKind) -> Refusal
        ensures { result ≡ refused_at place kind }
    {
        Refusal {
            line: place.line,
            column: place.column,
            kind,
        }
    }
}

/// Why a call that reads a text gives nothing.
#[derive(Clone, Copy, Debug, PartialEq, Eq, Error)]
pub enum TextStop {
    /// The text breaks a rule.
    #[error("refused {}:{} {}", .0.line, .0.column, .0.kind.word())]
    Refused(Refusal),
    /// Memory ran out, which says nothing of the text.
    #[error("out of memory")]
    NoMemory,
}

impl From<AllocError> for TextStop {
    ghost use Rattle.std.specs.Prelude.{◌≡◌};
    ghost use Rattle.pale_text.specs.declared.refusal.TextStop.TheVariants.{NoMemory};

    ghost from_gives = { λ _ e. e ≡ NoMemory };

    fn from(_: AllocError) -> TextStop {
        TextStop::NoMemory
    }
}

impl<T: Drop> From<AllocFailed<T>> for TextStop {
    ghost use Rattle.std.specs.Prelude.{◌≡◌};
    ghost use Rattle.pale_text.specs.declared.refusal.TextStop.TheVariants.{NoMemory};

    ghost from_gives = { λ _ e. e ≡ NoMemory };

    fn from(_: AllocFailed<T>) -> TextStop {
        TextStop::NoMemory
    }
}
