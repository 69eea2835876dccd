//! A number for each kind of token.

ghost use Rattle.std.specs.Prelude.{◌≡◌};
ghost use Rattle.ws2s_parse.specs.ParseTable.{number_of};

use crate::grammar::SourceKind;

/// The number of a kind.
#[tactic(auto, unfolding(crate::specs::ParseTable::number_of))]
pub(crate) fn number_of(kind: SourceKind) -> u32
    ensures { result ≡ number_of kind }
{
    match kind {
        SourceKind::Name => 30,
        SourceKind::Number => 31,
        SourceKind::Zero => 32,
        SourceKind::One => 33,
        SourceKind::Ws2s => 34,
        SourceKind::Var1 => 35,
        SourceKind::Var2 => 36,
        SourceKind::Pred => 37,
        SourceKind::Ex1 => 38,
        SourceKind::All1 => 39,
        SourceKind::Ex2 => 40,
        SourceKind::All2 => 41,
        SourceKind::In => 42,
        SourceKind::NotIn => 43,
        SourceKind::Sub => 44,
        SourceKind::Empty => 45,
        SourceKind::Root => 46,
        SourceKind::True => 47,
        SourceKind::False => 48,
        SourceKind::Mark(mark) => mark.number(),
    }
}
