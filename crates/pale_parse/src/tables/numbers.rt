//! A number for each kind of token.

ghost use Rattle.std.specs.Prelude.{◌≡◌};
ghost use Rattle.pale_parse.specs.ParseTable.{number_of};

use pale_syntax::ProgramKind;

/// The number of a kind.
#[tactic(auto, unfolding(crate::specs::ParseTable::number_of))]
pub(crate) fn number_of(kind: ProgramKind) -> u32
    ensures { result ≡ number_of kind }
{
    match kind {
        ProgramKind::Name => 30,
        ProgramKind::Number => 31,
        ProgramKind::Type => 32,
        ProgramKind::Bool => 33,
        ProgramKind::Data => 34,
        ProgramKind::Pointer => 35,
        ProgramKind::Pred => 36,
        ProgramKind::Set => 37,
        ProgramKind::Proc => 38,
        ProgramKind::Returns => 39,
        ProgramKind::Logic => 40,
        ProgramKind::Pre => 41,
        ProgramKind::Post => 42,
        ProgramKind::Skip => 43,
        ProgramKind::If => 44,
        ProgramKind::Else => 45,
        ProgramKind::While => 46,
        ProgramKind::Split => 47,
        ProgramKind::Assert => 48,
        ProgramKind::Free => 49,
        ProgramKind::New => 50,
        ProgramKind::Null => 51,
        ProgramKind::True => 52,
        ProgramKind::False => 53,
        ProgramKind::Call => 54,
        ProgramKind::Keep => 55,
        ProgramKind::Ex => 56,
        ProgramKind::All => 57,
        ProgramKind::In => 58,
        ProgramKind::Sub => 59,
        ProgramKind::Root => 60,
        ProgramKind::Mark(mark) => mark.number(),
    }
}
