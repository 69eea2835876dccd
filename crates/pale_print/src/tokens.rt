//! Single tokens, each followed by one gap.

ghost use Rattle.std.specs.Prelude.{◌≡◌, codes};
ghost use Rattle.pale_text.specs.declared.token.TokenKind.TheVariants as token_kind;
ghost use Rattle.pale_print.specs.Spelling.{gap};
ghost use Rattle.pale_print.specs.Tokens.{sign, word};
ghost use Rattle.pale_print.specs.Writing.{Writes, opening, closing};

use pale_text::Mark;
use plain_writer::Writer;

/// What stands behind a mark.
fn gap_behind(mark: Mark) -> u8
    ensures { result ≡ gap (token_kind.Mark mark) }
{
    match mark {
        Mark::Semicolon | Mark::LeftBrace | Mark::RightBrace => b'\n',
        _ => b' ',
    }
}

/// A mark and its gap.
#[tactic(auto, unfolding(crate::specs::Writing::Ends, crate::specs::Spelling::spelled))]
pub fn push_mark(text: &mut Writer, mark: Mark)
    ensures { Writes (sign mark) text.old text.new }
{
    text.push_all(mark.bytes());
    text.push(gap_behind(mark));
}

/// A name or a reserved word, and its gap.
#[tactic(auto, unfolding(crate::specs::Writing::Ends, crate::specs::Spelling::spelled))]
pub fn push_word(text: &mut Writer, letters: &[u8])
    ensures { Writes (word letters.now) text.old text.new }
{
    text.push_all(letters);
    text.push(b' ');
}

/// A left parenthesis, where one is needed.
pub fn open_group(text: &mut Writer, needed: bool)
    ensures { Writes (opening needed) text.old text.new }
{
    if needed {
        push_mark(text, Mark::LeftParen);
    }
}

/// A right parenthesis, where one is needed.
pub fn close_group(text: &mut Writer, needed: bool)
    ensures { Writes (closing needed) text.old text.new }
{
    if needed {
        push_mark(text, Mark::RightParen);
    }
}
