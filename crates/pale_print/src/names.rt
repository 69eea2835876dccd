//! Names, paths and terms.

ghost use Rattle.std.specs.Prelude.{◌≡◌};
ghost use Rattle.pale_text.specs.declared.token.Mark.TheVariants as mark;
ghost use Rattle.pale_print.specs.Tokens.{each_behind, separated, name_tokens, typed_tokens, path_tokens, term_tokens};
ghost use Rattle.pale_print.specs.Writing.{Writes, marked, compared, variant_tested};

use crate::tokens::{push_mark, push_word};
use pale_syntax::{Name, Path, Term};
use pale_text::Mark;
use plain_writer::Writer;

pub fn push_name(text: &mut Writer, name: &Name)
    ensures { Writes (name_tokens name.now) text.old text.new }
{
    push_word(text, name.bytes.as_slice())
}

/// A name behind a mark.
pub fn push_marked(text: &mut Writer, mark: Mark, name: &Name)
    ensures { Writes (marked mark name.now) text.old text.new }
{
    push_mark(text, mark);
    push_name(text, name)
}

/// `x : T`
pub fn push_typed(text: &mut Writer, name: &Name, ty: &Name)
    ensures { Writes (typed_tokens name.now ty.now) text.old text.new }
{
    push_name(text, name);
    push_marked(text, Mark::Colon, ty)
}

/// Names, each behind a mark.
fn push_names_behind(text: &mut Writer, mark: Mark, names: &[Name])
    ensures { Writes (each_behind mark name_tokens names.now) text.old text.new }
{
    for name in names {
        push_marked(text, mark, name);
    }
}

/// Names with commas between them.
pub fn push_names(text: &mut Writer, names: &[Name])
    ensures { Writes (separated mark.Comma name_tokens names.now) text.old text.new }
{
    let Some((first, others)) = names.split_first() else {
        return;
    };
    push_name(text, first);
    push_names_behind(text, Mark::Comma, others)
}

/// `x . f . g`
pub fn push_path(text: &mut Writer, path: &Path)
    ensures { Writes (path_tokens path.now) text.old text.new }
{
    push_name(text, &path.base);
    push_names_behind(text, Mark::Dot, path.fields.as_slice())
}

/// Paths with commas between them.
pub fn push_paths(text: &mut Writer, paths: &[Path])
    ensures { Writes (separated mark.Comma path_tokens paths.now) text.old text.new }
{
    let Some((first, others)) = paths.split_first() else {
        return;
    };
    push_path(text, first);
    for path in others {
        push_mark(text, Mark::Comma);
        push_path(text, path);
    }
}

pub fn push_term(text: &mut Writer, term: &Term)
    ensures { Writes (term_tokens term.now) text.old text.new }
{
    match term {
        Term::Null(_) => push_word(text, b"null"),
        Term::Path(path) => push_path(text, path),
    }
}

/// Two terms with a mark between them.
pub fn push_compared(text: &mut Writer, left: &Term, mark: Mark, right: &Term)
    ensures { Writes (compared left.now mark right.now) text.old text.new }
{
    push_term(text, left);
    push_mark(text, mark);
    push_term(text, right)
}

/// `t : v`
pub fn push_variant_test(text: &mut Writer, term: &Term, variant: &Name)
    ensures { Writes (variant_tested term.now variant.now) text.old text.new }
{
    push_term(text, term);
    push_marked(text, Mark::Colon, variant)
}
