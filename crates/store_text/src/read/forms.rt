//! The forms of the lines between `store` and `end`.

ghost use Rattle.std.specs.Prelude.{◌≡◌, IfOk};
ghost use Rattle.store_text.specs.Spelling.{all_of, given_of, field_of, variant_of, type_of, var_line, cell_in, cell_line, line_in, line_of};

use crate::read::lines::{cut_at, parts_of};
use crate::read::spelled::{CellLine, Given, Line};
use crate::read::values::{name_of, number_of, value_of};
use plain_data::Items;
use std::alloc::{AllocError, Global};
use store_core::ByteList;

/// A name and a value.
#[tactic(auto, unfolding(crate::specs::Spelling::given_of))]
fn given_of(alloc: Global, name: &[u8], value: &[u8]) -> Result<Option<Given>, AllocError>
    ensures { IfOk result (λ given. given ≡ given_of name.now value.now) }
{
    let Some(name) = name_of(alloc, name)? else {
        return Ok(None);
    };
    let Some(value) = value_of(alloc, value)? else {
        return Ok(None);
    };
    Ok(Some(Given { name, value }))
}

/// `F=VALUE`.
#[tactic(auto, unfolding(crate::specs::Spelling::field_of))]
fn field_of(alloc: Global, word: &[u8]) -> Result<Option<Given>, AllocError>
    ensures { IfOk result (λ given. given ≡ field_of word.now) }
{
    match cut_at(b'=', word) {
        None => Ok(None),
        Some((name, value)) => given_of(alloc, name, value),
    }
}

/// The fields of a line, where each part is one.
fn all_fields(alloc: Global, words: &[ByteList]) -> Result<Option<Items<Given>>, AllocError>
    ensures { IfOk result (λ fields. fields ≡ all_of field_of words.now) }
{
    let mut fields = Items::new(alloc);
    for word in words {
        let Some(field) = field_of(alloc, word.as_slice())? else {
            return Ok(None);
        };
        fields.push(field)?;
    }
    Ok(Some(fields))
}

/// The names of a type and of one of its variants.
#[tactic(auto, unfolding(crate::specs::Spelling::variant_of))]
fn variant_of(
    alloc: Global,
    ty: &[u8],
    variant: &[u8],
) -> Result<Option<(ByteList, Option<ByteList>)>, AllocError>
    ensures { IfOk result (λ named. named ≡ variant_of ty.now variant.now) }
{
    let Some(ty) = name_of(alloc, ty)? else {
        return Ok(None);
    };
    let Some(variant) = name_of(alloc, variant)? else {
        return Ok(None);
    };
    Ok(Some((ty, Some(variant))))
}

/// `T`, or `T:V`.
#[tactic(auto, unfolding(crate::specs::Spelling::type_of))]
fn type_of(alloc: Global, word: &[u8]) -> Result<Option<(ByteList, Option<ByteList>)>, AllocError>
    ensures { IfOk result (λ named. named ≡ type_of word.now) }
{
    if let Some((ty, variant)) = cut_at(b':', word) {
        return variant_of(alloc, ty, variant);
    }
    match name_of(alloc, word)? {
        None => Ok(None),
        Some(ty) => Ok(Some((ty, None))),
    }
}

/// `NAME VALUE`, after `var`.
fn var_line(alloc: Global, parts: &[ByteList]) -> Result<Option<Line>, AllocError>
    ensures { IfOk result (λ line. line ≡ var_line parts.now) }
{
    if parts.len() != 2 {
        return Ok(None);
    }
    match given_of(alloc, parts[0].as_slice(), parts[1].as_slice())? {
        None => Ok(None),
        Some(given) => Ok(Some(Line::Var(given))),
    }
}

/// A number, a type and fields.
#[tactic(auto, unfolding(crate::specs::Spelling::cell_in))]
fn cell_in(
    alloc: Global,
    number: &[u8],
    ty: &[u8],
    fields: &[ByteList],
) -> Result<Option<Line>, AllocError>
    ensures { IfOk result (λ line. line ≡ cell_in number.now ty.now fields.now) }
{
    let Some(number) = number_of(number) else {
        return Ok(None);
    };
    let Some((ty, variant)) = type_of(alloc, ty)? else {
        return Ok(None);
    };
    let Some(fields) = all_fields(alloc, fields)? else {
        return Ok(None);
    };
    Ok(Some(Line::Cell(CellLine {
        number,
        ty,
        variant,
        fields,
    })))
}

/// `N TYPE F=VALUE ..`, after `cell`.
fn cell_line(alloc: Global, parts: &[ByteList]) -> Result<Option<Line>, AllocError>
    ensures { IfOk result (λ line. line ≡ cell_line parts.now) }
{
    if parts.len() < 2 {
        return Ok(None);
    }
    cell_in(alloc, parts[0].as_slice(), parts[1].as_slice(), &parts[2..])
}

/// What a line between `store` and `end` says, where it has a form.
#[tactic(auto, unfolding(crate::specs::Spelling::line_of))]
pub fn line_of(alloc: Global, bytes: &[u8]) -> Result<Option<Line>, AllocError>
    ensures { IfOk result (λ line. line ≡ line_of bytes.now) }
{
    let parts = parts_of(alloc, bytes)?;
    line_in(alloc, parts.as_slice())
}

/// What the parts of a line say, where they have a form.
#[tactic(auto, unfolding(crate::specs::Spelling::line_in))]
fn line_in(alloc: Global, parts: &[ByteList]) -> Result<Option<Line>, AllocError>
    ensures { IfOk result (λ line. line ≡ line_in parts.now) }
{
    let Some((word, others)) = parts.split_first() else {
        return Ok(None);
    };
    let word = word.as_slice();
    if word == b"var".as_slice() {
        return var_line(alloc, others);
    }
    if word == b"cell".as_slice() {
        return cell_line(alloc, others);
    }
    Ok(None)
}
