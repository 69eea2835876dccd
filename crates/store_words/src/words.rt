//! Words for causes, names of fields and numbers.

ghost use Rattle.std.specs.Prelude.{◌≡◌, ◌++◌, OnOk};
ghost use Rattle.std.specs.Fmt.{decimal};
ghost use Rattle.store_words.specs.Words.{word_of_cause, field_name};

use std::alloc::{AllocError, Global};
use store_core::{FieldId, TypeTable};
use store_exec::Cause;

/// The word that is written for a cause.
pub fn word_of(cause: Cause) -> &'static str
    ensures { result.now ≡ word_of_cause cause }
{
    match cause {
        Cause::Null => "null",
        Cause::Dangling => "dangling",
        Cause::DoubleFree => "double-free",
        Cause::DanglingRef => "dangling-ref",
        Cause::Shared => "shared",
        Cause::Leak => "leak",
        Cause::Field => "field",
        Cause::Escape => "escape",
        Cause::Post => "post",
        Cause::Assert => "assert",
        Cause::Variant => "variant",
    }
}

/// Writes the number in decimal.
///
/// # Errors
///
/// Want of memory.
pub fn push_number(alloc: Global, text: &mut Vec<u8>, number: u64) -> Result<(), AllocError>
    ensures { OnOk result (text.new.items ≡ text.old.items ++ decimal number) }
{
    text.extend_from_slice(number.to_string(alloc)?.as_bytes())
}

/// The name of a field; nothing for an unknown one.
pub fn field_name(types: &TypeTable, field: FieldId) -> &[u8]
    ensures { result.now ≡ field_name types.now field }
{
    types.field_name(field).unwrap_or(b"")
}
