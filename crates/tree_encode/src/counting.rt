//! How many fields of a type are of a kind.

ghost use Rattle.std.specs.Prelude.{◌≡◌, ◌+◌, ◌≤◌, length, take, count_by, false, IfOk};
ghost use Rattle.std.specs.Option.{option_map_or};
ghost use Rattle.store_core.specs.Tables.{fields_of, field_at};
ghost use Rattle.tree_encode.specs.Counting.{is_counted, counts};

use std::alloc::AllocError;
use store_core::{FieldId, FieldKind, TypeId, TypeTable};

/// Which fields a number counts.
#[derive(Clone, Copy)]
pub enum Counted {
    /// The bool fields.
    Bools,
    /// The data fields, which lead to children.
    Children,
}

/// Whether fields of the kind are counted.
fn counts(what: Counted, kind: &FieldKind) -> bool
    ensures { result ≡ counts what kind.now }
{
    match (what, kind) {
        (Counted::Bools, FieldKind::Bool) => true,
        (Counted::Children, FieldKind::Data(_)) => true,
        _ => false,
    }
}

/// Whether the field is there and counted.
pub fn is_counted(types: &TypeTable, what: Counted, f: FieldId) -> bool
    ensures { result ≡ option_map_or (is_counted what) (field_at types.now f) false }
{
    match types.kind(f) {
        Some(kind) => counts(what, kind),
        None => false,
    }
}

/// How many of the first so many fields of a type are counted.
pub fn counted_before(types: &TypeTable, what: Counted, ty: TypeId, end: u32) -> u32
    requires { end ≤ length (fields_of types.now ty) }
    ensures value { result ≡ count_by (is_counted what) (take end (fields_of types.now ty)) }
    ensures within { result ≤ end }
{
    let mut count = 0;
    for index in 0..end {
        if is_counted(types, what, FieldId { ty, index }) {
            count += 1;
        }
    }
    count
}

/// The sum, where a `u32` counts it.
pub fn sum(one: u32, other: u32) -> Result<u32, AllocError>
    ensures { IfOk result (λ both. both ≡ one + other) }
{
    match one.checked_add(other) {
        Some(both) => Ok(both),
        None => Err(AllocError),
    }
}

/// The length of a list, where a `u32` counts it.
pub fn number_of(length: usize) -> Result<u32, AllocError>
    ensures { IfOk result (λ count. count ≡ length) }
{
    match u32::try_from(length) {
        Ok(count) => Ok(count),
        Err(_) => Err(AllocError),
    }
}
