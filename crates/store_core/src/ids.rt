//! Numbers that name something, each with a type of its own.

/// A type of a [`crate::TypeTable`], counted from 0 in the order in which the types were added.
#[derive(Clone, Copy, Debug, PartialEq, Eq, PartialOrd, Ord, Hash)]
pub struct TypeId(pub u32);

/// A variant of a type, counted from 0. The one variant without a name has the index 0, and so has the named variant
/// that takes its place.
#[derive(Clone, Copy, Debug, PartialEq, Eq, PartialOrd, Ord, Hash)]
pub struct VariantId {
    pub ty: TypeId,
    pub index: u32,
}

/// A field of a type, counted from 0 over all its variants in the order in which the fields were added.
#[derive(Clone, Copy, Debug, PartialEq, Eq, PartialOrd, Ord, Hash)]
pub struct FieldId {
    pub ty: TypeId,
    pub index: u32,
}

/// A variable of a [`crate::VarTable`], counted from 0 in the order in which the variables were added.
#[derive(Clone, Copy, Debug, PartialEq, Eq, PartialOrd, Ord, Hash)]
pub struct VarId(pub u32);

/// A cell of a [`crate::Store`]. A store gives numbers from 1 on and gives none twice.
#[derive(Clone, Copy, Debug, PartialEq, Eq, PartialOrd, Ord, Hash)]
pub struct CellId(pub u32);
