//! What a name, a path or an argument stands for.

ghost use Rattle.std.specs.Prelude.{◌≡◌};
ghost use Rattle.pale_terms.specs.Sorts.{held, kept, is_truth, is_cell, is_set, cell_of, cells_of, are_of_one_type};

use store_core::{FieldKind, TypeId, VarKind};

/// What something stands for.
#[derive(Clone, Copy, Debug, PartialEq, Eq)]
pub enum Sort {
    /// A truth value.
    Truth,
    /// Null or a cell of the type.
    Cell(TypeId),
    /// A set of cells of the type.
    Set(TypeId),
}

impl Sort {
    /// What a field holds. Takes no memory.
    pub fn of_field(kind: &FieldKind) -> Sort
        ensures { result ≡ held kind.now }
    {
        match kind {
            FieldKind::Bool => Sort::Truth,
            FieldKind::Data(target) | FieldKind::Pointer(target, _) => Sort::Cell(*target),
        }
    }

    /// What a variable holds. Takes no memory.
    pub fn of_var(kind: VarKind) -> Sort
        ensures { result ≡ kept kind }
    {
        match kind {
            VarKind::Bool | VarKind::LogicBool => Sort::Truth,
            VarKind::Data(target) | VarKind::Pointer(target) => Sort::Cell(target),
            VarKind::LogicSet(target) => Sort::Set(target),
        }
    }

    /// Whether it is a truth value. Takes no memory.
    pub fn is_truth(self) -> bool
        ensures { result ≡ is_truth self }
    {
        match self {
            Sort::Truth => true,
            Sort::Cell(_) | Sort::Set(_) => false,
        }
    }

    /// Whether it is null or a cell. Takes no memory.
    pub fn is_cell(self) -> bool
        ensures { result ≡ is_cell self }
    {
        match self {
            Sort::Cell(_) => true,
            Sort::Truth | Sort::Set(_) => false,
        }
    }

    /// Whether it is a set. Takes no memory.
    pub fn is_set(self) -> bool
        ensures { result ≡ is_set self }
    {
        match self {
            Sort::Set(_) => true,
            Sort::Truth | Sort::Cell(_) => false,
        }
    }

    /// The type of the cell. Takes no memory.
    pub fn cell(self) -> Option<TypeId>
        ensures { result ≡ cell_of self }
    {
        match self {
            Sort::Cell(ty) => Some(ty),
            Sort::Truth | Sort::Set(_) => None,
        }
    }

    /// The type of the cell, or of those in the set. Takes no memory.
    pub fn ty(self) -> Option<TypeId>
        ensures { result ≡ cells_of self }
    {
        match self {
            Sort::Truth => None,
            Sort::Cell(ty) | Sort::Set(ty) => Some(ty),
        }
    }

    /// Whether both have cells of one type, be they cells or sets. Takes no memory.
    pub fn is_of_type_of(self, other: Sort) -> bool
        ensures { result ≡ are_of_one_type self other }
    {
        match (self.ty(), other.ty()) {
            (Some(one), Some(other)) => one.0 == other.0,
            _ => false,
        }
    }
}
