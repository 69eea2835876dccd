//! What variables are declared as.

ghost use Rattle.std.specs.Prelude.{◌≡◌};
ghost use Rattle.pale_calls.specs.Classes.{class_of, type_in, is_same_class, holds_cell, holds_truth, is_logic};

use store_core::{TypeId, VarKind};

/// What a variable is declared as, but for its type.
#[derive(Clone, Copy, Debug, PartialEq, Eq)]
pub enum VarClass {
    Bool,
    Data,
    Pointer,
    LogicSet,
    LogicBool,
}

impl VarClass {
    /// The class of a variable. Takes no memory.
    pub fn of(kind: VarKind) -> VarClass
        ensures { result ≡ class_of kind }
    {
        match kind {
            VarKind::Bool => VarClass::Bool,
            VarKind::Data(_) => VarClass::Data,
            VarKind::Pointer(_) => VarClass::Pointer,
            VarKind::LogicSet(_) => VarClass::LogicSet,
            VarKind::LogicBool => VarClass::LogicBool,
        }
    }

    /// Whether both are one class. Takes no memory.
    pub fn is_same(self, other: VarClass) -> bool
        ensures { result ≡ is_same_class self other }
    {
        match (self, other) {
            (VarClass::Bool, VarClass::Bool)
            | (VarClass::Data, VarClass::Data)
            | (VarClass::Pointer, VarClass::Pointer)
            | (VarClass::LogicSet, VarClass::LogicSet)
            | (VarClass::LogicBool, VarClass::LogicBool) => true,
            _ => false,
        }
    }

    /// Whether it is a class of null and cells. Takes no memory.
    pub fn holds_cell(self) -> bool
        ensures { result ≡ holds_cell self }
    {
        match self {
            VarClass::Data | VarClass::Pointer => true,
            VarClass::Bool | VarClass::LogicSet | VarClass::LogicBool => false,
        }
    }

    /// Whether it is a class of truth values. Takes no memory.
    pub fn holds_truth(self) -> bool
        ensures { result ≡ holds_truth self }
    {
        match self {
            VarClass::Bool | VarClass::LogicBool => true,
            VarClass::Data | VarClass::Pointer | VarClass::LogicSet => false,
        }
    }

    /// Whether it is a class of logic variables. Takes no memory.
    pub fn is_logic(self) -> bool
        ensures { result ≡ is_logic self }
    {
        match self {
            VarClass::LogicSet | VarClass::LogicBool => true,
            VarClass::Bool | VarClass::Data | VarClass::Pointer => false,
        }
    }
}

/// The type of the cells of a variable; `None` for a truth value.
pub(crate) fn type_in(kind: VarKind) -> Option<TypeId>
    ensures { result ≡ type_in kind }
{
    match kind {
        VarKind::Bool | VarKind::LogicBool => None,
        VarKind::Data(ty) | VarKind::Pointer(ty) | VarKind::LogicSet(ty) => Some(ty),
    }
}
