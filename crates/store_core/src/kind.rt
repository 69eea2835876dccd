//! What a field or a variable holds.

ghost use Rattle.std.specs.Prelude.{◌≡◌, ◌+◌, ◌*◌, ◌<◌};
ghost use Rattle.store_core.specs.Dropping.{turning_weight, dropping_rank};

use crate::ids::{TypeId, VariantId};
use plain_data::{Boxed, Items};

/// The bytes of a name, which contracts see as a list.
pub type ByteList = Items<u8>;

/// A routing expression: it joins pairs of live cells, along the fields of cells. (Klarlund and Schwartzbach, POPL 1993.)
///
/// A route may be as long and as deep as memory allows: it is dropped by a loop. Only `Debug` recurses.
#[derive(Debug)]
pub enum Route {
    /// `f`: from a cell to the cell that its field of this name holds.
    Down(ByteList),
    /// `^f`: the inverse of `Down` of the same name.
    Up(ByteList),
    /// `^`: the inverse of all data fields together.
    UpAny,
    /// `root`: a cell to which no data field leads, to itself.
    Root,
    /// `$`: a cell whose data fields are all null, to itself.
    Leaf,
    /// `@T`: a cell of the type, to itself.
    IsType(TypeId),
    /// `@T:v`: a cell of the variant, to itself.
    IsVariant(VariantId),
    /// `?f` and `!f`: a cell with a bool field of this name that is true (`?`) or false (`!`), to itself.
    IsBool(ByteList, bool),
    /// `R.S`: one after the other.
    Then(Boxed<Route>, Boxed<Route>),
    /// `R+S`: either.
    Or(Boxed<Route>, Boxed<Route>),
    /// `R*`: finitely many of R one after the other, none included.
    Star(Boxed<Route>),
}

impl Route {
    /// What is left to drop of a route with the parts `self`, which was moved out of the box `left`, and `right`. The box,
    /// which holds a step in its place, is used again, so that no memory is taken.
    #[cycle(dropping)]
    fn turned(self, mut left: Boxed<Route>, right: Boxed<Route>) -> Route
        requires { dropping_rank left ≡ 0 }
        ensures { turning_weight result < 2 * turning_weight self + turning_weight right + 1 }
    {
        match self {
            Route::Then(first, second) | Route::Or(first, second) => {
                let _placeholder = left.replace(Route::Then(second, right));
                Route::Then(first, left)
            }
            Route::Star(round) => {
                let _placeholder = left.into_inner();
                Route::Then(round, right)
            }
            Route::Down(_)
            | Route::Up(_)
            | Route::UpAny
            | Route::Root
            | Route::Leaf
            | Route::IsType(_)
            | Route::IsVariant(_)
            | Route::IsBool(_, _) => {
                let _placeholder = left.into_inner();
                right.into_inner()
            }
        }
    }
}

/// Dropped by a loop, without memory: a route of two parts whose left part has parts too is turned to the right, until its
/// left part has none.
impl Drop for Route {
    #[cycle(dropping)]
    fn drop(mut self) {
        loop {
            match self {
                Route::Then(mut left, right) | Route::Or(mut left, right) => {
                    let inner = left.replace(Route::UpAny);
                    self = inner.turned(left, right);
                }
                Route::Star(round) => self = round.into_inner(),
                Route::Down(_name) | Route::Up(_name) | Route::IsBool(_name, _) => return,
                Route::UpAny | Route::Root | Route::Leaf | Route::IsType(_) | Route::IsVariant(_) =>
                    return,
            }
        }
    }
}

/// What a field holds.
#[derive(Debug, Drop)]
pub enum FieldKind {
    /// A truth value.
    Bool,
    /// Null or a cell of the type; data fields span the backbone.
    Data(TypeId),
    /// Null or a cell of the type, fixed by the route.
    Pointer(TypeId, Route),
}

/// What a variable holds.
#[derive(Clone, Copy, Debug, PartialEq, Eq)]
pub enum VarKind {
    /// A truth value.
    Bool,
    /// Null or a cell of the type, a root of the backbone.
    Data(TypeId),
    /// Null or a cell of the type.
    Pointer(TypeId),
    /// A set of cells of the type, in assertions alone.
    LogicSet(TypeId),
    /// A truth value, in assertions alone.
    LogicBool,
}

/// Which variants of a type have a field.
#[derive(Clone, Copy, Debug, PartialEq, Eq)]
pub enum Owner {
    /// All of the type, those that are added later too.
    Common(TypeId),
    /// This one alone. A field of the variant without a name is one of the named variant that takes its place.
    Variant(VariantId),
}
