//! Routing expressions.

use crate::tree::names::Name;
use pale_text::Pos;
use plain_data::{Boxed, Items};

/// A routing expression, which leads from cells to cells. (Klarlund and Schwartzbach, POPL 1993.)
#[derive(Debug, Drop)]
pub enum Route {
    /// `f`: along a field.
    Down(Name),
    /// `^f`: back along a field.
    Up(Name),
    /// `^`: back along any data field.
    UpAny,
    /// `root`: the cell is where a data structure begins.
    Root,
    /// `$`: the cell has no data below it.
    Leaf,
    /// `@T`: the cell has the type.
    IsType(Name),
    /// `@T:v`: the cell has the type and its variant.
    IsVariant(Name, Name),
    /// `?f` with `true`, `!f` with `false`: the cell's bool field has this value.
    IsBool(Name, bool),
    /// `R.S.T`: one after the other. The first is no such chain.
    Then(Boxed<Route>, Items<Route>),
    /// `R+S+T`: any of them. The first is no such chain.
    Or(Boxed<Route>, Items<Route>),
    /// `R*` and `R**`: any number of times. The list has the place of each star, at least one; R is no such route.
    Star(Boxed<Route>, Items<Pos>),
}
