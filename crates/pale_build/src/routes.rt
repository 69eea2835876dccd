//! What is made of routes.

ghost use Rattle.std.specs.Prelude.{◌≡◌, OnOk};
ghost use Rattle.pale_syntax.specs.MakingRoutes.{after_route, tested_type};
ghost use Rattle.pale_build.specs.Building.{parts_of};
ghost use Rattle.pale_text.specs.Near.{near_of};

use crate::chains::{joined_or, joined_then, starred};
use crate::names::nameless;
use crate::parts::Parts;
use crate::takes::{take_name, take_route};
use pale_syntax::{Name, Route, RouteAct};
use pale_text::{Near, place_of};
use std::alloc::{AllocError, Global};

/// The type for which the route is a test.
fn tested_type(alloc: Global, test: Route) -> Name
    ensures { result ≡ tested_type test }
{
    match test {
        Route::IsType(name) => name,
        other => {
            drop(other);
            nameless(alloc)
        }
    }
}

impl Parts {
    pub fn perform_route(&mut self, act: RouteAct, near: Near) -> Result<(), AllocError>
        ensures { OnOk result (parts_of self.new ≡ after_route act (near_of near.entry) (parts_of self.old)) }
    {
        match act {
            RouteAct::Down => {
                let name = take_name(self.alloc, &mut self.names);
                self.routes.push(Route::Down(name))
            }
            RouteAct::UpAny => self.routes.push(Route::UpAny),
            RouteAct::NameUp => {
                drop(take_route(&mut self.routes));
                let name = take_name(self.alloc, &mut self.names);
                self.routes.push(Route::Up(name))
            }
            RouteAct::Leaf => self.routes.push(Route::Leaf),
            RouteAct::Root => self.routes.push(Route::Root),
            RouteAct::IsType => {
                let name = take_name(self.alloc, &mut self.names);
                self.routes.push(Route::IsType(name))
            }
            RouteAct::NarrowToVariant => {
                let test = take_route(&mut self.routes);
                let ty = tested_type(self.alloc, test);
                let variant = take_name(self.alloc, &mut self.names);
                self.routes.push(Route::IsVariant(ty, variant))
            }
            RouteAct::IsTrue => {
                let name = take_name(self.alloc, &mut self.names);
                self.routes.push(Route::IsBool(name, true))
            }
            RouteAct::IsFalse => {
                let name = take_name(self.alloc, &mut self.names);
                self.routes.push(Route::IsBool(name, false))
            }
            RouteAct::JoinThen => {
                let other = take_route(&mut self.routes);
                let one = take_route(&mut self.routes);
                let made = joined_then(self.alloc, one, other)?;
                self.routes.push(made)
            }
            RouteAct::JoinOr => {
                let other = take_route(&mut self.routes);
                let one = take_route(&mut self.routes);
                let made = joined_or(self.alloc, one, other)?;
                self.routes.push(made)
            }
            RouteAct::AddStar => {
                let one = take_route(&mut self.routes);
                let made = starred(self.alloc, one, place_of(near.last))?;
                self.routes.push(made)
            }
        }
    }
}
