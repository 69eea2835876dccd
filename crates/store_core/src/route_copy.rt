//! Copies of routes.

ghost use Rattle.std.specs.Prelude.{◌≡◌, ◌<◌, ◌++◌, ◌∷◌, length, Some, IfOk, OnOk, IsSome, map, reverse};
ghost use Rattle.store_core.specs.declared.kind.Route.{Route, out-Route};
ghost use Rattle.store_core.specs.Postfix.{form_of, parts_of, postfix_of, applied};

use crate::kind::{ByteList, Route};
use plain_data::Boxed;
use std::alloc::{AllocError, Global};

impl Route {
    /// An equal route, by loops, however deep the route is.
    pub fn copy(&self, alloc: Global) -> Result<Route, AllocError>
        ensures { IfOk result (λ copy. copy ≡ self.now) }
    {
        let forms = in_postfix(alloc, self)?;
        let mut routes = Vec::new(alloc);
        for form in forms.as_slice() {
            apply(alloc, &mut routes, *form)?;
        }
        let copy = routes.pop().unwrap();
        Ok(copy)
    }
}

/// The route and its parts, each after its own parts.
fn in_postfix<'a>(alloc: Global, route: &'a Route) -> Result<Vec<&'a Route>, AllocError>
    ensures { IfOk result (λ forms. map (λ form. form_of form.now) forms.items ≡ postfix_of route.now) }
{
    let mut pending = Vec::new(alloc);
    pending.push(route)?;
    let mut forms = Vec::new(alloc);
    while let Some(next) = pending.pop() {
        forms.push(next)?;
        push_parts(&mut pending, next)?;
    }
    forms.reverse();
    Ok(forms)
}

/// Puts the parts of a route at the end of those that are still to be gone through.
fn push_parts<'a>(pending: &mut Vec<&'a Route>, route: &'a Route) -> Result<(), AllocError>
    ensures { OnOk result (map (λ part. part.now) pending.new.items
        ≡ map (λ part. part.now) pending.old.items ++ parts_of Route (out-Route route.now)) }
{
    match route {
        Route::Then(first, second) | Route::Or(first, second) => {
            pending.push(first.get())?;
            pending.push(second.get())?;
        }
        Route::Star(round) => pending.push(round.get())?,
        _ => {}
    }
    Ok(())
}

/// Takes the last two routes.
fn take_two(
    alloc: Global,
    routes: &mut Vec<Route>,
) -> Result<(Boxed<Route>, Boxed<Route>), AllocError>
    requires { 1 < length routes.old.items }
    ensures { IfOk result (λ two. reverse routes.old.items ≡ two.1 ∷ two.0 ∷ reverse routes.new.items) }
{
    let second = Boxed::new(alloc, routes.pop().unwrap())?;
    let first = Boxed::new(alloc, routes.pop().unwrap())?;
    Ok((first, second))
}

/// Puts the route of this form, with the last routes as its parts, in their place.
fn apply(alloc: Global, routes: &mut Vec<Route>, form: &Route) -> Result<(), AllocError>
    requires { IsSome (applied (form_of form.now) (reverse routes.old.items)) }
    ensures { OnOk result (applied (form_of form.now) (reverse routes.old.items) ≡ Some (reverse routes.new.items)) }
{
    let route = match form {
        Route::Down(name) => Route::Down(ByteList::from_slice(alloc, name.as_slice())?),
        Route::Up(name) => Route::Up(ByteList::from_slice(alloc, name.as_slice())?),
        Route::UpAny => Route::UpAny,
        Route::Root => Route::Root,
        Route::Leaf => Route::Leaf,
        Route::IsType(ty) => Route::IsType(*ty),
        Route::IsVariant(v) => Route::IsVariant(*v),
        Route::IsBool(name, truth) => Route::IsBool(
            ByteList::from_slice(alloc, name.as_slice())?,
            *truth,
        ),
        Route::Then(_, _) => {
            let (first, second) = take_two(alloc, routes)?;
            Route::Then(first, second)
        }
        Route::Or(_, _) => {
            let (one, other) = take_two(alloc, routes)?;
            Route::Or(one, other)
        }
        Route::Star(_) => Route::Star(Boxed::new(alloc, routes.pop().unwrap())?),
    };
    routes.push(route)?;
    Ok(())
}
