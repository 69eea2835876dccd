//! How many nodes a route has.

ghost use Rattle.std.specs.Prelude.{◌≡◌, ◌≤◌, ◌-◌, map, nat_le, SomeIff};
ghost use Rattle.pale_tables.specs.Sizes.{route_size, others_size};

use pale_syntax::Route;

/// The most nodes that a route may have.
const MOST_NODES: usize = 1024;

/// What is left of so many nodes behind the parts of a chain after its first and what joins them; `None` where they are more.
#[cycle(sizes)]
fn left_behind_others(most: usize, others: &[Route]) -> Option<usize>
    ensures { SomeIff result (others_size (map route_size others.now) ≤ most) (most - others_size (map route_size others.now)) }
{
    let mut left = most;
    for route in others {
        left = left_behind(left.checked_sub(1)?, route)?;
    }
    Some(left)
}

/// What is left of so many nodes behind those of the route; `None` where it has more.
#[cycle(sizes)]
#[tactic(auto, using(crate::proofs::SizeLemmas::sizes))]
fn left_behind(most: usize, route: &Route) -> Option<usize>
    ensures { SomeIff result (route_size route.now ≤ most) (most - route_size route.now) }
{
    match route {
        Route::Then(first, others) | Route::Or(first, others) => {
            let left = left_behind(most, first.get())?;
            left_behind_others(left, others.as_slice())
        }
        Route::Star(round, stars) => {
            let left = left_behind(most, round.get())?;
            left.checked_sub(stars.len())
        }
        Route::Down(_) | Route::Up(_) => most.checked_sub(1),
        Route::UpAny | Route::Root | Route::Leaf => most.checked_sub(1),
        Route::IsType(_) | Route::IsVariant(_, _) | Route::IsBool(_, _) => most.checked_sub(1),
    }
}

/// Whether a route has at most 1,024 nodes. Looks at no more of them than at one more than that, and takes no memory.
pub fn is_small(route: &Route) -> bool
    ensures { result ≡ nat_le (route_size route.now) 1024 }
{
    left_behind(MOST_NODES, route).is_some()
}
