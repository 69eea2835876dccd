//! How many pairs of child states automata have, and how many places.

ghost use Rattle.std.specs.Prelude.{◌≡◌, ◌≤◌, ◌-◌, ◌^◌, ℕ, min};
ghost use Rattle.std.specs.List.{sum_by};
ghost use Rattle.bdd_nodes.specs.Shelf.{Contents};
ghost use Rattle.gta_theory.specs.Guides.{Spaces};
ghost use Rattle.gta_core.specs.Sizes.{IsSized};
ghost use Rattle.gta_keep.specs.Places.{places_in};

use gta_core::{Auto, Part};

/// How many pairs of child states the automaton has in all its spaces, or the greatest number where there are more. Its
/// Size counts each of them. Takes no memory.
pub fn pairs_of(a: &Auto) -> u64
    ensures { (g : Spaces) (shelf : Contents) (size : ℕ) → IsSized g shelf (a.now, size) → result ≤ size }
{
    let mut pairs = 0_u64;
    for part in a.parts() {
        let (left, right) = part.children;
        let at_left = a.states(left).unwrap_or(0);
        let at_right = a.states(right).unwrap_or(0);
        pairs = pairs.saturating_add(u64::from(at_left) * u64::from(at_right));
    }
    pairs
}

/// How many places the automaton has: the numbers that its parts keep, which are their rows, columns and cells. The greatest
/// number where there are more. When automata are let go of depends on it, and no other clause does. Takes no memory.
pub fn places_of(a: &Auto) -> u64
    ensures { result ≡ min (sum_by places_in a.now.parts) (2 ^ 64 - 1) }
{
    let mut places = 0_u64;
    for part in a.parts() {
        places = places.saturating_add(part_places(part));
    }
    places
}

/// How many places the part has, or the greatest number where there are more.
fn part_places(part: &Part) -> u64
    ensures { result ≡ min (places_in part.now) (2 ^ 64 - 1) }
{
    let classes = (part.rows.len() as u64).saturating_add(part.columns.len() as u64);
    classes.saturating_add(part.cells.len() as u64)
}
