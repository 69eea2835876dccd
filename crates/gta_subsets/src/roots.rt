//! The roots for states of two lists.

ghost use Rattle.std.specs.Prelude.{◌≡◌, ℕ, List, Contains, IsSome, OnOk, [], ◌∷◌, slice_get};
ghost use Rattle.std.specs.Option.{option_copied};
ghost use Rattle.gta_core.specs.Auto.{root_among};
ghost use Rattle.gta_subsets.specs.Roots.{Rooting, rooting_in, AreRoots, AddRoots};

use bdd_nodes::NodeRef;
use bdd_walk::NoMemory;
use gta_core::{Auto, Part};

/// Puts the roots that a space has for a state of each list, where the automaton's table has these roots, in the place of what
/// the list had. A root may come more than once.
pub fn roots_at(
    a: &Auto,
    table: &[NodeRef],
    space: u32,
    lefts: &[u32],
    rights: &[u32],
    roots: &mut Vec<NodeRef>,
) -> Result<(), NoMemory>
    requires { (l r : ℕ) → Contains lefts.now l → Contains rights.now r → IsSome (rooting_in a.now table.now space l r) }
    ensures { OnOk result (AreRoots (rooting_in a.now table.now space) lefts.now rights.now roots.new.items) }
{
    roots.clear();
    let Some(own) = part_in(a, space) else {
        return Ok(());
    };
    for left in lefts {
        push_roots(roots, own, table, *left, rights)?;
    }
    Ok(())
}

/// The part of a space; `None` for an unknown one.
#[inline]
fn part_in(a: &Auto, space: u32) -> Option<&Part>
    ensures { option_copied result ≡ slice_get a.now.parts space }
{
    a.parts().get(space as usize)
}

/// Puts the roots for a left state at the end.
fn push_roots(
    roots: &mut Vec<NodeRef>,
    own: &Part,
    table: &[NodeRef],
    left: u32,
    rights: &[u32],
) -> Result<(), NoMemory>
    requires { (r : ℕ) → Contains rights.now r → IsSome (root_among table.now own.now left r) }
    ensures { OnOk result (AddRoots (root_among table.now own.now) (left ∷ []) rights.now roots.old.items roots.new.items) }
{
    for right in rights {
        let Some(root) = own.root(table, left, *right) else {
            unreachable!()
        };
        roots.push(root)?;
    }
    Ok(())
}

/// Leaves each root once.
pub(crate) fn make_distinct(roots: &mut Vec<NodeRef>)
    ensures { (at : Rooting) (lefts rights : List ℕ) → AreRoots at lefts rights roots.old.items → AreRoots at lefts rights roots.new.items }
{
    roots.sort_unstable();
    roots.dedup();
}
