//! Formulas with their free tracks.

ghost use Rattle.std.specs.Prelude.{◌≡◌, ℕ, ◌||◌, ◌==◌, IfOk, OnOk, nat_eq};
ghost use Rattle.std.specs.HashSet.{contains};
ghost use Rattle.ws2s_core.specs.Tracks.{is_free};
ghost use Rattle.ws2s_core.specs.declared.formula.Formula.TheVariants.{And, Not};
ghost use Rattle.ws2s_pass.specs.Using.{HasFree};

use std::alloc::{AllocError, Global};
use std::collections::HashSet;
use ws2s_core::{Formula, Track};

/// A formula with the numbers of its free tracks.
#[derive(Drop)]
pub struct Part {
    pub formula: Formula,
    pub free: HashSet<u32>,
    pub ghost told: { HasFree free formula },
}

/// An atom with its tracks.
pub fn atom(alloc: Global, formula: Formula, x: Track, y: Track) -> Result<Part, AllocError>
    requires { (t : ℕ) → is_free t formula ≡ (x.0 == t) || (y.0 == t) }
    ensures { IfOk result (λ made. made.formula ≡ formula) }
{
    let mut free = HashSet::new(alloc);
    insert(&mut free, x)?;
    insert(&mut free, y)?;
    Ok(Part { formula, free })
}

fn insert(tracks: &mut HashSet<u32>, x: Track) -> Result<(), AllocError>
    ensures { OnOk result ((t : ℕ) → contains nat_eq tracks.new t ≡ (x.0 == t) || contains nat_eq tracks.old t) }
{
    match tracks.insert(x.0) {
        Ok(_) => Ok(()),
        Err(_) => Err(AllocError),
    }
}

/// The conjunction of both, with the tracks of both.
pub fn conjunction(alloc: Global, left: Part, right: Part) -> Result<Part, AllocError>
    ensures { IfOk result (λ made. made.formula ≡ And left.formula right.formula) }
{
    let Part { formula, free } = left;
    let Part {
        formula: other,
        free: others,
    } = right;
    let free = union(free, others)?;
    let formula = Formula::and(alloc, formula, other)?;
    Ok(Part { formula, free })
}

/// The tracks of both sets, the smaller one put into the larger one.
fn union(left: HashSet<u32>, right: HashSet<u32>) -> Result<HashSet<u32>, AllocError>
    ensures { IfOk result (λ both. (t : ℕ) → contains nat_eq both t ≡ contains nat_eq left t || contains nat_eq right t) }
{
    let (mut both, others) = if left.len() < right.len() {
        (right, left)
    } else {
        (left, right)
    };
    add_all(&mut both, &others)?;
    Ok(both)
}

fn add_all(both: &mut HashSet<u32>, others: &HashSet<u32>) -> Result<(), AllocError>
    ensures { OnOk result ((t : ℕ) → contains nat_eq both.new t ≡ contains nat_eq both.old t || contains nat_eq others.now t) }
{
    both.extend(others.iter().copied())
}

/// The negation, which has the same tracks.
pub fn negation(alloc: Global, inner: Part) -> Result<Part, AllocError>
    ensures { IfOk result (λ made. made.formula ≡ Not inner.formula) }
{
    let Part { formula, free } = inner;
    let formula = Formula::not(alloc, formula)?;
    Ok(Part { formula, free })
}
