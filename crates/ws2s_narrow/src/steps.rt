//! A formula's forms, each after its parts.

ghost use Rattle.std.specs.Prelude.{◌≡◌, ◌∷◌, [], ◌++◌, ℕ, ◌||◌, ◌==◌, List, Some, IsSome, IfOk, OnOk, map, reverse};
ghost use Rattle.ws2s_core.specs.Postfix.{applied};
ghost use Rattle.ws2s_core.specs.Tracks.{is_free};
ghost use Rattle.ws2s_core.specs.declared.formula.Formula.TheVariants.{Ex2};
ghost use Rattle.ws2s_core.specs.declared.postfix.Symbol.{Symbol};
ghost use Rattle.ws2s_narrow.specs.Reading.{atom_of, LeadTo};
ghost use Rattle.ws2s_narrow.specs.declared.sharing.Read.{Read};

use crate::pending::Waiting;
use crate::sharing::{Read, Sharing, shares_of};
use std::alloc::{AllocError, Global};
use ws2s_core::{Formula, Symbol, Track, symbols_of};
use ws2s_pass::{Part, atom, conjunction, negation};

/// A form of a formula, with what quantifiers must know of it.
#[derive(Drop)]
pub enum Step {
    Atom(Symbol),
    And(Sharing),
    Not,
    Ex2(Waiting),
}

/// The steps of a formula, each after those of its parts.
pub(crate) fn steps_of(alloc: Global, formula: &Formula) -> Result<Vec<Step>, AllocError>
    ensures { IfOk result (λ steps. LeadTo (reverse steps.items) (formula.now ∷ [])) }
{
    let symbols = symbols_of(alloc, formula)?;
    let mut parts = Vec::new(alloc);
    let mut steps = Vec::new(alloc);
    for symbol in symbols.as_slice() {
        read(alloc, &mut parts, &mut steps, *symbol)?;
    }
    Ok(steps)
}

/// Puts what a symbol makes of the last parts in their place, and its step at the end.
fn read(
    alloc: Global,
    parts: &mut Vec<Read>,
    steps: &mut Vec<Step>,
    symbol: Symbol,
) -> Result<(), AllocError>
    requires { IsSome (applied symbol (map (λ (read : Read). read.part.formula) (reverse parts.old.items))) }
    ensures made { OnOk result (applied symbol (map (λ (read : Read). read.part.formula) (reverse parts.old.items))
        ≡ Some (map (λ (read : Read). read.part.formula) (reverse parts.new.items))) }
    ensures leads { OnOk result (LeadTo (reverse steps.old.items) (map (λ (read : Read). read.part.formula) (reverse parts.old.items))
        → LeadTo (reverse steps.new.items) (map (λ (read : Read). read.part.formula) (reverse parts.new.items))) }
{
    match symbol {
        Symbol::Sub(x, y) => read_atom(alloc, parts, steps, symbol, Formula::Sub(x, y), x, y),
        Symbol::Single(x) => read_atom(alloc, parts, steps, symbol, Formula::Single(x), x, x),
        Symbol::Succ0(x, y) => read_atom(alloc, parts, steps, symbol, Formula::Succ0(x, y), x, y),
        Symbol::Succ1(x, y) => read_atom(alloc, parts, steps, symbol, Formula::Succ1(x, y), x, y),
        Symbol::Root(x) => read_atom(alloc, parts, steps, symbol, Formula::Root(x), x, x),
        Symbol::And => read_and(alloc, parts, steps),
        Symbol::Not => read_not(alloc, parts, steps),
        Symbol::Ex2(t) => read_ex2(alloc, parts, steps, t),
    }
}

fn read_atom(
    alloc: Global,
    parts: &mut Vec<Read>,
    steps: &mut Vec<Step>,
    symbol: Symbol,
    formula: Formula,
    x: Track,
    y: Track,
) -> Result<(), AllocError>
    requires atom { atom_of symbol ≡ Some formula }
    requires free { (t : ℕ) → is_free t formula ≡ (x.0 == t) || (y.0 == t) }
    ensures made { OnOk result (map (λ (read : Read). read.part.formula) (reverse parts.new.items)
        ≡ formula ∷ map (λ (read : Read). read.part.formula) (reverse parts.old.items)) }
    ensures leads { OnOk result (LeadTo (reverse steps.old.items) (map (λ (read : Read). read.part.formula) (reverse parts.old.items))
        → LeadTo (reverse steps.new.items) (map (λ (read : Read). read.part.formula) (reverse parts.new.items))) }
{
    let part = atom(alloc, formula, x, y)?;
    parts.push(Read { part, atoms: 1 })?;
    steps.push(Step::Atom(symbol))?;
    Ok(())
}

fn read_and(alloc: Global, parts: &mut Vec<Read>, steps: &mut Vec<Step>) -> Result<(), AllocError>
    requires { IsSome (applied Symbol.And (map (λ (read : Read). read.part.formula) (reverse parts.old.items))) }
    ensures made { OnOk result (applied Symbol.And (map (λ (read : Read). read.part.formula) (reverse parts.old.items))
        ≡ Some (map (λ (read : Read). read.part.formula) (reverse parts.new.items))) }
    ensures leads { OnOk result (LeadTo (reverse steps.old.items) (map (λ (read : Read). read.part.formula) (reverse parts.old.items))
        → LeadTo (reverse steps.new.items) (map (λ (read : Read). read.part.formula) (reverse parts.new.items))) }
{
    let right = parts.pop().unwrap();
    let left = parts.pop().unwrap();
    let shares = shares_of(alloc, &left, &right)?;
    let atoms = left.atoms.saturating_add(right.atoms);
    let part = conjunction(alloc, left.part, right.part)?;
    parts.push(Read { part, atoms })?;
    steps.push(Step::And(shares))?;
    Ok(())
}

fn read_not(alloc: Global, parts: &mut Vec<Read>, steps: &mut Vec<Step>) -> Result<(), AllocError>
    requires { IsSome (applied Symbol.Not (map (λ (read : Read). read.part.formula) (reverse parts.old.items))) }
    ensures made { OnOk result (applied Symbol.Not (map (λ (read : Read). read.part.formula) (reverse parts.old.items))
        ≡ Some (map (λ (read : Read). read.part.formula) (reverse parts.new.items))) }
    ensures leads { OnOk result (LeadTo (reverse steps.old.items) (map (λ (read : Read). read.part.formula) (reverse parts.old.items))
        → LeadTo (reverse steps.new.items) (map (λ (read : Read). read.part.formula) (reverse parts.new.items))) }
{
    let Read { part, atoms } = parts.pop().unwrap();
    let part = negation(alloc, part)?;
    parts.push(Read { part, atoms })?;
    steps.push(Step::Not)?;
    Ok(())
}

fn read_ex2(
    alloc: Global,
    parts: &mut Vec<Read>,
    steps: &mut Vec<Step>,
    track: Track,
) -> Result<(), AllocError>
    requires { IsSome (applied (Symbol.Ex2 track) (map (λ (read : Read). read.part.formula) (reverse parts.old.items))) }
    ensures made { OnOk result (applied (Symbol.Ex2 track) (map (λ (read : Read). read.part.formula) (reverse parts.old.items))
        ≡ Some (map (λ (read : Read). read.part.formula) (reverse parts.new.items))) }
    ensures leads { OnOk result (LeadTo (reverse steps.old.items) (map (λ (read : Read). read.part.formula) (reverse parts.old.items))
        → LeadTo (reverse steps.new.items) (map (λ (read : Read). read.part.formula) (reverse parts.new.items))) }
{
    let Read { part, atoms } = parts.pop().unwrap();
    let used = part.free.contains(&track.0);
    let part = bound(alloc, track, part)?;
    parts.push(Read { part, atoms })?;
    steps.push(Step::Ex2(Waiting { track, used }))?;
    Ok(())
}

/// The part with the track quantified.
fn bound(alloc: Global, track: Track, part: Part) -> Result<Part, AllocError>
    ensures { IfOk result (λ made. made.formula ≡ Ex2 track part.formula) }
{
    let Part { formula, mut free } = part;
    free.remove(&track.0);
    let formula = Formula::ex2(alloc, track, formula)?;
    Ok(Part { formula, free })
}
