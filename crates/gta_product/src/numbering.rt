//! Numbers for pairs of states.

ghost use Rattle.std.specs.Prelude.{◌≡◌, ◌≢◌, ◌<◌, ◌≤◌, ◌^◌, ◌++◌, ◌∷◌, ℕ, List, [], length, None, Some, IfOk, IfSome, IfNone, OnOk, slice_get};
ghost use Rattle.gta_product.specs.Numbers.{is_pair, number_in, AreNumbers, Grows};
ghost use Rattle.gta_product.specs.Indexed.{place_for, AreIndexed};

use bdd_walk::{LeafRule, StateList};
use std::alloc::{AllocError, Global};
use std::collections::HashMap;
use std::marker::Model;

/// The most numbers that there are for states.
const MOST: usize = 1 << 31;

/// How many pairs are gone over one by one. Those behind them are found by a map, which most spaces don't come to need.
const FEW: usize = 8;

/// Pairs of states in the order in which they came. The place of a pair is its number.
#[derive(Drop)]
pub(crate) struct Numbering {
    pairs: Vec<(u32, u32)>,
    /// The places of the pairs behind the first few.
    places: HashMap<(u32, u32), u32>,
}

impl Model for Numbering {
    ghost use Rattle.std.specs.Prelude.{List, ℕ};
    ghost use Rattle.gta_product.specs.Indexed.{AreIndexed};

    ghost Value = { List (ℕ × ℕ) };

    ghost view = { λ numbering. numbering.pairs.items };

    ghost invariant = { λ numbering. AreIndexed numbering.pairs.items numbering.places };
}

/// Whether the pairs are the same.
#[inline]
fn is_same(one: (u32, u32), other: (u32, u32)) -> bool
    ensures { result ≡ is_pair one other }
{
    one.0 == other.0 && one.1 == other.1
}

/// The place of a pair among the first few.
fn early_place(pairs: &[(u32, u32)], pair: (u32, u32)) -> Option<u32>
    ensures found { IfSome result (λ k. slice_get pairs.now k ≡ Some pair) }
    ensures none { IfNone result ((k : ℕ) → k < 8 → slice_get pairs.now k ≢ Some pair) }
{
    for k in 0..pairs.len().min(FEW) {
        if is_same(pair, pairs[k]) {
            return Some(k as u32);
        }
    }
    None
}

/// The place of a pair by the map, if it is there.
fn late_place(
    pairs: &[(u32, u32)],
    places: &HashMap<(u32, u32), u32>,
    pair: (u32, u32),
) -> Option<u32>
    ensures found { IfSome result (λ k. slice_get pairs.now k ≡ Some pair) }
    ensures none { IfNone result ((k : ℕ) → place_for places.now pair ≡ Some k → slice_get pairs.now k ≢ Some pair) }
{
    let place = *places.get(&pair)?;
    if is_same(pair, *pairs.get(place as usize)?) {
        return Some(place);
    }
    None
}

/// The place of a pair.
fn place_of(
    pairs: &[(u32, u32)],
    places: &HashMap<(u32, u32), u32>,
    pair: (u32, u32),
) -> Option<u32>
    requires { AreIndexed pairs.now places.now }
    ensures found { IfSome result (λ k. slice_get pairs.now k ≡ Some pair) }
    ensures none { IfNone result (number_in pairs.now pair ≡ None) }
{
    if let Some(place) = early_place(pairs, pair) {
        return Some(place);
    }
    late_place(pairs, places, pair)
}

/// Has the place of a pair that comes next found by the map, where it is behind the first few.
fn note(
    places: &mut HashMap<(u32, u32), u32>,
    pair: (u32, u32),
    place: u32,
) -> Result<(), AllocError>
    ensures kept { (pairs : List (ℕ × ℕ)) → number_in pairs pair ≡ None → AreIndexed pairs places.old → AreIndexed pairs places.new }
    ensures noted { OnOk result (8 ≤ place → place_for places.new pair ≡ Some place) }
{
    if place as usize >= FEW {
        places.insert(pair, place)?;
    }
    Ok(())
}

impl Numbering {
    /// No numbers yet, with room for so many.
    pub(crate) fn new(alloc: Global, many: usize) -> Result<Numbering, AllocError>
        ensures { IfOk result (λ numbers. numbers ≡ []) }
    {
        let pairs = Vec::with_capacity(alloc, many)?;
        Ok(Numbering {
            pairs,
            places: HashMap::new(alloc),
        })
    }

    pub(crate) fn as_slice(&self) -> &[(u32, u32)]
        ensures pairs { result.now ≡ self.now }
        ensures numbers { AreNumbers self.now }
    {
        self.pairs.as_slice()
    }

    pub(crate) fn len(&self) -> usize
        ensures value { result ≡ length self.now }
        ensures numbers { AreNumbers self.now }
    {
        self.pairs.len()
    }

    /// The number of a pair, a new one where it has none. Want of memory, also where no number is left, changes nothing.
    pub(crate) fn number(&mut self, pair: (u32, u32)) -> Result<u32, AllocError>
        ensures value { IfOk result (λ number. number_in self.new pair ≡ Some number) }
        ensures small { IfOk result (λ number. number < 2 ^ 31) }
        ensures place { IfOk result (λ number. number < length self.new) }
        ensures grows { Grows self.old self.new pair }
        ensures numbers { AreNumbers self.new }
    {
        if let Some(place) = place_of(&self.pairs, &self.places, pair) {
            return Ok(place);
        }
        if self.pairs.len() >= MOST {
            return Err(AllocError);
        }
        let place = self.pairs.len() as u32;
        note(&mut self.places, pair, place)?;
        self.pairs.push(pair)?;
        Ok(place)
    }
}

impl LeafRule for Numbering {
    ghost use Rattle.gta_product.specs.Numbers.{numbered, MayNumber};

    ghost answers = { λ pairs. numbered pairs };

    ghost may_ask = { MayNumber };

    fn leaf(&mut self, states: &StateList) -> Result<u32, AllocError> {
        let states = states.as_slice();
        self.number((states[0], states[1]))
    }
}
