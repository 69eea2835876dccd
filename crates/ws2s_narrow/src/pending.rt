//! Quantifiers on their way into a formula.

ghost use Rattle.std.specs.Prelude.{◌≡◌, ◌⊎◌, ℕ, ◌<◌, ◌≤◌, ◌∷◌, [], ◌++◌, ◌&&◌, ◌==◌, List, true, Some, IfOk, OnOk, IfSome, nat_eq};
ghost use Rattle.std.specs.List.{AllByRecursion};
ghost use Rattle.std.specs.Ordering.{nat_cmp};
ghost use Rattle.std.specs.BTreeMap.{get, IsOrdered};
ghost use Rattle.std.specs.HashMap.{get as place_in};
ghost use Rattle.ws2s_narrow.specs.Pending.{has, IsPlacedIn, IsPlaced, IsSound, Quantifies, Goes, Stays, IsAmong, IsIdle, IsLeastAmong, lesser_of};
ghost use Rattle.ws2s_narrow.specs.Pending.{BeginsAmong, HandsOver, HandsIdle, idle_at};
ghost use Rattle.ws2s_narrow.specs.Waiting.{Ascends, Woven};

use crate::sharing::Sharing;
use std::alloc::{AllocError, Global};
use std::collections::{BTreeMap, HashMap};
use std::mem;
use ws2s_core::Track;

/// A quantifier that waits before a formula.
#[derive(Clone, Copy, Drop)]
pub struct Waiting {
    pub(crate) track: Track,
    /// Whether the track is free in what the quantifier stands before.
    pub(crate) used: bool,
}

/// The quantifiers that wait before a formula, by numbers that grow outwards.
#[derive(Drop)]
pub struct Pending {
    pub(crate) waiting: BTreeMap<usize, Waiting>,
    /// The numbers of those whose track is free, by their tracks. Some may have gone.
    pub(crate) places: HashMap<u32, usize>,
    /// The numbers of the others. Some may have gone.
    pub(crate) idle: Vec<usize>,
}

impl Pending {
    /// No quantifiers.
    pub(crate) fn new(alloc: Global) -> Pending
        ensures none { result.waiting.entries ≡ [] }
        ensures sound { IsSound result }
    {
        Pending {
            waiting: BTreeMap::new(alloc),
            places: HashMap::new(alloc),
            idle: Vec::new(alloc),
        }
    }

    /// Puts a quantifier before the formula, within those that wait already.
    pub(crate) fn add(&mut self, number: usize, next: Waiting) -> Result<(), AllocError>
        requires inner { AllByRecursion (λ other. number < other.0) self.old.waiting.entries }
        requires alone { next.used ≡ true → AllByRecursion (λ other. Quantifies next.track.0 other → ⊥) self.old.waiting.entries }
        requires sound { IsSound self.old }
        ensures waiting { OnOk result (self.new.waiting.entries ≡ (number, next) ∷ self.old.waiting.entries) }
        ensures sound { OnOk result (IsSound self.new) }
    {
        note(&mut self.places, &mut self.idle, number, next)?;
        self.waiting.insert(number, next)?;
        Ok(())
    }

    /// The least number of a quantifier whose track is free and among these.
    fn least_of(&self, tracks: &[u32]) -> Option<usize>
        requires { IsSound self.now }
        ensures { IsLeastAmong tracks.now self.now.waiting.entries result }
    {
        let mut least = None;
        for track in tracks {
            let place = place_of(&self.places, &self.waiting, *track);
            least = lesser(least, place);
        }
        least
    }

    /// Takes out the quantifiers that stay before a conjunction: those from the first one on whose track is free on both
    /// sides.
    pub(crate) fn take_staying(
        &mut self,
        alloc: Global,
        tracks: &[u32],
    ) -> Result<BTreeMap<usize, Waiting>, AllocError>
        requires { IsSound self.old }
        ensures parts { IfOk result (λ staying. self.old.waiting.entries ≡ self.new.waiting.entries ++ staying.entries) }
        ensures within { OnOk result (AllByRecursion (λ next. IsAmong tracks.now next → ⊥) self.new.waiting.entries) }
        ensures begins { IfOk result (λ staying. BeginsAmong tracks.now staying.entries) }
        ensures sound { OnOk result (IsSound self.new) }
    {
        match self.least_of(tracks) {
            None => Ok(BTreeMap::new(alloc)),
            Some(number) => {
                let staying = self.take_from(number)?;
                Ok(staying)
            }
        }
    }

    /// Takes out the quantifiers from a number on.
    fn take_from(&mut self, number: usize) -> Result<BTreeMap<usize, Waiting>, AllocError>
        ensures parts { IfOk result (λ staying. self.old.waiting.entries ≡ self.new.waiting.entries ++ staying.entries) }
        ensures below { OnOk result (AllByRecursion (λ next. next.0 < number) self.new.waiting.entries) }
        ensures from { IfOk result (λ staying. AllByRecursion (λ next. number ≤ next.0) staying.entries) }
        ensures ordered { IfOk result (λ staying. IsOrdered nat_cmp staying) }
        ensures places { OnOk result (self.new.places ≡ self.old.places) }
        ensures idle { OnOk result (self.new.idle ≡ self.old.idle) }
    {
        let staying = self.waiting.split_off(&number)?;
        Ok(staying)
    }

    /// Takes out the quantifiers that go into the side that has fewer atoms.
    pub(crate) fn part_with(
        &mut self,
        alloc: Global,
        shares: &Sharing,
    ) -> Result<Pending, AllocError>
        requires { IsSound self.old }
        ensures woven { IfOk result (λ gone. Woven self.old.waiting.entries self.new.waiting.entries gone.waiting.entries) }
        ensures goes { IfOk result (λ gone. AllByRecursion (Goes shares.now) gone.waiting.entries) }
        ensures stays { OnOk result (AllByRecursion (Stays shares.now) self.new.waiting.entries) }
        ensures sound { OnOk result (IsSound self.new) }
        ensures gone_sound { IfOk result IsSound }
    {
        let mut gone = Pending::new(alloc);
        self.part_with_used(shares.alone.as_slice(), &mut gone)?;
        if shares.is_left {
            return Ok(gone);
        }
        self.part_with_idle(alloc, &mut gone)?;
        Ok(gone)
    }

    fn part_with_used(&mut self, tracks: &[u32], gone: &mut Pending) -> Result<(), AllocError>
        requires sound { IsSound self.old }
        requires none { gone.old.waiting.entries ≡ [] }
        ensures woven { OnOk result (Woven self.old.waiting.entries self.new.waiting.entries gone.new.waiting.entries) }
        ensures goes { OnOk result (AllByRecursion (IsAmong tracks.now) gone.new.waiting.entries) }
        ensures stays { OnOk result (AllByRecursion (λ next. IsAmong tracks.now next → ⊥) self.new.waiting.entries) }
        ensures placed { OnOk result (IsPlaced self.new) }
        ensures gone_placed { OnOk result (IsPlaced gone.new) }
    {
        for track in tracks {
            self.hand_over(*track, gone)?;
        }
        Ok(())
    }

    fn hand_over(&mut self, track: u32, gone: &mut Pending) -> Result<(), AllocError>
        requires { Ascends self.old.waiting.entries }
        ensures hands { OnOk result (HandsOver track self.old self.new gone.old gone.new) }
    {
        match place_of(&self.places, &self.waiting, track) {
            None => Ok(()),
            Some(number) => {
                gone.places.insert(track, number)?;
                let next = self.waiting.remove(&number).unwrap();
                gone.waiting.insert(number, next)?;
                Ok(())
            }
        }
    }

    fn part_with_idle(&mut self, alloc: Global, gone: &mut Pending) -> Result<(), AllocError>
        requires placed { IsPlaced self.old }
        requires ascends { Ascends self.old.waiting.entries }
        requires gone_placed { IsPlaced gone.old }
        requires used { AllByRecursion (λ next. next.1.used ≡ true) gone.old.waiting.entries }
        ensures woven { OnOk result ((all : List (ℕ × Waiting)) → Woven all self.old.waiting.entries gone.old.waiting.entries
            → Ascends all → Woven all self.new.waiting.entries gone.new.waiting.entries) }
        ensures kept { OnOk result ((tracks : List ℕ) → AllByRecursion (λ next. IsAmong tracks next → ⊥) self.old.waiting.entries
            → AllByRecursion (λ next. IsAmong tracks next → ⊥) self.new.waiting.entries) }
        ensures stays { OnOk result (AllByRecursion (λ next. IsIdle next → ⊥) self.new.waiting.entries) }
        ensures goes { OnOk result ((tracks : List ℕ) → AllByRecursion (IsAmong tracks) gone.old.waiting.entries
            → AllByRecursion (λ next. IsIdle next ⊎ IsAmong tracks next) gone.new.waiting.entries) }
        ensures placed { OnOk result (IsPlaced self.new) }
        ensures gone_placed { OnOk result (IsPlaced gone.new) }
    {
        let idle = mem::replace(&mut self.idle, Vec::new(alloc));
        for number in idle.as_slice() {
            hand_idle(*number, &mut self.waiting, &mut gone.waiting)?;
        }
        gone.idle = idle;
        Ok(())
    }
}

/// Keeps the number of a quantifier, so that it is found.
fn note(
    places: &mut HashMap<u32, usize>,
    idle: &mut Vec<usize>,
    number: usize,
    next: Waiting,
) -> Result<(), AllocError>
    ensures found { OnOk result (IsPlacedIn (place_in nat_eq places.new) idle.new.items (number, next)) }
    ensures others { OnOk result ((other : ℕ × Waiting) → IsPlacedIn (place_in nat_eq places.old) idle.old.items other
        → (next.used ≡ true → Quantifies next.track.0 other → ⊥) → IsPlacedIn (place_in nat_eq places.new) idle.new.items other) }
{
    if next.used {
        places.insert(next.track.0, number)?;
        return Ok(());
    }
    idle.push(number)?;
    Ok(())
}

/// Lets the quantifier of the number go over, where it is idle.
fn hand_idle(
    number: usize,
    waiting: &mut BTreeMap<usize, Waiting>,
    gone: &mut BTreeMap<usize, Waiting>,
) -> Result<(), AllocError>
    ensures hands { OnOk result (HandsIdle number waiting.old.entries waiting.new.entries gone.old.entries gone.new.entries) }
{
    if is_idle(waiting, number) {
        let next = waiting.remove(&number).unwrap();
        gone.insert(number, next)?;
    }
    Ok(())
}

fn is_idle(waiting: &BTreeMap<usize, Waiting>, number: usize) -> bool
    ensures { result ≡ idle_at (get nat_cmp waiting.now number) }
{
    match waiting.get(&number) {
        Some(next) => !next.used,
        None => false,
    }
}

fn lesser(least: Option<usize>, place: Option<usize>) -> Option<usize>
    ensures { result ≡ lesser_of least place }
{
    match (least, place) {
        (Some(least), Some(number)) => Some(least.min(number)),
        (Some(least), None) => Some(least),
        (None, place) => place,
    }
}

/// The number of the quantifier of the track, where one waits whose track is free.
fn place_of(
    places: &HashMap<u32, usize>,
    waiting: &BTreeMap<usize, Waiting>,
    track: u32,
) -> Option<usize>
    requires { Ascends waiting.now.entries }
    ensures there { IfSome result (λ number. (next : Waiting) × (get nat_cmp waiting.now number ≡ Some next) × Quantifies track (number, next)) }
    ensures only { (idle : List ℕ) → AllByRecursion (IsPlacedIn (place_in nat_eq places.now) idle) waiting.now.entries
        → AllByRecursion (λ next. Quantifies track next → result ≡ Some next.0) waiting.now.entries }
{
    let number = *places.get(&track)?;
    let next = waiting.get(&number)?;
    if quantifies(*next, track) {
        return Some(number);
    }
    None
}

fn quantifies(next: Waiting, track: u32) -> bool
    ensures { result ≡ next.used && (next.track.0 == track) }
{
    next.used && next.track.0 == track
}
