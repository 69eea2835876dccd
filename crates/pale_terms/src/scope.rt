//! What can be named at a place.

ghost use Rattle.std.specs.Prelude.{◌≡◌, ◌<◌, [], ◌∷◌, ◌++◌, Some, None, length, take, is_some, IfOk, IfErr, IfSome, OnOk, OnErr};
ghost use Rattle.pale_tables.specs.Faults.{IsStop};
ghost use Rattle.store_core.specs.Tables.{place_of};
ghost use Rattle.pale_terms.specs.Scopes.{visible_names, sight_of, base_of, meaning_of, visible_fault, new_name_fault, may_begin_path, may_be_set, allowed};

use crate::sort::Sort;
use indexmap::IndexMap;
use pale_syntax::Name;
use pale_text::{Refusal, RefusalKind, TextStop};
use std::alloc::{AllocError, Global};
use std::marker::Model;
use store_core::VarId;
use store_logic::Base;

/// What made a name visible.
#[derive(Clone, Copy, Debug, PartialEq, Eq)]
pub enum Origin {
    /// The declaration of a variable.
    Variable(VarId),
    /// The declaration of a predicate's parameter, counted from 0.
    Parameter(u32),
    /// A quantifier round the place.
    Quantifier,
}

/// What is visible under a name.
#[derive(Clone, Copy, Debug, PartialEq, Eq)]
pub struct Visible {
    pub origin: Origin,
    pub sort: Sort,
    /// Whether the place may name it.
    pub may: bool,
}

/// What a name stands for at a place.
#[derive(Clone, Copy, Debug, PartialEq, Eq)]
pub struct Meaning {
    pub base: Base,
    pub sort: Sort,
    /// Whether the place may name it.
    pub may: bool,
}

impl Meaning {
    /// Whether a path may begin with it. Takes no memory.
    pub fn may_begin_path(&self) -> bool
        ensures { result ≡ may_begin_path self.now }
    {
        self.may && !self.sort.is_set()
    }

    /// Whether it may stand where a set does. Takes no memory.
    pub fn may_be_set(&self) -> bool
        ensures { result ≡ may_be_set self.now }
    {
        self.may && self.sort.is_set()
    }
}

/// What can be named at a place: variables or parameters first, and then what the quantifiers round the place bind, the nearest
/// last. No name is visible twice.
#[derive(Drop)]
pub struct Scope {
    visible: IndexMap<Vec<u8>, Visible>,
}

impl Model for Scope {
    ghost use Rattle.std.specs.Prelude.{List};
    ghost use Rattle.pale_terms.specs.Visibles.{Entry, entries_of};

    ghost Value = { List Entry };

    ghost view = { λ scope. entries_of scope.visible.entries };
}

impl Scope {
    /// No name. Takes no memory.
    pub fn new(alloc: Global) -> Scope
        ensures { result ≡ [] }
    {
        Scope {
            visible: IndexMap::new(alloc),
        }
    }

    /// How many names are visible. Takes no memory.
    pub fn len(&self) -> usize
        ensures { result ≡ length self.now }
    {
        self.visible.len()
    }

    /// Whether a name is visible. Takes no memory.
    pub fn sees(&self, name: &[u8]) -> bool
        ensures { result ≡ is_some (place_of name.now (visible_names self.now)) }
    {
        self.visible.get_index_of(name).is_some()
    }

    /// What is visible under a name, and how many names became visible after it.
    fn sight(&self, name: &[u8]) -> Option<(Visible, usize)>
        ensures { result ≡ sight_of self.now name.now }
    {
        let (place, _, visible) = self.visible.get_full(name)?;
        Some((*visible, self.visible.len() - 1 - place))
    }

    /// What a name stands for. Takes no memory.
    ///
    /// # Errors
    ///
    /// `Refused` is `unknown` at a name that isn't visible. Want of memory where a bound name would count more quantifiers than
    /// 32 bits can.
    #[tactic(auto, unfolding(crate::specs::Scopes::visible_fault, crate::specs::Scopes::meaning_of))]
    pub fn find(&self, name: &Name) -> Result<Meaning, TextStop>
        ensures met { OnOk result (visible_fault self.now name.now ≡ None) }
        ensures meaning { IfOk result (λ meaning. meaning ≡ meaning_of self.now name.now) }
        ensures stop { IfErr result (IsStop (visible_fault self.now name.now)) }
    {
        let Some((visible, after)) = self.sight(name.bytes.as_slice()) else {
            return Err(TextStop::Refused(Refusal::at(name.place, RefusalKind::Unknown)));
        };
        let Some(base) = base_from(visible.origin, after) else {
            return Err(TextStop::NoMemory);
        };
        Ok(Meaning {
            base,
            sort: visible.sort,
            may: visible.may,
        })
    }

    /// Looks at a name that is to become visible. Takes no memory.
    ///
    /// # Errors
    ///
    /// `Refused` is `duplicate` at a name that is visible already.
    #[tactic(auto, unfolding(crate::specs::Scopes::new_name_fault))]
    pub fn need_new(&self, name: &Name) -> Result<(), TextStop>
        ensures met { OnOk result (new_name_fault self.now name.now ≡ None) }
        ensures new { OnOk result (place_of name.now.bytes (visible_names self.now) ≡ None) }
        ensures stop { IfErr result (IsStop (new_name_fault self.now name.now)) }
    {
        if self.sees(name.bytes.as_slice()) {
            return Err(TextStop::Refused(Refusal::at(name.place, RefusalKind::Duplicate)));
        }
        Ok(())
    }

    /// Makes a name visible that isn't yet. Want of memory changes nothing.
    pub fn add(&mut self, name: &[u8], visible: Visible) -> Result<(), AllocError>
        requires { place_of name.now (visible_names self.old) ≡ None }
        ensures added { OnOk result (self.new ≡ self.old ++ record { name = name.now; visible = visible } ∷ []) }
        ensures err { OnErr result (self.new ≡ self.old) }
    {
        let key = Vec::from_slice(*self.visible.allocator(), name)?;
        self.visible.insert(key, visible)?;
        Ok(())
    }

    /// Says whether the place may name what is visible under a name. Where nothing is, it changes nothing. Takes no memory.
    pub fn allow(&mut self, name: &[u8], may: bool)
        ensures { self.new ≡ allowed name.now may self.old }
    {
        let Some(place) = self.visible.get_index_of(name) else {
            return;
        };
        let Some(visible) = self.visible.get_index_mut(place) else {
            unreachable!()
        };
        visible.may = may;
    }

    /// Leaves so many names visible, those that became visible first. Takes no memory.
    pub fn close(&mut self, count: usize)
        ensures { self.new ≡ take count self.old }
    {
        self.visible.truncate(count);
    }
}

/// What is known by its origin, with so many names between. `None` where that is more than 32 bits can count.
fn base_from(origin: Origin, after: usize) -> Option<Base>
    ensures { IfSome result (λ base. base ≡ base_of origin after) }
{
    match origin {
        Origin::Variable(var) => Some(Base::Var(var)),
        Origin::Parameter(number) => Some(Base::Param(number)),
        Origin::Quantifier => match u32::try_from(after) {
            Ok(between) => Some(Base::Bound(between)),
            Err(_) => None,
        },
    }
}
