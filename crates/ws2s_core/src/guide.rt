//! Guides: which space each child of a node belongs to.

ghost use Rattle.std.specs.Prelude.{◌≡◌, [], ◌∷◌, IfOk, slice_get, length};
ghost use Rattle.gta_theory.specs.Guides.{IsGuide};

use plain_data::Items;
use std::alloc::{AllocError, Global};
use std::marker::Model;

/// The pair of child spaces of each space, in order.
pub type SpaceList = Items<(u32, u32)>;

/// A guide: each space has two child spaces, and space 0 belongs to the root. Contracts see the list of the pairs.
#[derive(Debug, Drop)]
pub struct Guide {
    children: SpaceList,
}

impl Model for Guide {
    ghost use Rattle.std.specs.Prelude.{List, ℕ, ◌^◌, ◌<◌, length};
    ghost use Rattle.gta_theory.specs.Guides.{IsGuide};

    ghost Value = { List (ℕ × ℕ) };

    ghost view = { λ guide. guide.children };

    ghost invariant = { λ guide. IsGuide guide.children × (length guide.children < 2 ^ 32) };
}

impl Guide {
    /// The guide with these child spaces.
    ///
    /// # Errors
    ///
    /// Want of memory, also where the spaces are more than a `u32` counts.
    pub fn new(_alloc: Global, children: SpaceList) -> Result<Guide, AllocError>
        requires { IsGuide children }
        ensures { IfOk result (λ guide. guide ≡ children) }
    {
        if children.len() > u32::MAX as usize {
            return Err(AllocError);
        }
        Ok(Guide { children })
    }

    /// The guide with one space, whose children it is itself.
    ///
    /// # Errors
    ///
    /// Want of memory.
    pub fn plain(alloc: Global) -> Result<Guide, AllocError>
        ensures { IfOk result (λ guide. guide ≡ (0, 0) ∷ []) }
    {
        Guide::new(alloc, Items::from_slice(alloc, &[(0, 0)])?)
    }

    /// How many spaces there are. Takes no memory.
    pub fn spaces(&self) -> u32
        ensures value { result ≡ length self.now }
        ensures guide { IsGuide self.now }
    {
        self.children.len() as u32
    }

    /// The child spaces of a space: of the child that 0 leads to, and of the one that 1 leads to. `None` exactly for
    /// an unknown space. Takes no memory.
    pub fn children(&self, space: u32) -> Option<(u32, u32)>
        ensures value { result ≡ slice_get self.now space }
        ensures guide { IsGuide self.now }
    {
        self.children.get(space as usize).copied()
    }
}
