//! Names of one kind.

ghost use Rattle.std.specs.Prelude.{◌≡◌, ◌<◌, [], length, None, OnOk, OnErr, IfErr};
ghost use Rattle.pale_tables.specs.Faults.{IsStop};
ghost use Rattle.store_core.specs.Tables.{place_of};
ghost use Rattle.pale_tables.specs.Names.{with_name, new_fault};

use crate::faults::need;
use indexmap::IndexMap;
use pale_syntax::Name;
use pale_text::{RefusalKind, TextStop};
use std::alloc::{AllocError, Global};
use std::marker::Model;

/// Names, each once, in the order in which they came. The place of a name counts from 0.
#[derive(Drop)]
pub struct Names {
    names: IndexMap<Vec<u8>, ()>,
}

impl Model for Names {
    ghost use Rattle.std.specs.Prelude.{ℕ, List};
    ghost use Rattle.pale_tables.specs.Names.{names_of};

    ghost Value = { List (List ℕ) };

    ghost view = { λ names. names_of names.names.entries };
}

impl Names {
    /// No name. Takes no memory.
    pub fn new(alloc: Global) -> Names
        ensures { result ≡ [] }
    {
        Names {
            names: IndexMap::new(alloc),
        }
    }

    /// How many names there are. Takes no memory.
    pub fn len(&self) -> usize
        ensures { result ≡ length self.now }
    {
        self.names.len()
    }

    /// The place of a name; `None` exactly where it isn't there. Takes no memory.
    pub fn find(&self, name: &[u8]) -> Option<usize>
        ensures { result ≡ place_of name.now self.now }
    {
        self.names.get_index_of(name)
    }

    /// Looks at a name that is to be added.
    ///
    /// # Errors
    ///
    /// `Refused` is `duplicate` at the name where it is there, and then the kind where there are as many names as may be.
    #[tactic(auto, unfolding(crate::specs::Names::new_fault))]
    pub fn need_new(&self, name: &Name, most: usize, many: RefusalKind) -> Result<(), TextStop>
        ensures met { OnOk result (new_fault most many self.now name.now ≡ None) }
        ensures new { OnOk result (place_of name.now.bytes self.now ≡ None) }
        ensures few { OnOk result (length self.now < most) }
        ensures stop { IfErr result (IsStop (new_fault most many self.now name.now)) }
    {
        let is_new = self.find(name.bytes.as_slice()).is_none();
        need(is_new, RefusalKind::Duplicate, name.place)?;
        need(self.len() < most, many, name.place)
    }

    /// Adds a name at the end, where it isn't there. Want of memory changes nothing.
    pub fn add(&mut self, name: &[u8]) -> Result<(), AllocError>
        ensures added { OnOk result (self.new ≡ with_name self.old name.now) }
        ensures err { OnErr result (self.new ≡ self.old) }
    {
        if self.find(name).is_some() {
            return Ok(());
        }
        let key = Vec::from_slice(*self.names.allocator(), name)?;
        self.names.insert(key, ())?;
        Ok(())
    }
}
