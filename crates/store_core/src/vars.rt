//! The table of variables.

ghost use Rattle.std.specs.Prelude.{◌≡◌, ◌<◌, [], length, None, IfOk, OnOk, OnErr, option_map};
ghost use Rattle.std.specs.Option.{option_copied};
ghost use Rattle.store_core.specs.Tables as tables;
ghost use Rattle.store_core.specs.Tables.{var_at, var_named, IsVarTable};

use crate::ids::VarId;
use crate::kind::VarKind;
use indexmap::IndexMap;
use std::alloc::{AllocError, Global};
use std::marker::Model;

/// The variables of a procedure in the order of their declaration.
#[derive(Drop)]
pub struct VarTable {
    /// What each variable holds under its name; its place is its number.
    vars: IndexMap<Vec<u8>, VarKind>,
}

impl Model for VarTable {
    ghost use Rattle.std.specs.Prelude.{List};
    ghost use Rattle.store_core.specs.Tables.{VarEntry, IsVarTable};

    ghost Value = { List VarEntry };

    ghost use Rattle.store_core.specs.VarBodies.{vars_of};

    ghost view = { λ t. vars_of t.vars.entries };

    ghost invariant = { λ t. IsVarTable (vars_of t.vars.entries) };
}

impl VarTable {
    /// No variable. Takes no memory.
    pub fn new(alloc: Global) -> VarTable
        ensures { result ≡ [] }
    {
        VarTable {
            vars: IndexMap::new(alloc),
        }
    }

    /// Adds a variable at the end. The name is new, and there are fewer than 4,294,967,295 variables.
    pub fn add(&mut self, name: &[u8], kind: VarKind) -> Result<VarId, AllocError>
        requires new { var_named self.old name.now ≡ None }
        requires room { length self.old < 4294967295 }
        ensures value { IfOk result (λ v. v.0 ≡ length self.old) }
        ensures added { OnOk result (self.new ≡ tables.add_var self.old name.now kind) }
        ensures err { OnErr result (self.new ≡ self.old) }
    {
        let index = self.vars.len();
        let key = Vec::from_slice(*self.vars.allocator(), name)?;
        self.vars.insert(key, kind)?;
        Ok(VarId(index as u32))
    }

    /// How many variables there are. Takes no memory.
    pub fn vars(&self) -> u32
        ensures value { result ≡ length self.now }
        ensures inside { IsVarTable self.now }
    {
        self.vars.len() as u32
    }

    /// The variable of this name; `None` exactly where no variable has it. Takes no memory.
    pub fn find(&self, name: &[u8]) -> Option<VarId>
        ensures { result ≡ var_named self.now name.now }
    {
        match self.vars.get_index_of(name) {
            Some(index) => Some(VarId(index as u32)),
            None => None,
        }
    }

    /// The name of a variable; `None` exactly for an unknown number. Takes no memory.
    pub fn name(&self, v: VarId) -> Option<&[u8]>
        ensures { option_map (λ name. name.now) result ≡ option_map (λ entry. entry.name) (var_at self.now v) }
    {
        let (name, _) = self.vars.get_index(v.0 as usize)?;
        Some(name.as_slice())
    }

    /// What a variable holds; `None` exactly for an unknown number. Takes no memory.
    pub fn kind(&self, v: VarId) -> Option<&VarKind>
        ensures { option_copied result ≡ option_map (λ entry. entry.kind) (var_at self.now v) }
    {
        let (_, kind) = self.vars.get_index(v.0 as usize)?;
        Some(kind)
    }
}
