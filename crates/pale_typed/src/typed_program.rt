//! A typed program.

ghost use Rattle.std.specs.Prelude.{◌≡◌, length, option_map, slice_get};

use crate::typed::{ProcEntry, TypedProc};
use plain_data::{Items, at};
use std::marker::Model;
use store_core::{TypeTable, VarTable};

/// A program without a fault: its types, and its procedures in order of the text, each with its variables. The place of one,
/// counted from 0, is its number.
#[derive(Drop)]
pub struct Typed {
    types: TypeTable,
    procs: Items<ProcEntry>,
}

impl Model for Typed {
    ghost use Rattle.std.specs.Coded.{codes};
    ghost use Rattle.store_core.specs.contracts.kind.Route as route;
    ghost use Rattle.store_logic.specs.contracts.assertion.Assertion as assertion;
    ghost use Rattle.store_logic.specs.contracts.cond.Cond as cond;
    ghost use Rattle.pale_typed.specs.contracts.typed.Stmt as stmt;
    ghost use Rattle.pale_typed.specs.TypedPrograms.{TypedProgram};

    ghost Value = { TypedProgram };

    ghost coded = { Prim.hlevel (codes, route.the_row.coded, assertion.the_row.coded, cond.the_row.coded, stmt.the_row.coded) };

    ghost view = { λ typed. record { types = typed.types; procs = typed.procs } };
}

impl Typed {
    /// These types and procedures. Takes no memory.
    pub fn new(types: TypeTable, procs: Items<ProcEntry>) -> Typed
        ensures { result ≡ record { types = types; procs = procs } }
    {
        Typed { types, procs }
    }

    /// The types. Takes no memory.
    pub fn types(&self) -> &TypeTable
        ensures { result.now ≡ self.now.types }
    {
        &self.types
    }

    /// How many procedures it has. Takes no memory.
    pub fn procs(&self) -> usize
        ensures { result ≡ length self.now.procs }
    {
        self.procs.len()
    }

    /// The procedure with this number; `None` exactly for an unknown one.
    fn entry(&self, proc: u32) -> Option<&ProcEntry>
        ensures { option_map (λ entry. entry.now) result ≡ slice_get self.now.procs proc }
    {
        at(self.procs.as_slice(), proc as usize)
    }

    /// The variables of a procedure; `None` exactly for an unknown one. Takes no memory.
    pub fn vars(&self, proc: u32) -> Option<&VarTable>
        ensures { option_map (λ vars. vars.now) result ≡ option_map (λ entry. entry.vars) (slice_get self.now.procs proc) }
    {
        let entry = self.entry(proc)?;
        Some(&entry.vars)
    }

    /// A procedure; `None` exactly for an unknown one. Takes no memory.
    pub fn proc(&self, proc: u32) -> Option<&TypedProc>
        ensures { option_map (λ it. it.now) result ≡ option_map (λ entry. entry.proc) (slice_get self.now.procs proc) }
    {
        let entry = self.entry(proc)?;
        Some(&entry.proc)
    }
}
