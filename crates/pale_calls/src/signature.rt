//! Procedures as calls see them.

ghost use Rattle.std.specs.Prelude.{◌≡◌, [], ◌∷◌, ◌++◌, None, OnOk, OnErr, option_map, slice_get};
ghost use Rattle.std.specs.Option.{option_copied};
ghost use Rattle.pale_calls.specs.Signatures.{number_of};

use crate::class::VarClass;
use indexmap::IndexMap;
use plain_data::Items;
use std::alloc::{AllocError, Global};
use std::marker::Model;
use store_core::TypeId;

/// What a parameter, a result or a logic variable is declared as.
#[derive(Clone, Copy, Debug, PartialEq, Eq)]
pub struct Formal {
    pub class: VarClass,
    /// The type of its cells. `None` for a truth value, and where the type that it names isn't there.
    pub ty: Option<TypeId>,
}

/// What a procedure declares for its callers.
#[derive(Debug, Drop)]
pub struct Signature {
    pub params: Items<Formal>,
    pub results: Items<Formal>,
    pub logics: Items<Formal>,
}

/// The procedures of a program, each under its name. The place of one, counted from 0, is its number.
#[derive(Drop)]
pub struct Procedures {
    signatures: IndexMap<Vec<u8>, Signature>,
}

impl Model for Procedures {
    ghost use Rattle.std.specs.Prelude.{List};
    ghost use Rattle.pale_calls.specs.Signatures.{Named, signatures_of};

    ghost Value = { List Named };

    ghost view = { λ procedures. signatures_of procedures.signatures.entries };
}

impl Procedures {
    /// No procedure. Takes no memory.
    pub fn new(alloc: Global) -> Procedures
        ensures { result ≡ [] }
    {
        Procedures {
            signatures: IndexMap::new(alloc),
        }
    }

    /// Adds a procedure of a name that is new. Want of memory changes nothing.
    pub fn add(&mut self, name: &[u8], signature: Signature) -> Result<(), AllocError>
        requires { number_of self.old name.now ≡ None }
        ensures added { OnOk result (self.new ≡ self.old ++ record { name = name.now; signature = signature } ∷ []) }
        ensures err { OnErr result (self.new ≡ self.old) }
    {
        let key = Vec::from_slice(*self.signatures.allocator(), name)?;
        self.signatures.insert(key, signature)?;
        Ok(())
    }

    /// The number of the procedure of this name; `None` exactly where there is none. Takes no memory.
    pub fn find(&self, name: &[u8]) -> Option<usize>
        ensures { result ≡ number_of self.now name.now }
    {
        self.signatures.get_index_of(name)
    }

    /// What the procedure with this number declares; `None` exactly for an unknown one. Takes no memory.
    pub fn signature(&self, number: usize) -> Option<&Signature>
        ensures { option_copied result ≡ option_map (λ p. p.signature) (slice_get self.now number) }
    {
        let (_, signature) = self.signatures.get_index(number)?;
        Some(signature)
    }
}
