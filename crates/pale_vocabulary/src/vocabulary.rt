//! What assertions may use, and what a program declares.

ghost use Rattle.std.specs.Prelude.{◌≡◌, [], ◌∷◌, ◌++◌, None, length, OnOk, OnErr};
ghost use Rattle.store_core.specs.Tables.{place_of};
ghost use Rattle.pale_vocabulary.specs.Heads.{head_names, params_at};

use indexmap::IndexMap;
use pale_tables::TypeNames;
use pale_terms::Sort;
use plain_data::Items;
use std::alloc::{AllocError, Global};
use std::marker::Model;
use store_core::TypeTable;
use store_expand::SizedPreds;

/// The predicates that are declared, each with the sorts of its parameters. The place of one, counted from 0, is its number.
#[derive(Drop)]
pub struct PredHeads {
    heads: IndexMap<Vec<u8>, Items<Sort>>,
}

impl Model for PredHeads {
    ghost use Rattle.std.specs.Prelude.{List};
    ghost use Rattle.pale_vocabulary.specs.Heads.{Head, heads_of};

    ghost Value = { List Head };

    ghost view = { λ preds. heads_of preds.heads.entries };
}

impl PredHeads {
    /// No predicate. Takes no memory.
    pub fn new(alloc: Global) -> PredHeads
        ensures { result ≡ [] }
    {
        PredHeads {
            heads: IndexMap::new(alloc),
        }
    }

    /// How many predicates there are. Takes no memory.
    pub fn len(&self) -> usize
        ensures { result ≡ length self.now }
    {
        self.heads.len()
    }

    /// The place of the predicate of this name; `None` exactly where there is none. Takes no memory.
    pub fn find(&self, name: &[u8]) -> Option<usize>
        ensures { result ≡ place_of name.now (head_names self.now) }
    {
        self.heads.get_index_of(name)
    }

    /// The sorts of the parameters of a predicate; none past the last. Takes no memory.
    pub fn params(&self, place: usize) -> &[Sort]
        ensures { result.now ≡ params_at self.now place }
    {
        match self.heads.get_index(place) {
            Some((_, params)) => params.as_slice(),
            None => &[],
        }
    }

    /// Adds a predicate at the end, of a name that is new. Want of memory changes nothing.
    pub fn add(&mut self, name: &[u8], params: Items<Sort>) -> Result<(), AllocError>
        requires { place_of name.now (head_names self.old) ≡ None }
        ensures added { OnOk result (self.new ≡ self.old ++ record { name = name.now; params = params } ∷ []) }
        ensures err { OnErr result (self.new ≡ self.old) }
    {
        let key = Vec::from_slice(*self.heads.allocator(), name)?;
        self.heads.insert(key, params)?;
        Ok(())
    }
}

/// What assertions may use: the types, the names that routes follow and test, and the predicates.
#[derive(Drop)]
pub struct Vocabulary {
    pub types: TypeTable,
    pub names: TypeNames,
    pub preds: PredHeads,
}

/// What a program declares besides its procedures: what assertions may use, and the predicates with their bodies.
#[derive(Drop)]
pub struct Declared {
    pub vocabulary: Vocabulary,
    /// In each body predicates stand as uses of those before it.
    pub preds: SizedPreds,
}
