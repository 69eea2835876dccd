//! Predicates with the sizes of their bodies, which are found once.

ghost use Rattle.std.specs.Prelude.{◌≡◌, ◌≤◌, ◌↔◌, ◌++◌, ◌∷◌, IfOk, OnOk, OnErr, Err, List, []};
ghost use Rattle.store_core.specs.Tables.{TypeEntry, VarEntry};
ghost use Rattle.store_core.specs.Stores.{StoreMap};
ghost use Rattle.store_logic.specs.declared.region.Region.{Region};
ghost use Rattle.store_logic.specs.Terms.{Environment};
ghost use Rattle.store_logic.specs.Satisfaction.{Sat};
ghost use Rattle.store_logic.specs.Expansion.{expansion, IsTooBig};
ghost use Rattle.store_logic.specs.Sizes.{node_count};
ghost use Rattle.store_logic.specs.Uses.{CanExpand, uses_in};
ghost use Rattle.store_expand.specs.Sizes.{is_too_big};

use crate::expanding::{ExpandFault, expand_with};
use crate::size::{MAX_NODES, size_with};
use plain_data::Items;
use std::alloc::{AllocError, Global};
use std::marker::Model;
use store_logic::{Assertion, PredDef, Preds};

/// Predicates, each known by its place counted from 0, with how large their bodies become. A size is found once, where its
/// predicate is added; `expand` finds all of them at each call.
#[derive(Drop)]
pub struct SizedPreds {
    preds: Preds,
    /// Of each body with the predicates before it put in, up to the least that is too large.
    sizes: Vec<u64>,
}

impl Model for SizedPreds {
    ghost use Rattle.std.specs.Prelude.{◌≡◌, List};
    ghost use Rattle.store_logic.specs.declared.pred.PredDef.{PredDef};
    ghost use Rattle.store_expand.specs.Sizes.{sizes_of};
    ghost use Rattle.store_logic.specs.contracts.assertion.Assertion as assertion;
    ghost use Rattle.std.specs.Coded.{codes};

    ghost Value = { List PredDef };

    ghost coded = { Prim.hlevel (codes, assertion.the_row.coded) };

    ghost view = { λ sized. sized.preds };

    ghost invariant = { λ sized. sized.sizes.items ≡ sizes_of sized.preds };
}

impl SizedPreds {
    /// No predicate. Takes no memory.
    pub fn new(alloc: Global) -> SizedPreds
        ensures { result ≡ [] }
    {
        SizedPreds {
            preds: Items::new(alloc),
            sizes: Vec::new(alloc),
        }
    }

    /// Adds a predicate, in time by the nodes of its body as it stands. Want of memory changes nothing.
    pub fn add(&mut self, pred: PredDef) -> Result<(), AllocError>
        ensures added { OnOk result (self.new ≡ self.old ++ pred ∷ []) }
        ensures err { OnErr result (self.new ≡ self.old) }
    {
        let alloc = *self.sizes.allocator();
        let size = size_with(alloc, self.sizes.as_slice(), &pred.body)?;
        self.sizes.push(size)?;
        match self.preds.push(pred) {
            Ok(()) => Ok(()),
            Err(fault) => {
                let _size = self.sizes.pop();
                Err(fault)
            }
        }
    }

    /// The predicates. Takes no memory.
    pub fn preds(&self) -> &Preds
        ensures { result.now ≡ self.now }
    {
        &self.preds
    }

    /// Whether the assertion would have more than 65,536 nodes with its predicates put in, the nodes of each side of an `Iff`
    /// counted twice. Takes time by the nodes of the assertion as it stands.
    pub fn is_too_big(&self, alloc: Global, assertion: &Assertion) -> Result<bool, AllocError>
        ensures { IfOk result (λ is. is ≡ is_too_big self.now assertion.now) }
    {
        if size_with(alloc, self.sizes.as_slice(), assertion)? > MAX_NODES {
            return Ok(true);
        }
        Ok(false)
    }

    /// The assertion with every predicate put in, as the function `expand` gives it.
    ///
    /// # Errors
    ///
    /// `TooBig` exactly where `is_too_big` says so. Want of memory.
    pub fn expand(&self, alloc: Global, assertion: &Assertion) -> Result<Assertion, ExpandFault>
        requires { CanExpand self.now assertion.now }
        ensures value { IfOk result (λ expanded. expanded ≡ expansion self.now assertion.now) }
        ensures small { IfOk result (λ expanded. node_count expanded ≤ 65536) }
        ensures too_big { result ≡ Err ExpandFault.TooBig → IsTooBig self.now assertion.now }
        ensures sound { IfOk result (λ expanded. (types : List TypeEntry) (vars : List VarEntry) (s : StoreMap) (on : Region) (e : Environment) →
            Sat types vars self.now s on e assertion.now ↔ Sat types vars [] s on e expanded) }
        ensures whole { IfOk result (λ expanded. uses_in expanded ≡ []) }
    {
        expand_with(alloc, &self.preds, self.sizes.as_slice(), assertion)
    }
}
