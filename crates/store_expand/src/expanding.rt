//! Assertions with their predicates put in.

ghost use Rattle.std.specs.Prelude.{◌≡◌, ◌≤◌, ◌↔◌, IfOk, Err, List, []};
ghost use Rattle.store_core.specs.Tables.{TypeEntry, VarEntry};
ghost use Rattle.store_core.specs.Stores.{StoreMap};
ghost use Rattle.store_logic.specs.declared.region.Region.{Region};
ghost use Rattle.store_logic.specs.Terms.{Environment};
ghost use Rattle.store_logic.specs.Satisfaction.{Sat};
ghost use Rattle.store_logic.specs.Expansion.{expansion, IsTooBig};
ghost use Rattle.store_logic.specs.Sizes.{node_count};
ghost use Rattle.store_logic.specs.Uses.{CanExpand, uses_in};
ghost use Rattle.store_expand.specs.Sizes.{sizes_of};

use crate::building::build;
use crate::size::{MAX_NODES, body_sizes, size_with};
use std::alloc::{AllocError, Global};
use store_logic::{Assertion, Preds};
use thiserror::Error;

/// Why predicates weren't put in.
#[derive(Clone, Copy, Debug, PartialEq, Eq, Error)]
pub enum ExpandFault {
    /// The result would have more than 65,536 nodes, the nodes of each side of an `Iff` counted twice.
    #[error("with its predicates put in, the assertion has more than 65536 nodes")]
    TooBig,
    #[error("out of memory")]
    NoMemory,
}

impl From<AllocError> for ExpandFault {
    ghost use Rattle.std.specs.Prelude.{◌≡◌};
    ghost use Rattle.store_expand.specs.declared.expanding.ExpandFault.TheVariants.{NoMemory};

    ghost from_gives = { λ _ e. e ≡ NoMemory };

    fn from(_fault: AllocError) -> ExpandFault {
        ExpandFault::NoMemory
    }
}

/// The assertion with every predicate put in: each use of one is the predicate's body, with the arguments in the place of the
/// parameters.
///
/// Its size is found before anything is built, in time by the nodes of the assertion and of the bodies as they stand. The building
/// opens a use once for each time that it stands in the result, so it takes time by the nodes of the result, and where bodies are
/// uses themselves up to as many times more as there are predicates.
///
/// # Errors
///
/// `TooBig` exactly where the result has more than 65,536 nodes, the nodes of each side of an `Iff` counted twice. Want of memory,
/// also where a bound name would count more quantifiers than 32 bits can.
pub fn expand(alloc: Global, preds: &Preds, assertion: &Assertion) -> Result<Assertion, ExpandFault>
    requires { CanExpand preds.now assertion.now }
    ensures value { IfOk result (λ expanded. expanded ≡ expansion preds.now assertion.now) }
    ensures small { IfOk result (λ expanded. node_count expanded ≤ 65536) }
    ensures too_big { result ≡ Err ExpandFault.TooBig → IsTooBig preds.now assertion.now }

    // It is satisfied where the given one is, without predicates.
    ensures sound { IfOk result (λ expanded. (types : List TypeEntry) (vars : List VarEntry) (s : StoreMap) (on : Region) (e : Environment) →
        Sat types vars preds.now s on e assertion.now ↔ Sat types vars [] s on e expanded) }
    ensures whole { IfOk result (λ expanded. uses_in expanded ≡ []) }
{
    let sizes = body_sizes(alloc, preds.as_slice())?;
    expand_with(alloc, preds, sizes.as_slice(), assertion)
}

/// The same where the bodies have these sizes.
pub(crate) fn expand_with(
    alloc: Global,
    preds: &Preds,
    sizes: &[u64],
    assertion: &Assertion,
) -> Result<Assertion, ExpandFault>
    requires can { CanExpand preds.now assertion.now }
    requires sizes { sizes.now ≡ sizes_of preds.now }
    ensures value { IfOk result (λ expanded. expanded ≡ expansion preds.now assertion.now) }
    ensures small { IfOk result (λ expanded. node_count expanded ≤ 65536) }
    ensures too_big { result ≡ Err ExpandFault.TooBig → IsTooBig preds.now assertion.now }
    ensures sound { IfOk result (λ expanded. (types : List TypeEntry) (vars : List VarEntry) (s : StoreMap) (on : Region) (e : Environment) →
        Sat types vars preds.now s on e assertion.now ↔ Sat types vars [] s on e expanded) }
    ensures whole { IfOk result (λ expanded. uses_in expanded ≡ []) }
{
    if size_with(alloc, sizes, assertion)? > MAX_NODES {
        return Err(ExpandFault::TooBig);
    }
    let expanded = build(alloc, preds.as_slice(), assertion)?;
    Ok(expanded)
}
