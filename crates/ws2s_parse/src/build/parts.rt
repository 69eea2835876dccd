//! What is made so far.

ghost use Rattle.std.specs.Prelude.{◌≡◌};
ghost use Rattle.ws2s_parse.specs.MakingParts.{nothing};
ghost use Rattle.ws2s_parse.specs.Building.{parts_of};

use super::binding::Binding;
use plain_data::{Items, Stack};
use std::alloc::Global;
use ws2s_syntax::{SourceFormula, SourceItem, SourceName, SourceParameter, SourceTerm};

/// What is made so far, and is not yet part of something larger. `specs/MakingParts.antt` says what each is.
#[derive(Drop)]
pub struct Parts {
    pub alloc: Global,
    pub names: Stack<SourceName>,
    pub terms: Stack<SourceTerm>,
    pub formulas: Stack<SourceFormula>,
    pub bindings: Stack<Binding>,
    pub arguments: Items<SourceTerm>,
    pub variables: Items<SourceName>,
    pub parameters: Items<SourceParameter>,
    pub items: Items<SourceItem>,
}

/// Nothing. Takes no memory.
pub fn nothing(alloc: Global) -> Parts
    ensures { parts_of result ≡ nothing }
{
    Parts {
        alloc,
        names: Stack::new(alloc),
        terms: Stack::new(alloc),
        formulas: Stack::new(alloc),
        bindings: Stack::new(alloc),
        arguments: Items::new(alloc),
        variables: Items::new(alloc),
        parameters: Items::new(alloc),
        items: Items::new(alloc),
    }
}
