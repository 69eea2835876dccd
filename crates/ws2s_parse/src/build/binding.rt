//! Quantifiers whose bodies are not read yet.

use plain_data::Items;
use ws2s_syntax::{Quantifier, SourceName};

/// A quantifier, and the names so far that it binds.
#[derive(Drop)]
pub struct Binding {
    pub quantifier: Quantifier,
    pub names: Items<SourceName>,
}
