//! Stores after heap events, seen from the tree of the store before them.

use plain_data::Items;
use store_core::{FieldId, VariantId};
use ws2s_core::Track;

/// What stands for a value: null, or what is on a track. A cell is one position, null the empty set.
#[derive(Clone, Copy, Debug, PartialEq, Eq)]
pub enum Sym {
    Null,
    At(Track),
}

/// What stands for the values of variables, in order.
pub type SymList = Items<Sym>;

/// A change of the heap. The first part is its guard: it is taken where the root is on this track, and always where there is
/// none.
#[derive(Clone, Copy, Debug, PartialEq, Eq)]
pub enum Event {
    /// A new cell of the variant, in the slot with this number.
    New(Option<Track>, u32, VariantId),
    /// The field of the first cell gets a value; a truth value is on its track at the root.
    Write(Option<Track>, Sym, FieldId, Sym),
    /// The cell becomes dead.
    Free(Option<Track>, Sym),
}

/// Heap events in the order in which they happen.
pub type EventList = Items<Event>;

/// A store after heap events.
#[derive(Debug, Drop)]
pub struct View {
    /// What stands for the variables of the layout.
    pub vars: SymList,
    pub events: EventList,
    /// The cells that are read: all of them, or those on the track with `true`, or those not on it with `false`.
    pub region: Option<(Track, bool)>,
    /// The first track that isn't in use.
    pub next: u32,
}

/// What can be wrong with a store at a cut.
#[derive(Clone, Copy, Debug, PartialEq, Eq)]
pub enum CutCheck {
    DanglingRef,
    Shared,
    Leak,
    Field,
}
