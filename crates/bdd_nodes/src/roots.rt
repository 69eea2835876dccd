//! Tables of roots.

ghost use Rattle.std.specs.Prelude.{◌≡◌, ◌≢◌, ◌+◌, ◌<◌, ◌≤◌, ℕ, [], ◌∷◌, ◌++◌, length, All, map};
ghost use Rattle.std.specs.Prelude.{IfOk, OnErr, IfSome, IfNone, IsSome, None, Some, MatchOption};
ghost use Rattle.bdd_nodes.specs.Nodes.{node_of, rank};
ghost use Rattle.bdd_nodes.specs.Collecting.{all_roots, linked_table, IsLinked, MarksList};
ghost use Rattle.bdd_nodes.specs.Roots.{number_at, number_of, roots_under, root_under, AreNumbered};
ghost use Rattle.bdd_nodes.specs.Between.{IsBetween};

use crate::collecting;
use crate::node_ref::NodeRef;
use plain_data::Items;
use std::alloc::{AllocError, Global};
use std::marker::Model;

/// References in order.
pub type RefList = Items<NodeRef>;

/// Names a registered table: the number of the tables that were added to its shelf before.
#[derive(Clone, Copy, Debug, PartialEq, Eq, PartialOrd, Ord, Hash)]
pub struct TableId(u64);

/// A registered table.
#[derive(Debug, Drop)]
pub(crate) struct RootTable {
    pub(crate) id: TableId,
    pub(crate) roots: RefList,
}

/// The registered tables, in the order of their numbers.
#[derive(Debug, Drop)]
pub(crate) struct RootSet {
    tables: Vec<RootTable>,
    /// How many tables were added so far: the next one's number.
    added: u64,
}

impl Model for RootSet {
    ghost use Rattle.bdd_nodes.specs.Roots.{Registered, AreNumbered};

    ghost Value = { Registered };

    ghost view = { λ a. record { tables = a.tables.items; added = a.added } };

    ghost invariant = { λ a. AreNumbered a.tables.items a.added };
}

impl RootSet {
    pub(crate) fn new(alloc: Global) -> RootSet
        ensures { result ≡ record { tables = []; added = 0 } }
    {
        RootSet {
            tables: Vec::new(alloc),
            added: 0,
        }
    }

    /// Want of memory leaves the tables as they were, also where no number is left.
    pub(crate) fn add(&mut self, roots: RefList) -> Result<TableId, AllocError>
        ensures id { IfOk result (λ id. number_of id ≡ self.old.added) }
        ensures added { IfOk result (λ id. self.new ≡
            record { tables = self.old.tables ++ record { id = id; roots = roots } ∷ []; added = self.old.added + 1 }) }
        ensures numbered { AreNumbered self.new.tables self.new.added }
        ensures err { OnErr result (self.new ≡ self.old) }
    {
        let id = TableId(self.added);
        let added = self.added.checked_add(1).ok_or(AllocError)?;
        self.tables.push(RootTable { id, roots })?;
        self.added = added;
        Ok(id)
    }

    pub(crate) fn remove(&mut self, id: TableId)
        ensures gone { roots_under self.new.tables (number_of id) ≡ None }
        ensures others { (number : ℕ) → number ≢ number_of id
            → roots_under self.new.tables number ≡ roots_under self.old.tables number }
        ensures added { self.new.added ≡ self.old.added }
        ensures numbered { AreNumbered self.new.tables self.new.added }
    {
        if let Some(position) = position_of(&self.tables, id) {
            self.tables.remove(position);
        }
    }

    pub(crate) fn root(&self, id: TableId, index: u32) -> Option<NodeRef>
        ensures { result ≡ root_under self.now.tables (number_of id) index }
    {
        self.roots(id)?.get(index as usize).copied()
    }

    pub(crate) fn roots(&self, id: TableId) -> Option<&[NodeRef]>
        ensures { MatchOption result (roots_under self.now.tables (number_of id) ≡ None)
            (λ roots. roots_under self.now.tables (number_of id) ≡ Some roots.now) }
    {
        let position = position_of(&self.tables, id)?;
        Some(self.tables[position].roots.as_slice())
    }

    /// Marks all roots.
    pub(crate) fn mark(&self, marks: &mut [u32])
        requires { All (λ r. rank (node_of r) ≤ length marks.old) (all_roots self.now.tables) }
        ensures { MarksList (all_roots self.now.tables) marks.old marks.new }
    {
        collecting::mark_tables(&self.tables, marks);
    }

    /// Replaces all roots by the links.
    pub(crate) fn move_all(&mut self, links: &[u32])
        requires { All (λ r. IsLinked links.now (node_of r)) (all_roots self.old.tables) }
        ensures tables { self.new.tables ≡ map (linked_table links.now) self.old.tables }
        ensures added { self.new.added ≡ self.old.added }
    {
        collecting::move_tables(&mut self.tables, links);
    }
}

/// The position of the table with this number, by halves.
fn position_of(tables: &[RootTable], id: TableId) -> Option<usize>
    requires rise { (i j : ℕ) → i < j → j < length tables.now → number_at tables.now i < number_at tables.now j }
    ensures within { IfSome result (λ position. position < length tables.now) }
    ensures found { IfSome result (λ position. number_at tables.now position ≡ number_of id) }
    ensures none { IfNone result (roots_under tables.now (number_of id) ≡ None) }
{
    let (mut low, mut high) = bounds_of(tables, id);
    while low < high {
        let middle = low + (high - low) / 2;
        let number = tables[middle].id.0;
        if number == id.0 {
            return Some(middle);
        }
        if number < id.0 {
            low = middle + 1;
        } else {
            high = middle;
        }
    }
    None
}

/// From where on and before where the table with this number stands, if it is there: looks at the last table, the second,
/// fourth, eighth .. from the end, since the tables asked for are mostly among the last.
fn bounds_of(tables: &[RootTable], id: TableId) -> (usize, usize)
    requires rise { (i j : ℕ) → i < j → j < length tables.now → number_at tables.now i < number_at tables.now j }
    ensures { IsBetween tables.now (number_of id) result.0 result.1 }
{
    let mut high = tables.len();
    let mut back = 1;
    while back <= tables.len() {
        let low = tables.len() - back;
        if tables[low].id.0 <= id.0 {
            return (low, high);
        }
        high = low;
        back *= 2;
    }
    (0, high)
}
