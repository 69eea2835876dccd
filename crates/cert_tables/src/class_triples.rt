//! The classes of pairs and of what they go to.

ghost use Rattle.std.specs.Prelude.{◌≡◌, ◌↔◌, ◌⊎◌, [], Contains, OnOk, IfOk};
ghost use Rattle.cert_tables.specs.declared.class_triples.ClassTriple.{ClassTriple};
ghost use Rattle.cert_tables.specs.Pairs.{classes_of, AreClassesOf};

use crate::table::{Table, class};
use cert_text::PairLine;
use indexmap::IndexSet;
use std::alloc::{AllocError, Global};
use std::marker::Model;

/// The classes of a state of each part, and of the state that the pair goes to, on one side.
#[derive(Clone, Copy, Debug, PartialEq, Eq, Hash)]
pub(crate) struct ClassTriple {
    pub(crate) first: u32,
    pub(crate) second: u32,
    pub(crate) state: u32,
}

/// Triples of classes, each once. Contracts see the list.
#[derive(Drop)]
pub(crate) struct TripleSet {
    triples: IndexSet<ClassTriple>,
}

impl Model for TripleSet {
    ghost use Rattle.std.specs.Prelude.{List};
    ghost use Rattle.cert_tables.specs.declared.class_triples.ClassTriple.{ClassTriple};

    ghost Value = { List ClassTriple };

    ghost view = { λ set. set.triples.keys };
}

impl TripleSet {
    pub(crate) fn new(alloc: Global) -> TripleSet
        ensures { result ≡ [] }
    {
        TripleSet {
            triples: IndexSet::new(alloc),
        }
    }

    pub(crate) fn as_slice(&self) -> &[ClassTriple]
        ensures { result.now ≡ self.now }
    {
        self.triples.as_slice()
    }

    pub(crate) fn insert(&mut self, triple: ClassTriple) -> Result<(), AllocError>
        ensures { OnOk result ((other : ClassTriple) → Contains self.new other ↔ (Contains self.old other ⊎ (triple ≡ other))) }
    {
        self.triples.insert_full(triple)?;
        Ok(())
    }
}

/// The classes of a pair and of what it goes to, on one side of a space.
fn classes(
    is_right: bool,
    space: u32,
    a: &Table,
    b: &Table,
    c: &Table,
    pair: PairLine,
) -> ClassTriple
    ensures { result ≡ classes_of is_right space a.now b.now c.now pair }
{
    ClassTriple {
        first: class(a, is_right, space, pair.first),
        second: class(b, is_right, space, pair.second),
        state: class(c, is_right, space, pair.state),
    }
}

/// The triples of classes that the pairs of a child space have, each once.
pub(crate) fn triples(
    alloc: Global,
    is_right: bool,
    space: u32,
    child: u32,
    a: &Table,
    b: &Table,
    c: &Table,
    pairs: &[PairLine],
) -> Result<TripleSet, AllocError>
    ensures { IfOk result (AreClassesOf is_right space child a.now b.now c.now pairs.now) }
{
    let mut set = TripleSet::new(alloc);
    for pair in pairs {
        if pair.space == child {
            set.insert(classes(is_right, space, a, b, c, *pair))?;
        }
    }
    Ok(set)
}
