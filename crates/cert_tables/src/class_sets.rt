//! The classes of sets and of what they go to.

ghost use Rattle.std.specs.Prelude.{◌≡◌, ◌↔◌, ◌⊎◌, [], map, Contains, OnOk, IfOk};
ghost use Rattle.cert_text.specs.declared.line.SetLine.{SetLine};
ghost use Rattle.cert_tables.specs.Automata.{class_in};
ghost use Rattle.cert_tables.specs.Sets.{ClassKey, key_of, HasSame, AreClassesOfSet, AreSetClasses};

use crate::members::rising;
use crate::table::{Table, class};
use cert_text::SetLine;
use indexmap::IndexSet;
use std::alloc::{AllocError, Global};
use std::marker::Model;

/// The class of the state that a set goes to, and those of its members, rising, on one side.
#[derive(Debug, PartialEq, Eq, Hash, Drop)]
pub(crate) struct SetClasses {
    pub(crate) state: u32,
    pub(crate) members: Vec<u32>,
}

/// Classes of sets, each once. Contracts see the list of states' classes with members' classes.
#[derive(Drop)]
pub(crate) struct ClassSet {
    classes: IndexSet<SetClasses>,
}

impl Model for ClassSet {
    ghost use Rattle.std.specs.Prelude.{List, ℕ, map};
    ghost use Rattle.cert_tables.specs.Sets.{key_of};

    ghost Value = { List (ℕ × List ℕ) };

    ghost view = { λ set. map key_of set.classes.keys };
}

impl ClassSet {
    pub(crate) fn new(alloc: Global) -> ClassSet
        ensures { result ≡ [] }
    {
        ClassSet {
            classes: IndexSet::new(alloc),
        }
    }

    pub(crate) fn as_slice(&self) -> &[SetClasses]
        ensures { map key_of result.now ≡ self.now }
    {
        self.classes.as_slice()
    }

    pub(crate) fn insert(&mut self, classes: SetClasses) -> Result<(), AllocError>
        ensures { OnOk result ((key : ClassKey) → Contains self.new key ↔ (Contains self.old key ⊎ (key_of classes ≡ key))) }
    {
        self.classes.insert_full(classes)?;
        Ok(())
    }
}

/// The classes of states, rising, each once.
fn classes_of(
    alloc: Global,
    is_right: bool,
    space: u32,
    a: &Table,
    members: &[u32],
) -> Result<Vec<u32>, AllocError>
    ensures { IfOk result (λ classes. HasSame classes.items (map (class_in a.now is_right space) members.now)) }
{
    let mut classes = Vec::with_capacity(alloc, members.len())?;
    for member in members {
        classes.push(class(a, is_right, space, *member))?;
    }
    Ok(rising(classes))
}

/// The classes of a set and of what it goes to, on one side of a space.
fn set_classes(
    alloc: Global,
    is_right: bool,
    space: u32,
    a: &Table,
    c: &Table,
    line: &SetLine,
) -> Result<SetClasses, AllocError>
    ensures { IfOk result (λ classes. AreClassesOfSet is_right space a.now c.now line.now (key_of classes)) }
{
    Ok(SetClasses {
        state: class(c, is_right, space, line.state),
        members: classes_of(alloc, is_right, space, a, line.members.as_slice())?,
    })
}

/// The classes that the sets of a child space have, each once.
pub(crate) fn all_classes(
    alloc: Global,
    is_right: bool,
    space: u32,
    child: u32,
    a: &Table,
    c: &Table,
    sets: &[SetLine],
) -> Result<ClassSet, AllocError>
    ensures { IfOk result (AreSetClasses is_right space child a.now c.now sets.now) }
{
    let mut set = ClassSet::new(alloc);
    for line in sets {
        if line.space == child {
            let made = set_classes(alloc, is_right, space, a, c, line)?;
            set.insert(made)?;
        }
    }
    Ok(set)
}
