//! Atoms and their negations, and their minimal automata.

ghost use Rattle.std.specs.Prelude.{◌≡◌, IfOk};
ghost use Rattle.bdd_nodes.specs.Shelf.{IsShelf};
ghost use Rattle.bdd_nodes.specs.Changes.{Keeps};
ghost use Rattle.gta_core.specs.Auto.{IsAuto};
ghost use Rattle.gta_core.specs.Changes.{RegistersTable};
ghost use Rattle.gta_atom.specs.Atom.{IsAtom};

use crate::lines::number_of;
use bdd_nodes::Shelf;
use bdd_walk::Stop;
use gta_atom::atom;
use gta_core::Auto;
use gta_product::{complement, product};
use std::alloc::Global;
use ws2s_core::{Formula, Guide, Track};

/// The five atoms.
#[derive(Clone, Copy)]
enum Kind {
    Sub,
    Single,
    Left,
    Right,
    Root,
}

/// An atom of up to two tracks, or the negation of one.
#[derive(Clone, Copy)]
pub(crate) struct Literal {
    kind: Kind,
    first: u32,
    second: u32,
    is_negated: bool,
}

impl Literal {
    /// The literal of a word: `sub.0.1`, `single.0`, `left.0.1`, `right.0.1` or `root.0`, with `~` in front of a negated one.
    pub(crate) fn of(word: &str) -> Option<Literal> {
        let atom = word.strip_prefix('~').unwrap_or(word);
        let (name, tracks) = atom.split_once('.')?;
        let (first, second) = tracks.split_once('.').unwrap_or((tracks, tracks));
        Some(Literal {
            kind: kind_of(name)?,
            first: number_of(first),
            second: number_of(second),
            is_negated: word.starts_with('~'),
        })
    }

    /// The atom, negated or not.
    fn atom(self) -> Formula
        ensures { IsAtom result }
    {
        let first = Track(self.first);
        let second = Track(self.second);
        match self.kind {
            Kind::Sub => Formula::Sub(first, second),
            Kind::Single => Formula::Single(first),
            Kind::Left => Formula::Succ0(first, second),
            Kind::Right => Formula::Succ1(first, second),
            Kind::Root => Formula::Root(first),
        }
    }
}

/// The kind of that name.
fn kind_of(name: &str) -> Option<Kind> {
    match name {
        "sub" => Some(Kind::Sub),
        "single" => Some(Kind::Single),
        "left" => Some(Kind::Left),
        "right" => Some(Kind::Right),
        "root" => Some(Kind::Root),
        _ => None,
    }
}

/// The minimal automaton of a literal.
pub(crate) fn automaton(
    alloc: Global,
    g: &Guide,
    literal: Literal,
    shelf: &mut Shelf,
) -> Result<Auto, Stop>
    ensures auto { IfOk result (IsAuto g.now shelf.new) }
    ensures table { IfOk result (λ a. RegistersTable shelf.old shelf.new a.table) }
    ensures kept { Keeps shelf.old shelf.new }
    ensures shelf { IsShelf shelf.new }
{
    let f = literal.atom();
    let a = atom(alloc, g, &f, shelf)?;
    if literal.is_negated {
        return Ok(complement(a));
    }
    Ok(a)
}

/// The product of an automaton and that of a literal.
pub(crate) fn with(
    alloc: Global,
    g: &Guide,
    a: &Auto,
    literal: Literal,
    shelf: &mut Shelf,
) -> Result<Auto, Stop>
    requires shelf { IsShelf shelf.old }
    requires auto { IsAuto g.now shelf.old a.now }
    ensures auto { IfOk result (IsAuto g.now shelf.new) }
    ensures shelf { IsShelf shelf.new }
{
    let b = automaton(alloc, g, literal, shelf)?;
    product(alloc, g, a, &b, shelf)
}
