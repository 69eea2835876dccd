//! What is written of an automaton.

ghost use Rattle.gta_theory.specs.Guides.{IsSpace};
ghost use Rattle.gta_core.specs.Auto.{guide_of, IsAuto};

use crate::lines::{number_of, write_number, write_truth, write_unknown};
use crate::trees::write_trees;
use bdd_list::list_nodes;
use bdd_nodes::Shelf;
use bdd_walk::NoMemory;
use gta_core::Auto;
use gta_merge::is_told_apart;
use gta_witness::{Lightest, least};
use plain_data::Items;
use plain_writer::Writer;
use std::alloc::{AllocError, Global};
use ws2s_core::{Guide, Track, TrackList};

/// Writes the number of states of each space, in order.
fn write_states(g: &Guide, a: &Auto, out: &mut Writer) {
    out.push(b' ');
    for space in 0..g.spaces() {
        write_number(out, b"/", a.states(space).unwrap_or(0) as u64);
    }
}

/// How many pairs of child states a space has.
fn pairs(g: &Guide, a: &Auto, space: u32) -> usize {
    let (left, right) = g.children(space).unwrap_or((0, 0));
    let lefts = a.states(left).unwrap_or(0) as usize;
    lefts.wrapping_mul(a.states(right).unwrap_or(0) as usize)
}

/// How many nodes the functions of a space have.
fn nodes(alloc: Global, a: &Auto, shelf: &Shelf, space: u32) -> Result<usize, NoMemory>
    requires { IsSpace (guide_of a.now) space }
{
    let part = a.factored(alloc, shelf, space)?;
    let listing = list_nodes(alloc, shelf, part.roots.as_slice())?;
    Ok(listing.nodes.len())
}

/// The Size: pairs of child states and nodes of functions, space by space.
fn size(alloc: Global, g: &Guide, a: &Auto, shelf: &Shelf) -> Result<usize, NoMemory>
    requires { IsAuto g.now shelf.now a.now }
{
    let mut size: usize = 0;
    for space in 0..g.spaces() {
        let many = nodes(alloc, a, shelf, space)?;
        size = size.wrapping_add(pairs(g, a, space)).wrapping_add(many);
    }
    Ok(size)
}

/// How many cells the tables of all spaces have.
fn cells(a: &Auto) -> usize {
    let mut cells: usize = 0;
    for part in a.parts() {
        cells = cells.wrapping_add(part.cells.len());
    }
    cells
}

/// Whether a state of space 0 is accepting.
fn accepts_some(a: &Auto) -> bool {
    for state in 0..a.states(0).unwrap_or(0) {
        if a.accepting(state) == Some(true) {
            return true;
        }
    }
    false
}

/// Puts the tracks of a word, with a point in front of each, behind the others.
fn add_tracks(word: &str, tracks: &mut TrackList) -> Result<(), AllocError> {
    for number in word.split('.').skip(1) {
        tracks.push(Track(number_of(number)))?;
    }
    Ok(())
}

/// The tracks of a word.
fn tracks_of(alloc: Global, word: &str) -> Result<TrackList, AllocError> {
    let mut tracks = Items::new(alloc);
    add_tracks(word, &mut tracks)?;
    Ok(tracks)
}

/// Writes the weight of a tree and how many nodes it has, that there is none, or that it is too large.
fn write_tree(found: &Lightest, out: &mut Writer) {
    match found {
        Lightest::Tree(tree, weight) => {
            write_number(out, b" ", *weight);
            write_number(out, b"/", tree.nodes().len() as u64);
        }
        Lightest::None => out.push_all(b" none"),
        Lightest::TooLarge => out.push_all(b" too large"),
    }
}

/// Writes the weight of a lightest tree on the tracks of the word, and how many nodes it has.
pub(crate) fn write_lightest(
    alloc: Global,
    g: &Guide,
    a: &Auto,
    shelf: &Shelf,
    word: &str,
    out: &mut Writer,
) -> Result<(), NoMemory>
    requires { IsAuto g.now shelf.now a.now }
{
    let weigh = tracks_of(alloc, word)?;
    write_tree(&least(alloc, g, a, shelf, &weigh)?, out);
    Ok(())
}

/// Writes what a word asks of an automaton: `states`, `size`, `nodes`, `cells`, `apart`, `accepting`, `trees` or `least.0.1`.
pub(crate) fn look(
    alloc: Global,
    g: &Guide,
    a: &Auto,
    shelf: &Shelf,
    word: &str,
    out: &mut Writer,
) -> Result<(), NoMemory>
    requires { IsAuto g.now shelf.now a.now }
{
    match word {
        "states" => write_states(g, a, out),
        "size" => write_number(out, b" ", size(alloc, g, a, shelf)? as u64),
        "nodes" => write_number(out, b" ", shelf.count() as u64),
        "cells" => write_number(out, b" ", cells(a) as u64),
        "apart" => write_truth(out, is_told_apart(alloc, g, a, shelf)?),
        "accepting" => write_truth(out, accepts_some(a)),
        "trees" => return write_trees(alloc, a, shelf, out),
        _ if word.starts_with("least") => return write_lightest(alloc, g, a, shelf, word, out),
        _ => write_unknown(out),
    }
    Ok(())
}
