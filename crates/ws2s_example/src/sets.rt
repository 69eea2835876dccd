//! The positions that a tree has on each track, as texts in order.

ghost use Rattle.std.specs.Prelude.{◌≡◌, ◌<◌, nat_lt, ℕ, [], ◌∷◌, true, length, IfOk, OnOk, Some, slice_get};
ghost use Rattle.std.specs.List.{list_any};
ghost use Rattle.ws2s_core.specs.LabelTrees.{assignment_of, IsTree};
ghost use Rattle.ws2s_example.specs.Examples.{AreTextsOf};
ghost use Rattle.ws2s_example.specs.Hanging.{AreHangings};
ghost use Rattle.ws2s_example.specs.Texts.{AddsWhere, AllAscend, Ascend, Notes, NotesNode, Texts, HaveTexts, texts_of};

use crate::hanging::{Hanging, hangings, place_text};
use std::alloc::{AllocError, Global};
use std::collections::BTreeSet;
use ws2s_core::{LabelTree, Track, TreeNode};

/// Adds a text to a set.
fn add(alloc: Global, set: &mut BTreeSet<Vec<u8>>, text: &[u8]) -> Result<(), AllocError>
    ensures added { OnOk result (AddsWhere true text.now (texts_of set.old) (texts_of set.new)) }
    ensures ascend { OnOk result (Ascend (texts_of set.new)) }
{
    let copy = Vec::from_slice(alloc, text)?;
    set.insert(copy)?;
    Ok(())
}

/// Adds a text to the set of the track, where there is such a set.
fn note_track(
    alloc: Global,
    sets: &mut Vec<BTreeSet<Vec<u8>>>,
    track: Track,
    text: &[u8],
) -> Result<(), AllocError>
    requires { AllAscend sets.old.items }
    ensures noted { OnOk result (Notes (track ∷ []) text.now sets.old.items sets.new.items) }
    ensures ascend { OnOk result (AllAscend sets.new.items) }
{
    let place = track.0 as usize;
    if place < sets.len() {
        add(alloc, &mut sets[place], text)?;
    }
    Ok(())
}

/// Adds a text to the sets of the tracks.
fn note(
    alloc: Global,
    sets: &mut Vec<BTreeSet<Vec<u8>>>,
    tracks: &[Track],
    text: &[u8],
) -> Result<(), AllocError>
    requires { AllAscend sets.old.items }
    ensures noted { OnOk result (Notes tracks.now text.now sets.old.items sets.new.items) }
    ensures ascend { OnOk result (AllAscend sets.new.items) }
{
    for track in tracks {
        note_track(alloc, sets, *track, text)?;
    }
    Ok(())
}

/// Whether one of the tracks is below a number.
fn is_any_below(tracks: &[Track], count: usize) -> bool
    ensures { result ≡ list_any (λ track. nat_lt track.0 count) tracks.now }
{
    tracks.iter().any(|track| (track.0 as usize) < count)
}

/// So many sets without texts.
fn empty_sets(alloc: Global, count: usize) -> Result<Vec<BTreeSet<Vec<u8>>>, AllocError>
    ensures long { IfOk result (λ sets. length sets.items ≡ count) }
    ensures empty { IfOk result (λ sets. (i : ℕ) (set : Texts) → slice_get sets.items i ≡ Some set → texts_of set ≡ []) }
{
    let mut sets = Vec::new(alloc);
    for _ in 0..count {
        sets.push(BTreeSet::new(alloc))?;
    }
    Ok(sets)
}

/// Adds the text of a node's position to the sets of its tracks, where there are such sets.
fn note_node(
    alloc: Global,
    sets: &mut Vec<BTreeSet<Vec<u8>>>,
    nodes: &[TreeNode],
    hangings: &[Option<Hanging>],
    place: u32,
    tracks: &[Track],
) -> Result<(), AllocError>
    requires tree { IsTree nodes.now }
    requires hangings { AreHangings nodes.now hangings.now }
    requires inside { place < length nodes.now }
    requires ascend { AllAscend sets.old.items }
    ensures noted { OnOk result (NotesNode nodes.now place tracks.now sets.old.items sets.new.items) }
    ensures ascend { OnOk result (AllAscend sets.new.items) }
{
    let count = sets.len();
    if is_any_below(tracks, count) {
        let text = place_text(alloc, nodes, hangings, place)?;
        note(alloc, sets, tracks, text.as_slice())?;
    }
    Ok(())
}

/// The texts of the positions that the tree has on each of the tracks below a number.
pub fn sets_of(
    alloc: Global,
    count: usize,
    tree: &LabelTree,
) -> Result<Vec<BTreeSet<Vec<u8>>>, AllocError>
    ensures long { IfOk result (λ sets. length sets.items ≡ count) }
    ensures texts { IfOk result (λ sets. (i : ℕ) (set : Texts) → slice_get sets.items i ≡ Some set → AreTextsOf (assignment_of tree.now i) (texts_of set)) }
{
    let nodes = tree.nodes();
    let hangings = hangings(alloc, nodes)?;
    let mut sets = empty_sets(alloc, count)?;
    for (place, node) in nodes.iter().enumerate() {
        let tracks = node.tracks.as_slice();
        note_node(
            alloc,
            &mut sets,
            nodes,
            hangings.as_slice(),
            place as u32,
            tracks,
        )?;
    }
    Ok(sets)
}
