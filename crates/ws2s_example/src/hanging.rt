//! Where the nodes of a tree hang, and the texts of their positions.

ghost use Rattle.std.specs.Prelude.{◌≡◌, ◌<◌, length, IfOk};
ghost use Rattle.ws2s_core.specs.LabelTrees.{IsTree};
ghost use Rattle.ws2s_theory.specs.Trees.{StandsAt};
ghost use Rattle.ws2s_example.specs.Hanging.{AreHangings, IsPlaceText, hung};

use std::alloc::{AllocError, Global};
use ws2s_core::TreeNode;

/// Where a node hangs.
#[derive(Clone, Copy, Debug)]
pub struct Hanging {
    /// The place of its parent in the list of nodes.
    pub parent: u32,
    /// Whether it is the child that 1 leads to, and not the one that 0 leads to.
    pub letter: bool,
}

/// Notes where a child hangs.
fn hang(hangings: &mut Vec<Option<Hanging>>, child: Option<u32>, parent: u32, letter: bool)
    ensures { hangings.new.items ≡ hung child (record { parent = parent; letter = letter }) hangings.old.items }
{
    if let Some(child) = child {
        if (child as usize) < hangings.len() {
            hangings[child as usize] = Some(Hanging { parent, letter });
        }
    }
}

/// Where each node of a tree hangs.
pub fn hangings(alloc: Global, nodes: &[TreeNode]) -> Result<Vec<Option<Hanging>>, AllocError>
    requires { IsTree nodes.now }
    ensures { IfOk result (λ hangings. AreHangings nodes.now hangings.items) }
{
    let mut hangings = vec![in alloc; None; nodes.len()]?;
    for (place, node) in nodes.iter().enumerate() {
        hang(&mut hangings, node.left, place as u32, false);
        hang(&mut hangings, node.right, place as u32, true);
    }
    Ok(hangings)
}

/// The letters that lead from the root to a node: its position.
fn position_of(
    alloc: Global,
    nodes: &[TreeNode],
    hangings: &[Option<Hanging>],
    node: u32,
) -> Result<Vec<bool>, AllocError>
    requires tree { IsTree nodes.now }
    requires hangings { AreHangings nodes.now hangings.now }
    requires inside { node < length nodes.now }
    ensures { IfOk result (λ letters. StandsAt nodes.now node letters.items) }
{
    let mut letters = Vec::new(alloc);
    let mut at = node;
    while let Some(hanging) = hangings[at as usize] {
        letters.push(hanging.letter)?;
        at = hanging.parent;
    }
    letters.reverse();
    Ok(letters)
}

/// The text of a node's position.
pub fn place_text(
    alloc: Global,
    nodes: &[TreeNode],
    hangings: &[Option<Hanging>],
    node: u32,
) -> Result<Vec<u8>, AllocError>
    requires tree { IsTree nodes.now }
    requires hangings { AreHangings nodes.now hangings.now }
    requires inside { node < length nodes.now }
    ensures { IfOk result (λ text. IsPlaceText nodes.now node text.items) }
{
    let position = position_of(alloc, nodes, hangings, node)?;
    let mut text = Vec::new(alloc);
    text.extend_from_slice(b"root")?;
    for letter in &position {
        if *letter {
            text.extend_from_slice(b".1")?;
        } else {
            text.extend_from_slice(b".0")?;
        }
    }
    Ok(text)
}
