//! The lines of an example.

ghost use Rattle.std.specs.Prelude.{◌≡◌, ◌++◌, IfOk, OnOk};
ghost use Rattle.ws2s_core.specs.LabelTrees.{assignment_of};
ghost use Rattle.ws2s_example.specs.Examples.{HaveOnePosition, IsExampleText, line_of, listed_text, value_text};
ghost use Rattle.ws2s_example.specs.Texts.{texts_of};

use crate::sets::sets_of;
use std::alloc::{AllocError, Global};
use std::collections::BTreeSet;
use ws2s_core::LabelTree;
use ws2s_syntax::{Free, FreeList};

/// Writes the texts behind one another, with commas between them.
fn push_listed(text: &mut Vec<u8>, texts: &BTreeSet<Vec<u8>>) -> Result<(), AllocError>
    ensures { OnOk result (text.new.items ≡ text.old.items ++ listed_text (texts_of texts.now)) }
{
    let mut is_first = true;
    for next in texts {
        if !is_first {
            text.extend_from_slice(b", ")?;
        }
        is_first = false;
        text.extend_from_slice(next.as_slice())?;
    }
    Ok(())
}

/// Writes the line of a variable.
fn push_line(
    text: &mut Vec<u8>,
    variable: &Free,
    texts: &BTreeSet<Vec<u8>>,
) -> Result<(), AllocError>
    ensures { OnOk result (text.new.items ≡ text.old.items ++ line_of variable.now (value_text variable.now (texts_of texts.now))) }
{
    text.extend_from_slice(variable.name.as_slice())?;
    text.extend_from_slice(b" = ")?;
    if variable.set {
        text.extend_from_slice(b"{")?;
        push_listed(text, texts)?;
        text.extend_from_slice(b"}\n")
    } else {
        push_listed(text, texts)?;
        text.extend_from_slice(b"\n")
    }
}

/// The lines of an example: what the tree has for each of the free variables, whose tracks are their numbers.
pub fn example_lines(
    alloc: Global,
    free: &FreeList,
    tree: &LabelTree,
) -> Result<Vec<u8>, AllocError>
    requires { HaveOnePosition free.now (assignment_of tree.now) }
    ensures { IfOk result (λ text. IsExampleText free.now (assignment_of tree.now) text.items) }
{
    let sets = sets_of(alloc, free.len(), tree)?;
    let mut text = Vec::new(alloc);
    for (place, variable) in free.as_slice().iter().enumerate() {
        push_line(&mut text, variable, &sets[place])?;
    }
    Ok(text)
}
