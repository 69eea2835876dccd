//! Roots, each with the nodes that come new before it.

ghost use Rattle.std.specs.Prelude.{◌≡◌, ◌↔◌, IfOk, OnOk, IsTrue, MatchOption};
ghost use Rattle.cert_nodes.specs.Spots.{AreDrawn};
ghost use Rattle.cert_steps.specs.Places.{greatests_of, IsRootAt};
ghost use Rattle.cert_steps.specs.Reading.{ReadsRoot};

use crate::classes::count_of;
use crate::drawing::{Drawing, draw, greatest_at};
use crate::fault::{FaultKind, Stop, wrong_form};
use crate::firsts::{first_node, first_root};
use cert_text::{ClassLine, Line, RootLine, Target};

/// The place of a root: a space with so many states, and a class on each side.
#[derive(Clone, Copy, Debug)]
pub(crate) struct RootPlace {
    pub(crate) states: u32,
    pub(crate) space: u32,
    pub(crate) left: usize,
    pub(crate) right: usize,
}

/// Whether a space has a class by its line.
fn has_class(lines: &[&ClassLine], space: u32, class: u32) -> bool {
    match lines.get(space as usize) {
        Some(line) => (class as usize) < count_of(line.classes.as_slice()),
        None => false,
    }
}

/// Whether a root is right in its place.
fn is_root_at(drawing: &Drawing, place: RootPlace, root: RootLine) -> bool
    requires { drawing.now.greatest ≡ greatests_of drawing.now.nodes.told }
    ensures { IsTrue result ↔ IsRootAt drawing.now.nodes.told place.states place.space place.left place.right root }
{
    root.space == place.space
        && root.left as usize == place.left
        && root.right as usize == place.right
        && drawing.nodes.told.has(root.target)
        && greatest_at(drawing.greatest.as_slice(), root.target) < place.states
}

/// What is wrong with a root in its place.
fn root_fault(
    drawing: &Drawing,
    lefts: &[&ClassLine],
    rights: &[&ClassLine],
    place: RootPlace,
    root: RootLine,
) -> Option<FaultKind>
    requires { drawing.now.greatest ≡ greatests_of drawing.now.nodes.told }
    ensures { MatchOption result (IsRootAt drawing.now.nodes.told place.states place.space place.left place.right root)
        (λ kind. ¬ IsRootAt drawing.now.nodes.told place.states place.space place.left place.right root) }
{
    if is_root_at(drawing, place, root) {
        None
    } else if has_class(lefts, root.space, root.left)
        && has_class(rights, root.space, root.right)
        && drawing.nodes.told.has(root.target)
    {
        Some(FaultKind::Table)
    } else {
        Some(FaultKind::Unknown)
    }
}

/// The target of a root, its new nodes drawn, and what follows it.
pub(crate) fn read_root<'a>(
    drawing: &mut Drawing,
    lefts: &[&ClassLine],
    rights: &[&ClassLine],
    place: RootPlace,
    lines: &'a [Line],
) -> Result<(Target, &'a [Line]), Stop>
    requires drawn { AreDrawn drawing.old.nodes }
    requires known { drawing.old.greatest ≡ greatests_of drawing.old.nodes.told }
    ensures drawn { OnOk result (AreDrawn drawing.new.nodes) }
    ensures known { OnOk result (drawing.new.greatest ≡ greatests_of drawing.new.nodes.told) }
    ensures atoms { OnOk result (drawing.new.nodes.atoms ≡ drawing.old.nodes.atoms) }
    ensures found { IfOk result (λ cut. ReadsRoot drawing.old.nodes.told drawing.new.nodes.told place lines.now cut.0 cut.1.now) }
{
    let mut left = lines;
    while let Some((node, rest)) = first_node(left) {
        draw(drawing, left.len(), node)?;
        left = rest;
    }
    let Some((root, rest)) = first_root(left) else {
        return Err(wrong_form(left));
    };
    match root_fault(drawing, lefts, rights, place, root) {
        None => Ok((root.target, rest)),
        Some(kind) => Err(Stop::Fault(left.len(), kind)),
    }
}
