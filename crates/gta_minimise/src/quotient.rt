//! The roots of the automaton of classes.

ghost use Rattle.std.specs.Prelude.{◌≡◌, ◌*◌, ◌<◌, ℕ, Err, All, length, slice_index, IfOk};
ghost use Rattle.bdd_nodes.specs.Shelf.{IsShelf};
ghost use Rattle.bdd_list.specs.Listing.{IsIn};
ghost use Rattle.gta_theory.specs.Guides.{IsSpace};
ghost use Rattle.gta_room.specs.Progress.{Adds, IsStuck};
ghost use Rattle.gta_reach.specs.Form.{guide_of, IsForm};
ghost use Rattle.gta_reach.specs.Reached.{HasRoot};
ghost use Rattle.gta_refine.specs.Refined.{IsRefined};
ghost use Rattle.gta_minimise.specs.Quotient.{ArePairs, IsUnderClasses, IsQuotientSpace};

use crate::nodes::rename_listed;
use crate::rows::{classes_of, shared_part};
use bdd_list::Listed;
use bdd_nodes::{RefList, Shelf};
use bdd_walk::Stop;
use gta_core::Part;
use gta_reach::{Form, FormSpace};
use gta_refine::SpaceClasses;
use std::alloc::{AllocError, Global};

/// How many pairs there are of a left and a right state. Past the last number: want of memory.
fn many_pairs(lefts: &[u32], rights: &[u32]) -> Result<usize, AllocError>
    ensures { IfOk result (λ many. many ≡ length lefts.now * length rights.now) }
{
    lefts.len().checked_mul(rights.len()).ok_or(AllocError)
}

/// What is listed for each pair of states: in order of the left list, and for each of its states in order of the right one.
fn roots_of_pairs(
    alloc: Global,
    space: &FormSpace,
    lefts: &[u32],
    rights: &[u32],
) -> Result<Vec<Listed>, AllocError>
    requires { (x y : ℕ) → x < length lefts.now → y < length rights.now
        → HasRoot space.now (slice_index lefts.now x) (slice_index rights.now y) }
    ensures pairs { IfOk result (λ roots. ArePairs space.now lefts.now rights.now roots.items) }
    ensures inside { IfOk result (λ roots. All (IsIn space.now.listing.nodes) roots.items) }
{
    let width = rights.len();
    if width == 0 {
        return Ok(Vec::new(alloc));
    }
    let many = many_pairs(lefts, rights)?;
    let mut roots = Vec::with_capacity(alloc, many)?;
    for index in 0..many {
        roots.push(space.listed(lefts[index / width], rights[index % width]))?;
    }
    Ok(roots)
}

/// The part of a space, and its roots, which it counts from the first one.
#[derive(Drop)]
pub(crate) struct QuotientSpace {
    pub part: Part,
    pub roots: RefList,
}

/// The part of a space: its states are the classes, and its roots those of representatives, with states replaced by their
/// classes.
pub(crate) fn quotient_space(
    alloc: Global,
    form: &Form,
    space: u32,
    classes: &[SpaceClasses],
    shelf: &mut Shelf,
) -> Result<QuotientSpace, Stop>
    requires shelf { IsShelf shelf.old }
    requires form { IsForm form.now }
    requires refined { IsRefined form.now classes.now }
    requires inside { IsSpace (guide_of form.now) space }
    ensures space { IfOk result (λ made. IsQuotientSpace shelf.new form.now classes.now space made.part made.roots) }
    ensures adds { Adds (IsUnderClasses form.now classes.now) shelf.old shelf.new }
    ensures stuck { result ≡ Err Stop.Limit → IsStuck (IsUnderClasses form.now classes.now) shelf.new }
{
    let shared = shared_part(alloc, form, space, classes)?;
    let listed = form.space(space as usize);
    let pairs = roots_of_pairs(
        alloc,
        listed,
        shared.lefts.as_slice(),
        shared.rights.as_slice(),
    )?;
    let own = classes_of(classes, space).classes.as_slice();
    let roots = rename_listed(alloc, shelf, listed, &pairs, own)?;
    Ok(QuotientSpace {
        part: shared.part,
        roots,
    })
}
