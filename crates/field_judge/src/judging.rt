//! Whether a pointer field is functional.

ghost use Rattle.std.specs.Prelude.{◌≡◌, ◌<◌, ℕ, [], Ok, IfOk};
ghost use Rattle.bdd_nodes.specs.Shelf.{limit_of};
ghost use Rattle.store_core.specs.Tables.{IsTypeTable};
ghost use Rattle.gta_keep.specs.Holding.{HasNoTables};
ghost use Rattle.field_judge.specs.declared.judging.FieldJudged.{FieldJudged};
ghost use Rattle.field_judge.specs.OneEach.{type_vars};
ghost use Rattle.field_judge.specs.Judging.{HasFieldPeak, IsLightestFork, IsLeastFork, IsFieldJudged};

use crate::forks::first_fork;
use crate::variables::one_each;
use crate::verdicts::verdict_alone;
use crate::weighing::weighed;
use bdd_nodes::Shelf;
use graph_routes::field_formula;
use std::alloc::{AllocError, Global};
use store_core::{CellId, FieldId, Store, TypeTable};
use tree_apart::cells_apart;
use tree_encode::{Layout, VariantList};
use witness_store::backbone_of;
use ws2s_core::LabelTree;
use ws2s_decide::Verdict;
use ws2s_pass::PassList;

/// What is said of a pointer field.
#[derive(Drop)]
pub enum FieldJudged {
    /// It is functional: on every backbone each cell has at most one destination for it.
    Functional,
    /// On this backbone this cell, and none of a lower number, has two destinations for it; on none of fewer cells has a cell two.
    Ambiguous(Store, CellId),
    /// The shelf has too little room: the Peak of the field's formula exceeds its limit.
    Limit,
}

/// The backbone that the tree lays out, and its first cell with two destinations for the field.
fn fork_of(
    alloc: Global,
    l: &Layout<'_>,
    f: FieldId,
    tree: &LabelTree,
) -> Result<(Store, CellId), AllocError>
    requires table { IsTypeTable l.now.types }
    requires vars { l.now.vars ≡ type_vars l.now.types }
    requires lightest { IsLightestFork l.now.types f tree.now }
    ensures { IfOk result (λ fork. IsLeastFork l.now.types f fork.0 fork.1) }
{
    let store = backbone_of(alloc, l, tree)?;
    let Some(cell) = first_fork(alloc, l.types(), &store, f)? else {
        unreachable!()
    };
    Ok((store, cell))
}

/// What is said of the field, by trees on a layout of one data variable a type.
fn judge_laid_out(
    alloc: Global,
    l: &Layout<'_>,
    f: FieldId,
    passes: &PassList,
    shelf: &mut Shelf,
) -> Result<FieldJudged, AllocError>
    requires vars { l.now.vars ≡ type_vars l.now.types }
    requires spares { l.now.spares ≡ [] }
    requires tables { HasNoTables shelf.old }
    ensures value { IfOk result (IsFieldJudged l.now.types f) }
    ensures limit { result ≡ Ok FieldJudged.Limit → (p : ℕ) → HasFieldPeak l.now.types f p → limit_of shelf.old < p }
    ensures tables { HasNoTables shelf.new }
    ensures same_limit { limit_of shelf.new ≡ limit_of shelf.old }
{
    let tracks = weighed(alloc, l)?;
    let formula = field_formula(alloc, l, f)?;
    let known = cells_apart(alloc, l)?;
    match verdict_alone(alloc, l, &formula, &known, passes, &tracks, shelf)? {
        Verdict::None => Ok(FieldJudged::Functional),
        Verdict::Witness(tree, _) => {
            let (store, cell) = fork_of(alloc, l, f, &tree)?;
            Ok(FieldJudged::Ambiguous(store, cell))
        }
        // No store has room for so many cells.
        Verdict::TooLarge => Err(AllocError),
        Verdict::Limit => Ok(FieldJudged::Limit),
    }
}

/// Judges a pointer field of the table of types: [`FieldJudged::Functional`] exactly where on every backbone, over whatever
/// variables, each cell has at most one destination for it; otherwise a backbone of the fewest cells on which a cell has two, with
/// the first such cell; or [`FieldJudged::Limit`], only where the Peak of the field's formula exceeds the shelf's limit, whatever
/// the passes are. The backbone has one data variable of each type, as [`one_each`](crate::one_each) makes them, and null in each
/// pointer field. The shelf has no table at the call, and none afterwards. A cell has no destination for a field that is no
/// pointer field, so such a field is functional. (Klarlund and Schwartzbach 1993.)
///
/// # Errors
///
/// Want of memory; also where the tracks or the spaces have no room in their integers, and where a cell has two destinations on some
/// backbone, but each tree of a least one has 2^32 - 1 nodes or more.
pub fn judge_field(
    alloc: Global,
    types: &TypeTable,
    f: FieldId,
    passes: &PassList,
    shelf: &mut Shelf,
) -> Result<FieldJudged, AllocError>
    requires { HasNoTables shelf.old }

    // The answer.
    ensures value { IfOk result (IsFieldJudged types.now f) }
    ensures limit { result ≡ Ok FieldJudged.Limit → (p : ℕ) → HasFieldPeak types.now f p → limit_of shelf.old < p }

    // What the call leaves, whatever it answers.
    ensures tables { HasNoTables shelf.new }
    ensures same_limit { limit_of shelf.new ≡ limit_of shelf.old }
{
    let vars = one_each(alloc, types)?;
    let l = Layout::new(alloc, types, &vars, &VariantList::new(alloc))?;
    judge_laid_out(alloc, &l, f, passes, shelf)
}
