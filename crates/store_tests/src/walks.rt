//! Walks over data fields alone, along routes that no text can say of the store's own types: of names that are no data fields,
//! and of a variant without a name. The routes are those of a program of other types.

use crate::programs::{TREE_LINES, VARS, pre_of, program_of};
use crate::questions::{Question, answers};
use pale_typed::Typed;
use routing_expr::{Followed, ends};
use std::alloc::Global;
use std::test::Fail;
use store_core::{CellId, CellList, Store, TypeTable};
use store_logic::Assertion;

/// The types of the program that has the routes. Its types have the numbers of a node and of a tree, and each first variant that
/// of a leaf.
const OTHER_TYPES: &[u8] = b"type N = { data left: N; data up: N; data x: N; data red: N; } | a { }
type T = { bool left; } | a { }
";

/// Walks, cells, and where they lead in the store of `TREE_LINES`. Its leaf, the cell 2, is the left child of the cell 1.
static CASES: &[(&str, u32, &str)] = &[
    // Pointer fields aren't followed.
    ("x<up>x", 2, ""),
    ("x<^up>x", 1, ""),
    ("x<(left+up)*>x", 2, "2"),
    // No type has the field, or it is of another kind.
    ("x<x>x", 1, ""),
    ("x<left.^left+x>x", 1, "1"),
    ("x<red>x", 1, ""),
    ("x<!left>x", 1, ""),
    // A type without named variants has one without a name.
    ("x<@N:a>x", 4, "4"),
    ("x<@N:a>x", 2, ""),
    ("x<@T:a>x", 2, "2"),
];

/// Whether the list has the cells whose numbers are the digits of the text.
pub(crate) fn lists(cells: &CellList, digits: &str) -> bool {
    let cells = cells.as_slice();
    let digits = digits.as_bytes();
    cells.len() == digits.len()
        && cells
            .iter()
            .zip(digits.iter())
            .all(|(cell, digit)| cell.0.wrapping_add(48) == *digit as u32)
}

/// Whether the walk of a program's precondition leads from a cell to the cells of these digits.
fn leads_along(
    alloc: Global,
    types: &TypeTable,
    store: &Store,
    walk: &Typed,
    from: u32,
    wanted: &str,
) -> Result<bool, Fail> {
    let Some(Assertion::Walk(_, route, _)) = pre_of(walk) else {
        return Ok(false);
    };
    let found = ends(alloc, types, store, route, Followed::Data, CellId(from))?;
    Ok(lists(&found, wanted))
}

/// Whether a walk leads from a cell to the cells of these digits.
pub(crate) fn leads(
    alloc: Global,
    types: &TypeTable,
    store: &Store,
    walk: &str,
    from: u32,
    wanted: &str,
) -> Result<bool, Fail> {
    let other = program_of(alloc, OTHER_TYPES, b"proc p(data x: N)", walk)?;
    leads_along(alloc, types, store, &other, from, wanted)
}

#[test]
fn names_that_are_no_data_fields_lead_nowhere(rt: HostRuntime) -> Result<(), Fail> {
    for (walk, from, wanted) in CASES {
        let question = Question::Walk(walk, *from, wanted);
        let is_so = answers(rt.alloc(), VARS, "true", TREE_LINES, question)?;
        assert!(rt; is_so, "{walk} from {from} to {wanted}");
    }
    Ok(())
}
