//! Store texts that stand in another order, and what is written of each. Their stores name cells that aren't there.

ghost use Rattle.store_core.specs.Stores.{Fits};

use crate::programs::SHORT;
use crate::questions::{Question, answers};
use std::alloc::{AllocError, Global};
use std::test::Fail;
use store_core::{Store, TypeTable, VarTable};
use store_text::store_text;

/// Cells of both types with gaps in their numbers, and a set with a dead member.
const GAPS: &str = "store\nvar x 2\nvar b true\nvar S {2 7}\ncell 2 Node next=2 prev=7 mark=true\n\
    cell 4 Tree:node up=5 left=4 right=4 red=true\ncell 5 Tree:leaf up=null ripe=false\nend\n";

/// A text, the text of the store that it spells, and how many cells that has.
static TEXTS: &[(&str, &str, usize)] = &[
    (
        "store\nvar x null\nvar b true\nvar S {}\nend",
        "store\nvar x null\nvar b true\nvar S {}\nend\n",
        0,
    ),
    (
        "store\nvar S {9 1000000}\nvar b false\nvar x 7\nend\n",
        "store\nvar x 7\nvar b false\nvar S {9 1000000}\nend\n",
        0,
    ),
    (
        "store\ncell 12 Node mark=true prev=3 next=3\nvar b true\ncell 3 Node next=40 prev=null mark=false\nvar x 12\nvar S {12 3}\nend\n",
        "store\nvar x 12\nvar b true\nvar S {3 12}\ncell 3 Node next=40 prev=null mark=false\ncell 12 Node next=3 prev=3 mark=true\nend\n",
        2,
    ),
    (
        "store\nvar b false\nvar S {1}\nvar x null\ncell 1000000 Tree:node red=true right=1 up=2 left=null\nend\n",
        "store\nvar x null\nvar b false\nvar S {1}\ncell 1000000 Tree:node up=2 left=null right=1 red=true\nend\n",
        1,
    ),
    (
        "store\nvar b true\nvar S {}\nvar x null\ncell 2 Tree:node right=1 left=null red=false up=1\ncell 1 Tree:leaf ripe=true up=null\nend\n",
        "store\nvar x null\nvar b true\nvar S {}\ncell 1 Tree:leaf up=null ripe=true\ncell 2 Tree:node up=1 left=null right=1 red=false\nend\n",
        2,
    ),
    (GAPS, GAPS, 3),
];

/// Whether this is written of the store.
fn is_text(
    alloc: Global,
    types: &TypeTable,
    vars: &VarTable,
    store: &Store,
    want: &str,
) -> Result<bool, AllocError>
    requires { Fits types.now vars.now store.now }
{
    let text = store_text(alloc, types, vars, store)?;
    Ok(text.as_slice() == want.as_bytes())
}

/// Whether a copy of the store has this text, so many cells, and the store's next number.
fn is_copied(
    alloc: Global,
    types: &TypeTable,
    vars: &VarTable,
    store: &Store,
    want: &str,
    cells: usize,
) -> Result<bool, AllocError>
    requires { Fits types.now vars.now store.now }
{
    let copy = store.copy(alloc)?;
    if copy.cells() != cells || copy.next() != store.next() {
        return Ok(false);
    }
    is_text(alloc, types, vars, &copy, want)
}

/// Whether this is written of the store and of its copy, which has so many cells.
pub(crate) fn is_told(
    alloc: Global,
    types: &TypeTable,
    vars: &VarTable,
    store: &Store,
    want: &str,
    cells: usize,
) -> Result<bool, AllocError>
    requires { Fits types.now vars.now store.now }
{
    Ok(
        is_text(alloc, types, vars, store, want)?
            && is_copied(alloc, types, vars, store, want, cells)?,
    )
}

#[test]
fn stores_are_written_in_their_order(rt: HostRuntime) -> Result<(), Fail> {
    for (text, want, cells) in TEXTS {
        let question = Question::Text(want, *cells);
        let is_so = answers(rt.alloc(), SHORT, "true", text, question)?;
        assert!(rt; is_so, "at {text}");
    }
    Ok(())
}
