//! The programs of all tests, whose first procedure has the variables of stores, and stores over them as texts.

ghost use Rattle.std.specs.Prelude.{◌<◌, length, IfOk};
ghost use Rattle.store_core.specs.Stores.{Fits};

use pale_parse::parse;
use pale_syntax::Program;
use pale_text::{TextStop, lex};
use pale_typed::Typed;
use pale_types::check_types;
use plain_writer::Writer;
use std::alloc::{AllocError, Global};
use std::test::Fail;
use store_core::{Store, TypeTable, VarTable};
use store_logic::Assertion;
use store_text::{read_store, read_stores_fit};

/// The types of most tests.
pub(crate) const TYPES: &[u8] =
    b"type Node = { data next: Node; pointer prev: Node [^]; bool mark; }
type Tree = { pointer up: Tree [^]; } | leaf { bool ripe; } | node { data left: Tree; data right: Tree; bool red; }
";

/// The variables of most stores.
pub(crate) const VARS: &[u8] =
    b"proc p(data x: Node, data y: Node, pointer p: Node, data t: Tree, pointer q: Tree, bool b) \
        logic set S: Node, set U: Node, bool v";

/// The variables of others.
pub(crate) const SHORT: &[u8] = b"proc p(data x: Node, bool b) logic set S: Node";

/// A store over these without cells.
pub(crate) const NONE: &str = "store\nvar x null\nvar b false\nvar S {}\nend\n";

/// A tree of two nodes and a leaf, of which `q` is the right node, and two lists of one node each.
pub(crate) const TREE_LINES: &str =
    "store\nvar x 4\nvar y 5\nvar p null\nvar t 1\nvar q 3\nvar S {4 5}\nvar U {}\nvar b false\nvar v true\n\
        cell 1 Tree:node up=null left=2 right=3 red=true\ncell 2 Tree:leaf up=1 ripe=true\n\
        cell 3 Tree:node up=1 left=null right=null red=false\ncell 4 Node next=null prev=null mark=false\n\
        cell 5 Node next=null prev=null mark=false\nend\n";

/// The tree of a text.
fn tree_of(alloc: Global, text: &[u8]) -> Result<Program, TextStop>
    requires { length text.now < u32.MAX }
{
    let list = lex(alloc, text)?;
    parse(alloc, &list)
}

fn typed_of(alloc: Global, text: &[u8]) -> Result<Typed, TextStop>
    requires { length text.now < u32.MAX }
{
    let program = tree_of(alloc, text)?;
    check_types(alloc, &program)
}

/// The text of a program of these types whose procedure has these variables and this precondition.
fn text_of(alloc: Global, types: &[u8], vars: &[u8], pre: &[u8]) -> Result<Vec<u8>, AllocError> {
    let mut text = Writer::new(alloc);
    text.push_all(types);
    text.push_all(vars);
    text.push_all(b" pre [");
    text.push_all(pre);
    text.push_all(b"] { }");
    text.finish()
}

/// The program of a text; want of memory where it is long.
fn short_program_of(alloc: Global, text: &[u8]) -> Result<Typed, TextStop> {
    if text.len() > 1000 {
        return Err(TextStop::from(AllocError));
    }
    typed_of(alloc, text)
}

/// The program of these types whose procedure has these variables and this precondition.
pub(crate) fn program_of(
    alloc: Global,
    types: &[u8],
    vars: &[u8],
    pre: &str,
) -> Result<Typed, TextStop> {
    let text = text_of(alloc, types, vars, pre.as_bytes())?;
    short_program_of(alloc, &text)
}

/// The precondition of the procedure of such a program.
pub(crate) fn pre_of(typed: &Typed) -> Option<&Assertion> {
    Some(&typed.proc(0)?.pre)
}

/// The store of a text, which fits its tables.
pub(crate) fn store_of(
    alloc: Global,
    types: &TypeTable,
    vars: &VarTable,
    text: &[u8],
) -> Result<Store, Fail>
    ensures { IfOk result (Fits types.now vars.now) }
{
    if text.len() > 1000 {
        return Err("a long text".into());
    }
    read_stores_fit();
    let store = read_store(alloc, types, vars, text)?;
    Ok(store)
}
