//! Stores, and what is true of them on their parts and rests.

use super::On;
use crate::programs::TREE_LINES;
use store_core::VarId;

const NO_VARS: &[VarId] = &[];

const X: &[VarId] = &[VarId(0)];

const Y: &[VarId] = &[VarId(1)];

const T: &[VarId] = &[VarId(3)];

const XY: &[VarId] = &[VarId(0), VarId(1)];

const XT: &[VarId] = &[VarId(0), VarId(3)];

/// Where the store is looked at, an assertion, and whether it is true there.
pub type Row = (On, &'static str, bool);

/// A store, and what is true of it.
pub struct Case {
    pub text: &'static str,
    pub rows: &'static [Row],
}

/// Three nodes in a row, of which `p` is in the middle.
const LIST: Case = Case {
    text: "store\nvar x 1\nvar y null\nvar p 2\nvar t null\nvar q null\nvar S {1 3}\nvar U {1 2 3}\nvar b true\nvar v false\n\
        cell 1 Node next=2 prev=null mark=true\ncell 2 Node next=3 prev=1 mark=false\ncell 3 Node next=null prev=2 mark=true\nend\n",
    rows: &[
        (On::Rest(X), "x = null", true),
        (On::Part(Y), "x = null", true),
    ],
};

/// A tree and two lists.
const TREES: Case = Case {
    text: TREE_LINES,
    rows: &[
        (On::Part(T), "x = null", true),
        (On::Part(T), "x in S", false),
        (On::Rest(T), "t = null", true),
        (On::Rest(T), "t.left = null", true),
        (On::Rest(T), "t.red", false),
        (On::Part(X), "y = null", true),
        (On::Part(X), "y in S", false),
        (On::Rest(X), "x = null", true),
        (On::Part(XY), "t = null", true),
        (On::Part(XT), "y = null", true),
    ],
};

/// The cells 7, 8 and 9 are dead. `x` and `y` are one cell, and the second node is named by two others.
const DEAD: Case = Case {
    text: "store\nvar x 1\nvar y 1\nvar p 7\nvar t null\nvar q null\nvar S {1 7}\nvar U {2}\nvar b false\nvar v false\n\
        cell 1 Node next=2 prev=9 mark=true\ncell 2 Node next=8 prev=1 mark=false\ncell 3 Node next=2 prev=3 mark=true\nend\n",
    rows: &[
        (On::Part(X), "p = null", true),
        (On::Part(X), "all c: Node: c = x | c = x.next", true),
        (On::Part(X), "S sub U", false),
        (On::Part(X), "x.next.prev = x", true),
        (On::Part(X), "ex c: Node: c<next>x.next & c ~= x", false),
        (On::Rest(X), "x = null", true),
        (On::Rest(X), "y = null", true),
        (On::Rest(X), "all c: Node: c.next = null", true),
        (On::Rest(X), "ex c: Node: c<prev>c", true),
        (On::Rest(X), "all c: Node: c<$>c", true),
        (On::Rest(X), "all c: Node: c<root>c", true),
        (On::Rest(X), "S sub U", true),
        (On::Rest(X), "U sub S", true),
        (On::Rest(X), "ex c: Node: c in U", false),
    ],
};

/// The cells 5 and 6 are dead, and sets hold them.
const SETS: Case = Case {
    text: "store\nvar x 2\nvar y null\nvar p 5\nvar t null\nvar q null\nvar S {2 5}\nvar U {5 6}\nvar b true\nvar v true\n\
        cell 2 Node next=4 prev=2 mark=false\ncell 4 Node next=null prev=6 mark=false\nend\n",
    rows: &[
        (On::Part(X), "S sub U", false),
        (On::Part(X), "x<next>x.next", true),
        (On::Rest(X), "all c: Node: false", true),
        (On::Rest(X), "S sub U", true),
        (On::Rest(X), "x = null", true),
        (On::Rest(X), "x in S", false),
    ],
};

/// Two lists of one node each.
const TWO: Case = Case {
    text: "store\nvar x 1\nvar y 2\nvar p null\nvar t null\nvar q null\nvar S {}\nvar U {}\nvar b false\nvar v false\n\
        cell 1 Node next=null prev=null mark=false\ncell 2 Node next=null prev=null mark=false\nend\n",
    rows: &[
        (On::Part(X), "x ~= null & y = null", true),
        (On::Rest(X), "x = null & y ~= null", true),
        (On::Part(X), "y ~= null", false),
        (On::Rest(X), "x ~= null", false),
        (On::Rest(XY), "x = null & y = null", true),
        (On::Part(XY), "x ~= null & y ~= null", true),
        (On::Part(Y), "y ~= null & x = null", true),
        (On::Rest(Y), "x ~= null & y = null", true),
        (On::Part(Y), "x ~= null", false),
        (On::Rest(Y), "y ~= null", false),
        (On::Rest(NO_VARS), "x ~= null", true),
        (On::Part(NO_VARS), "all c: Node: false", true),
    ],
};

/// A list of two nodes, and one of one.
const THREE: Case = Case {
    text: "store\nvar x 1\nvar y 3\nvar p null\nvar t null\nvar q null\nvar S {}\nvar U {}\nvar b false\nvar v false\n\
        cell 1 Node next=2 prev=null mark=false\ncell 2 Node next=null prev=1 mark=false\ncell 3 Node next=null prev=null mark=false\nend\n",
    rows: &[
        (On::Part(X), "x.next ~= null", true),
        (On::Rest(X), "x.next = null", true),
    ],
};

/// All of these.
pub static CASES: &[Case] = &[LIST, TREES, DEAD, SETS, TWO, THREE];
