//! The formulas of the places where some small programs can fail, in full.
//!
//! They were written by a program that was made from the rules of the formulas alone and shares nothing with this repository.
//! How many nodes and how many different parts each has is what another such program counted.
//!
//! A track is a number. `& f g` says that both hold, `~f` that f doesn't, and `E4 f` that f holds for some set on track 4.
//! `4<0` is `Sub`, `one4` is `Single`, `root4` is `Root`, `4.0=5` is `Succ0` and `4.1=5` is `Succ1`.

use crate::telling::are_formulas_told;
use std::test::Fail;

struct Spelling {
    /// A program of one triple.
    text: &'static [u8],
    /// What every formula begins with: the tree is one of a store, and the store meets the triple.
    start: &'static str,
    /// For each site that it is reached and fails.
    sites: &'static [&'static str],
}

static SPELLINGS: &[Spelling] = &[
    // Truth values alone.
    Spelling {
        text: b"proc neg(bool a) returns (bool b)
logic bool v
pre [a <=> v]
post [b <=> ~v]
{
  b = !a;
}",
        start: "& & & & ~& ~~E4 & one4 4<0 ~root0 ~& ~~E4 & one4 4<1 ~root1 ~& ~~E4 & one4 4<2 ~root2 ~E4 & one4 4<1 & ~& E4 \
            & root4 4<0 ~E4 & root4 4<2 ~& E4 & root4 4<2 ~E4 & root4 4<0",
        sites: &[
            // dangling-ref
            "& ~E4 & one4 ~one4 ~~E4 & one4 ~one4",
            // shared
            "& ~E4 & one4 ~one4 E4 & one4 & ~~E5 & one5 ~one5 ~& ~& ~~E5 & one5 ~one5 E5 & one5 & & ~~E6 & one6 ~one6 ~~E6 & one6 \
            ~one6 ~~E6 & one6 ~one6 ~E5 & one5 E6 & one6 & & ~& 5<6 6<5 & & ~~E7 & one7 ~one7 ~~E7 & one7 ~one7 ~~E7 & one7 \
            ~one7 & & ~~E7 & one7 ~one7 ~~E7 & one7 ~one7 ~~E7 & one7 ~one7",
            // leak
            "& ~E4 & one4 ~one4 E4 & ~E5 & one5 E6 & one6 & & 5<4 & & ~~E7 & one7 ~one7 ~~E7 & one7 ~one7 ~~E7 & one7 ~one7 ~6<4 \
            E5 & one5 & ~~E6 & one6 ~one6 ~5<4",
            // field
            "& ~E4 & one4 ~one4 ~~E4 & one4 ~one4",
            // post
            "E3 & ~& ~& root3 ~E4 & root4 4<0 ~& ~E4 & one4 4<3 ~~E4 & root4 4<0 & ~E4 & one4 ~one4 ~& ~& E4 & root4 4<3 ~~E4 & \
            root4 4<2 ~& ~E4 & root4 4<2 ~E4 & root4 4<3",
        ],
    },
    // A cell is written through.
    Spelling {
        text: b"type Node = { data next: Node; }
proc p(data x: Node) {
  x.next = null;
}",
        start: "& & ~E2 & one2 ~~& 2<0 ~~& ~E3 & root3 3.0=2 ~E3 & one3 & 3<0 3.0=2 ~E2 & one2 ~& ~& 2<1 ~& E3 & root3 3.0=2 \
            2<0 ~& & E3 & root3 3.0=2 2<0 ~2<1 ~E2 & one2 ~one2",
        sites: &[
            // null
            "& ~E2 & one2 ~one2 ~E2 & one2 2<1",
            // dangling
            "& ~E2 & one2 ~one2 E2 & one2 & 2<1 ~~~2<0",
            // dangling-ref
            "& ~E2 & one2 ~one2 ~& ~E2 & one2 & E3 & one3 ~one3 ~~~2<0 ~E2 & one2 E3 & one3 & & 2<0 ~& ~& & ~E4 & one4 ~one4 2<1 \
            E4 & one4 ~one4 ~& ~& ~E4 & one4 ~one4 2<1 & & 2<0 2.0=3 3<0 ~~~3<0",
            // shared
            "& ~E2 & one2 ~one2 E2 & one2 & ~~2<0 ~& ~& ~~E3 & one3 ~one3 E3 & one3 & & ~~3<0 ~~2<0 ~~~& ~& & ~E4 & one4 ~one4 \
            3<1 E4 & one4 ~one4 ~& ~& ~E4 & one4 ~one4 3<1 & & 3<0 3.0=2 2<0 ~E3 & one3 E4 & one4 & & ~& 3<4 4<3 & & ~~3<0 ~~2<0 \
            ~~~& ~& & ~E5 & one5 ~one5 3<1 E5 & one5 ~one5 ~& ~& ~E5 & one5 ~one5 3<1 & & 3<0 3.0=2 2<0 & & ~~4<0 ~~2<0 ~~~& ~& \
            & ~E5 & one5 ~one5 4<1 E5 & one5 ~one5 ~& ~& ~E5 & one5 ~one5 4<1 & & 4<0 4.0=2 2<0",
            // leak
            "& ~E2 & one2 ~one2 E2 & ~E3 & one3 E4 & one4 & & 3<2 & & ~~3<0 ~~4<0 ~~~& ~& & ~E5 & one5 ~one5 3<1 E5 & one5 ~one5 \
            ~& ~& ~E5 & one5 ~one5 3<1 & & 3<0 3.0=4 4<0 ~4<2 E3 & one3 & ~~3<0 ~3<2",
            // field
            "& ~E2 & one2 ~one2 ~~E2 & one2 ~one2",
            // post
            "& ~E2 & one2 ~one2 ~~E2 & one2 ~one2",
        ],
    },
    // Two results hold one cell.
    Spelling {
        text: b"type Node = { data next: Node; }
proc p(data x: Node) returns (data y: Node, data z: Node) {
  y = x;
  z = x;
}",
        start: "& & & & & & ~E4 & one4 ~~& 4<0 ~~& & & ~E5 & root5 5.0=4 ~E5 & root5 E6 & 5.1=6 6.0=4 ~E5 & root5 E6 & 5.1=6 \
            E7 & 6.1=7 7.0=4 ~E5 & one5 & 5<0 5.0=4 ~E4 & one4 ~& ~& 4<1 ~& E5 & root5 5.0=4 4<0 ~& & E5 & root5 5.0=4 4<0 ~4<1 \
            ~E4 & one4 ~& ~& 4<2 ~& E5 & root5 E6 & 5.1=6 6.0=4 4<0 ~& & E5 & root5 E6 & 5.1=6 6.0=4 4<0 ~4<2 ~E4 & one4 ~& ~& \
            4<3 ~& E5 & root5 E6 & 5.1=6 E7 & 6.1=7 7.0=4 4<0 ~& & E5 & root5 E6 & 5.1=6 E7 & 6.1=7 7.0=4 4<0 ~4<3 ~E4 & one4 \
            4<2 ~E4 & one4 4<3 ~E4 & one4 ~one4",
        sites: &[
            // dangling-ref
            "& ~E4 & one4 ~one4 ~& & & ~E4 & one4 & E5 & one5 ~one5 ~~~4<0 ~E4 & one4 & 4<1 ~~~4<0 ~E4 & one4 & 4<1 ~~~4<0 ~E4 & \
            one4 E5 & one5 & & 4<0 & & 4<0 4.0=5 5<0 ~~~5<0",
            // shared
            "& ~E4 & one4 ~one4 E4 & one4 & ~~4<0 ~& & & & ~& E5 & one5 ~one5 4<1 ~& E5 & one5 ~one5 4<1 ~& 4<1 4<1 ~& ~& & ~E5 & \
            one5 ~one5 ~4<1 ~4<1 E5 & one5 & & ~~5<0 ~~4<0 ~~& & 5<0 5.0=4 4<0 ~E5 & one5 E6 & one6 & & ~& 5<6 6<5 & & ~~5<0 \
            ~~4<0 ~~& & 5<0 5.0=4 4<0 & & ~~6<0 ~~4<0 ~~& & 6<0 6.0=4 4<0",
            // leak
            "& ~E4 & one4 ~one4 E4 & & & 1<4 1<4 ~E5 & one5 E6 & one6 & & 5<4 & & ~~5<0 ~~6<0 ~~& & 5<0 5.0=6 6<0 ~6<4 E5 & one5 \
            & ~~5<0 ~5<4",
            // field
            "& ~E4 & one4 ~one4 ~~E4 & one4 ~one4",
            // post
            "& ~E4 & one4 ~one4 ~~E4 & one4 ~one4",
        ],
    },
    // The start is false.
    Spelling {
        text: b"type Node = { data next: Node; }
proc p(data x: Node) pre [false] {
  x.next = null;
}",
        start: "& & ~E2 & one2 ~~& 2<0 ~~& ~E3 & root3 3.0=2 ~E3 & one3 & 3<0 3.0=2 ~E2 & one2 ~& ~& 2<1 ~& E3 & root3 3.0=2 \
            2<0 ~& & E3 & root3 3.0=2 2<0 ~2<1 E2 & one2 ~one2",
        sites: &[
            // null
            "& ~E2 & one2 ~one2 ~E2 & one2 2<1",
            // dangling
            "& ~E2 & one2 ~one2 E2 & one2 & 2<1 ~~~2<0",
            // dangling-ref
            "& ~E2 & one2 ~one2 ~& ~E2 & one2 & E3 & one3 ~one3 ~~~2<0 ~E2 & one2 E3 & one3 & & 2<0 ~& ~& & ~E4 & one4 ~one4 2<1 \
            E4 & one4 ~one4 ~& ~& ~E4 & one4 ~one4 2<1 & & 2<0 2.0=3 3<0 ~~~3<0",
            // shared
            "& ~E2 & one2 ~one2 E2 & one2 & ~~2<0 ~& ~& ~~E3 & one3 ~one3 E3 & one3 & & ~~3<0 ~~2<0 ~~~& ~& & ~E4 & one4 ~one4 \
            3<1 E4 & one4 ~one4 ~& ~& ~E4 & one4 ~one4 3<1 & & 3<0 3.0=2 2<0 ~E3 & one3 E4 & one4 & & ~& 3<4 4<3 & & ~~3<0 ~~2<0 \
            ~~~& ~& & ~E5 & one5 ~one5 3<1 E5 & one5 ~one5 ~& ~& ~E5 & one5 ~one5 3<1 & & 3<0 3.0=2 2<0 & & ~~4<0 ~~2<0 ~~~& ~& \
            & ~E5 & one5 ~one5 4<1 E5 & one5 ~one5 ~& ~& ~E5 & one5 ~one5 4<1 & & 4<0 4.0=2 2<0",
            // leak
            "& ~E2 & one2 ~one2 E2 & ~E3 & one3 E4 & one4 & & 3<2 & & ~~3<0 ~~4<0 ~~~& ~& & ~E5 & one5 ~one5 3<1 E5 & one5 ~one5 \
            ~& ~& ~E5 & one5 ~one5 3<1 & & 3<0 3.0=4 4<0 ~4<2 E3 & one3 & ~~3<0 ~3<2",
            // field
            "& ~E2 & one2 ~one2 ~~E2 & one2 ~one2",
            // post
            "& ~E2 & one2 ~one2 ~~E2 & one2 ~one2",
        ],
    },
];

#[test]
fn formulas_are_these(rt: HostRuntime) -> Result<(), Fail> {
    for it in SPELLINGS {
        let is_told = are_formulas_told(rt.alloc(), it.text, it.start, it.sites)?;
        assert!(rt; is_told, "{}", it.start);
    }
    Ok(())
}
