//! Programs with the places where their triples can fail, and with how large the formula of each place is.
//!
//! The places were worked out by hand. The sizes were counted by a program that was written from the rules of the formulas
//! alone and shares nothing with this repository. Another such program counted the same, but for twelve sizes of the module
//! that stands last: there it wrote once that a cell lies in the part of the store that a call returns, where the rules have
//! it for each variant. It didn't count the program with each statement. The first program also writes the formulas, and once
//! all of them were compared in full: they were the same.

use crate::telling::{are_sites_told, are_sizes_told};
use std::test::Fail;

struct Program {
    text: &'static [u8],
    /// For each triple the causes that can come at each line, in order.
    sites: &'static str,
    /// For each triple how many nodes the formula of each of its sites has.
    sizes: &'static str,
}

static PROGRAMS: &[Program] = &[
    // Without cells there is the exit alone.
    Program {
        text: b"proc neg(bool a) returns (bool b)
logic bool v
pre [a <=> v]
post [b <=> ~v]
{
  b = !a;
}",
        sites: " 7: dangling-ref shared leak field post;",
        sizes: " 77 177 120 77 121;",
    },
    // The same with a claim that fails.
    Program {
        text: b"proc neg(bool a) returns (bool b)
logic bool v
pre [a <=> v]
post [b]
{
  b = !a;
}",
        sites: " 7: dangling-ref shared leak field post;",
        sizes: " 77 177 120 77 100;",
    },
    // A field is written; then the exit.
    Program {
        text: b"type Node = { data next: Node; }
proc p(data x: Node) {
  x.next = null;
}",
        sites: " 3: null dangling 4: dangling-ref shared leak field post;",
        sizes: " 70 74 128 228 131 72 72;",
    },
    // The start says that there is a cell.
    Program {
        text: b"type Node = { data next: Node; }
proc p(data x: Node) returns (data y: Node)
pre [x ~= null] {
  x.next = null;
  y = x;
}",
        sites: " 4: null dangling 6: dangling-ref shared leak field post;",
        sizes: " 145 149 214 315 208 147 147;",
    },
    // A new cell has no site of its own. The sites of an `if` stand before those behind it.
    Program {
        text: b"type Dbl = { data next: Dbl; pointer prev: Dbl [^next]; }
proc dpush(data x: Dbl) returns (data y: Dbl) {
  y = new Dbl;
  y.next = x;
  if (x != null) { x.prev = y; }
}",
        sites: " 4: null dangling 5: null dangling 6: dangling-ref shared leak field post;",
        sizes: " 130 155 157 182 416 435 252 537 120;",
    },
    // The pointer field of a cell isn't set.
    Program {
        text: b"type Dbl = { data next: Dbl; pointer prev: Dbl [^next]; }
proc dpush(data x: Dbl) returns (data y: Dbl) {
  y = new Dbl;
  y.next = x;
}",
        sites: " 4: null dangling 5: dangling-ref shared leak field post;",
        sizes: " 130 155 355 435 252 456 120;",
    },
    // A loop is arrived at from its entry and from its body, and the exit is from the loop.
    Program {
        text: b"type Node = { data next: Node; }
proc reverse(data x: Node) returns (data y: Node)
logic set S: Node
pre [all c: Node: c in S]
post [all c: Node: c in S] {
  data t: Node;
  while (x != null) [(all c: Node: c in S) & t = null] {
    t = x.next;
    x.next = y;
    y = x;
    x = t;
    t = null;
  }
}",
        sites: " 7: dangling-ref shared leak field post; \
            8: null dangling 9: null dangling 7: dangling-ref shared leak field post 14: dangling-ref shared leak \
            field post;",
        sizes: " 238 281 229 192 238; \
            250 254 250 254 358 449 343 252 306 308 367 287 254 267;",
    },
    // Variables alone are assigned.
    Program {
        text: b"type Node = { data next: Node; }
proc p(data x: Node) returns (data y: Node, data z: Node) {
  y = x;
  z = x;
}",
        sites: " 5: dangling-ref shared leak field post;",
        sizes: " 227 278 212 177 177;",
    },
    // A freed cell is read, or freed again.
    Program {
        text: b"type Node = { data next: Node; }
proc p(data x: Node)
pre [x ~= null] {
  data t: Node;
  free x;
  t = x.next;
}",
        sites: " 5: null double-free 6: null dangling 7: dangling-ref shared leak field post;",
        sizes: " 145 149 145 159 230 309 208 147 147;",
    },
    Program {
        text: b"type Node = { data next: Node; }
proc p(data x: Node) pre [x ~= null] {
  free x;
  free x;
}",
        sites: " 3: null double-free 4: null double-free 5: dangling-ref shared leak field post;",
        sizes: " 97 101 97 111 187 311 190 99 99;",
    },
    // Both codes of an `if` come one after the other. A route goes up and down.
    Program {
        text: b"type C = { data next: C; pointer back: C [$.^*.root]; }
proc rotate(data x: C, pointer l: C) returns (data y: C)
pre [x<next*>l & l.next = null] {
  if (x != l) {
    y = x.next;
    x.next = null;
    l.next = x;
    l.back = null;
    x.back = y;
  } else { y = x; }
}",
        sites: " 5: null dangling 6: null dangling 7: null dangling 8: null dangling 9: null dangling 11: dangling-ref \
            shared leak field post;",
        sizes: " 281 285 281 285 281 285 281 285 281 285 611 560 421 1124 248;",
    },
    // At a call pointers are looked at before the claims.
    Program {
        text: b"type Node = { data next: Node; }
proc eat(data x: Node) returns (data y: Node) {
  y = x;
}
proc p(data x: Node, pointer q: Node) returns (data y: Node) {
  call y = eat(x);
}",
        sites: " 4: dangling-ref shared leak field post; \
            6: dangling-ref shared leak field escape post; \
            7: dangling-ref shared leak field post;",
        sizes: " 159 204 153 120 120; \
            183 217 166 133 202 140; \
            272 302 251 218 218;",
    },
    // Claims on sets of cells, by a predicate.
    Program {
        text: b"type Node = { data next: Node; }
pred even(x: Node) = [ex set E: Node: (x ~= null => x in E) & (all c: Node: (c.next = null => ~(c in E)) & (c.next ~= null => (c in E <=> ~(c.next in E))))];
proc two(data x: Node) returns (data y: Node)
pre [even(x)]
post [even(y)] {
  data t: Node;
  t = new Node;
  t.next = x;
  y = new Node;
  y.next = t;
}
proc one(data x: Node) returns (data y: Node)
pre [even(x)]
post [even(y)] {
  y = new Node;
  y.next = x;
}",
        sites: " 8: null dangling 10: null dangling 11: dangling-ref shared leak field post; \
            16: null dangling 17: dangling-ref shared leak field post;",
        sizes: " 462 490 465 520 839 1096 716 449 2062; \
            402 427 551 707 524 392 1240;",
    },
    // The start is false.
    Program {
        text: b"type Node = { data next: Node; }
proc p(data x: Node) pre [false] {
  x.next = null;
}",
        sites: " 3: null dangling 4: dangling-ref shared leak field post;",
        sizes: " 69 73 127 227 130 71 71;",
    },
    // A cut inside.
    Program {
        text: b"type Node = { data next: Node; }
proc p(data x: Node) returns (data y: Node) {
  split [x = null & y = null];
  y = x;
}",
        sites: " 3: dangling-ref shared leak field post; \
            5: dangling-ref shared leak field post;",
        sizes: " 155 196 155 120 179; \
            212 257 206 173 173;",
    },
    // A field of one variant has a site more.
    Program {
        text: b"type Tree = { } | leaf { } | node { data left: Tree; data right: Tree; }
proc p(data x: Tree) returns (data y: Tree)
pre [x ~= null] {
  x.left = null;
  y = x;
}",
        sites: " 4: null dangling variant 6: dangling-ref shared leak field post;",
        sizes: " 199 208 210 331 530 297 201 201;",
    },
    Program {
        text: b"type Tree = { } | leaf { } | node { data left: Tree; data right: Tree; }
proc grow(data a: Tree, data b: Tree) returns (data r: Tree)
post [r:node] {
  r = new Tree:node;
  r.left = a;
  r.right = b;
}",
        sites: " 5: null dangling variant 6: null dangling variant 7: dangling-ref shared leak field post;",
        sizes: " 238 271 297 238 271 297 578 870 428 225 297;",
    },
    // Each statement. The cells of a place are read, then what is assigned, and then the place is written; `free` has sites of
    // its own; a branch goes to the call or to the loop.
    Program {
        text: b"type T = { data n: T; bool b; } | a { } | k { pointer p: T [n]; }
proc g(data d: T) { }
proc p(data x: T, pointer q: T, bool c) {
  skip;
  c = x.b && q.n == null || q:k;
  x.n.p = q.n;
  if (c) { x = new T:a; } else { free x; }
  assert [true];
  if (q == null) { call g(x); }
  while (c) [true] { }
  split [true];
}",
        sites: " 2: dangling-ref shared leak field post; \
            5: null dangling null dangling null dangling 6: null dangling null dangling null dangling variant 7: null \
            double-free 8: assert 9: dangling-ref shared leak field escape post 10: dangling-ref shared leak field post; \
            10: dangling-ref shared leak field post; \
            10: dangling-ref shared leak field post 11: dangling-ref shared leak field post; \
            12: dangling-ref shared leak field post;",
        sizes: " 238 253 172 303 116; \
            152 161 159 168 222 231 152 161 152 161 208 217 219 304 366 154 876 771 568 945 651 198 878 773 570 947 \
            193; \
            415 414 339 468 281; \
            323 322 247 376 189 325 324 249 378 191; \
            296 291 210 341 154;",
    },
    // A module of lists and trees.
    Program {
        text: b"type Node = { data next: Node; }
type Dbl = { data next: Dbl; pointer prev: Dbl [^next]; }
type Tree = { data left: Tree; data right: Tree; }
proc push0(data x: Node) returns (data y: Node)
logic set S: Node
pre [all c: Node: c in S]
post [all c: Node: c in S | c = y] {
  y = new Node;
  y.next = x;
}
proc reverse1(data x: Node) returns (data y: Node)
logic set S: Node
pre [all c: Node: c in S]
post [all c: Node: c in S] {
  data t: Node;
  while (x != null) [(all c: Node: c in S) & t = null] {
    t = x.next;
    x.next = y;
    y = x;
    x = t;
    t = null;
  }
}
proc twice2(data x: Node) returns (data y: Node)
logic set S: Node
pre [all c: Node: c in S]
post [all c: Node: c in S] {
  call y = reverse1(x; S);
  call y = reverse1(y; S) keep [x = null];
}
proc dpush3(data x: Dbl) returns (data y: Dbl) {
  y = new Dbl;
  y.next = x;
  if (x != null) {
    x.prev = y;
  }
}
proc graft4(data t: Tree, data s: Tree) returns (data r: Tree) {
  pointer p: Tree;
  if (t == null) {
    r = s;
  } else {
    p = t;
    while (p.left != null) [t<left*>p & r = null] {
      p = p.left;
    }
    p.left = s;
    r = t;
  }
}
proc drop5(data x: Node) {
  data t: Node;
  while (x != null) [t = null] {
    t = x.next;
    free x;
    x = t;
    t = null;
  }
}",
        sites: " 9: null dangling 10: dangling-ref shared leak field post; \
            16: dangling-ref shared leak field post; \
            17: null dangling 18: null dangling 16: dangling-ref shared leak field post 23: dangling-ref shared leak \
            field post; \
            28: dangling-ref shared leak field escape post; \
            29: dangling-ref shared leak field escape post; \
            30: dangling-ref shared leak field post; \
            33: null dangling 35: null dangling 37: dangling-ref shared leak field post; \
            50: dangling-ref shared leak field post 44: dangling-ref shared leak field post; \
            44: null dangling 45: null dangling 44: dangling-ref shared leak field post 47: null dangling 50: \
            dangling-ref shared leak field post; \
            53: dangling-ref shared leak field post; \
            54: null dangling 55: null double-free 53: dangling-ref shared leak field post 59: dangling-ref shared \
            leak field post;",
        sizes: " 198 229 589 667 362 495 405; \
            455 477 324 408 309; \
            315 325 315 325 587 657 450 520 389 537 575 394 482 338; \
            385 415 263 351 188 362; \
            545 571 429 515 352 582; \
            599 629 477 565 421; \
            177 208 204 235 650 646 341 660 167; \
            513 530 349 437 274 503 508 355 439 413; \
            360 370 435 445 700 669 516 600 610 437 447 698 775 534 602 439; \
            360 386 244 330 205; \
            236 246 236 246 679 693 421 537 332 441 475 313 403 240;",
    },
];

#[test]
fn programs_have_these_sites(rt: HostRuntime) -> Result<(), Fail> {
    for program in PROGRAMS {
        let is_told = are_sites_told(rt.alloc(), program.text, program.sites)?;
        assert!(rt; is_told, "{}", program.sites);
    }
    Ok(())
}

#[test]
fn formulas_have_these_sizes(rt: HostRuntime) -> Result<(), Fail> {
    for program in PROGRAMS {
        let is_told = are_sizes_told(rt.alloc(), program.text, program.sizes)?;
        assert!(rt; is_told, "{}", program.sizes);
    }
    Ok(())
}
