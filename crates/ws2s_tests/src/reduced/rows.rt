//! Texts, and their reductions worked out by hand.

/// A text, how many free variables it has, whose tracks are the first ones, and the formulas by which it holds and breaks.
pub(super) type Row = (&'static [u8], u32, &'static str, &'static str);

/// Texts with both of their formulas.
pub(super) static ROWS: &[Row] = &[
    (
        b"ws2s; var2 X; root in X;",
        1,
        ".1 1<0 and x1",
        ".1 1<0 and x1 not",
    ),
    (
        b"ws2s; var1 p; p = root.0;",
        1,
        "=0 =1 1<0 and .2 201 and x2 and x1 and",
        "=0 =1 1<0 and .2 201 and x2 and x1 not and",
    ),
    (
        b"ws2s; ex2 X: all1 p: p in X;",
        0,
        "=1 =2 2<1 and 2<0 and x2 not and x1 not x0",
        "=1 =2 2<1 and 2<0 and x2 not and x1 not x0 not",
    ),
    (
        b"ws2s; all1 p: p.0 ~= p.1;",
        0,
        "=0 =2 2<0 and 201 and x2 =2 2<0 and 211 and x2 and x1 not not and x0 not",
        "=0 =2 2<0 and 201 and x2 =2 2<0 and 211 and x2 and x1 not not and x0 not not",
    ),
    (
        b"ws2s; var2 X, Y, Z, W; root in X; root in Y; root in Z; root in W;",
        4,
        ".4 4<0 and x4 .4 4<1 and x4 and .4 4<2 and x4 and .4 4<3 and x4 and",
        ".4 4<0 and x4 .4 4<1 and x4 and .4 4<2 and x4 and .4 4<3 and x4 and not",
    ),
    (
        b"ws2s;",
        0,
        "=0 =0 not and x0 not",
        "=0 =0 not and x0 not not",
    ),
    (b"ws2s; var1 x;", 1, "=0", "=0 =1 =1 not and x1 not not and"),
    (
        b"ws2s; var1 x; var2 Y; var1 z;",
        3,
        "=0 =2 and",
        "=0 =2 and =3 =3 not and x3 not not and",
    ),
    (
        b"ws2s; var2 X; var1 x; X sub X; var2 Y; x.0.1 notin Y;",
        3,
        "=1 0<0 and =5 5<1 and 504 and x5 413 and x4 3<2 and x3 not and",
        "=1 0<0 =5 5<1 and 504 and x5 413 and x4 3<2 and x3 not and not and",
    ),
];

/// Texts of one atom, or of two, over sets.
pub(super) static ATOMS: &[Row] = &[
    (
        b"ws2s; true;",
        0,
        "=0 =0 not and x0 not",
        "=0 =0 not and x0 not not",
    ),
    (
        b"ws2s; false;",
        0,
        "=0 =0 not and x0",
        "=0 =0 not and x0 not",
    ),
    (b"ws2s; var2 X, Y; X sub Y;", 2, "0<1", "0<1 not"),
    (
        b"ws2s; var2 X, Y; Y sub X; X sub Y;",
        2,
        "1<0 0<1 and",
        "1<0 0<1 and not",
    ),
    (
        b"ws2s; var2 X, Y; X = Y;",
        2,
        "0<1 1<0 and",
        "0<1 1<0 and not",
    ),
    (
        b"ws2s; var2 X, Y; X ~= Y;",
        2,
        "0<1 1<0 and not",
        "0<1 1<0 and not not",
    ),
    (
        b"ws2s; var2 X, Y; empty(Y);",
        2,
        "=2 2<1 and x2 not",
        "=2 2<1 and x2 not not",
    ),
    (
        b"ws2s; var2 X; root.1 in X;",
        1,
        ".2 211 and x2 1<0 and x1",
        ".2 211 and x2 1<0 and x1 not",
    ),
    (
        b"ws2s; var2 X; root.0.1 notin X;",
        1,
        ".3 302 and x3 211 and x2 1<0 and x1 not",
        ".3 302 and x3 211 and x2 1<0 and x1 not not",
    ),
    (
        b"ws2s; root = root.0;",
        0,
        ".0 .1 100 and x1 and x0",
        ".0 .1 100 and x1 and x0 not",
    ),
    (
        b"ws2s; root.1 ~= root;",
        0,
        ".1 110 and x1 .0 and x0 not",
        ".1 110 and x1 .0 and x0 not not",
    ),
];

/// Texts of one formula whose parts are joined.
pub(super) static CONNECTIVES: &[Row] = &[
    (b"ws2s; var2 X, Y; ~X sub Y;", 2, "0<1 not", "0<1 not not"),
    (
        b"ws2s; var2 X, Y; X sub Y & Y sub X;",
        2,
        "0<1 1<0 and",
        "0<1 1<0 and not",
    ),
    (
        b"ws2s; var2 X, Y; X sub Y & Y sub X & X sub X;",
        2,
        "0<1 1<0 and 0<0 and",
        "0<1 1<0 and 0<0 and not",
    ),
    (
        b"ws2s; var2 X, Y; X sub Y & (Y sub X & X sub X);",
        2,
        "0<1 1<0 0<0 and and",
        "0<1 1<0 0<0 and and not",
    ),
    (
        b"ws2s; var2 X, Y; X sub Y | Y sub X;",
        2,
        "0<1 not 1<0 not and not",
        "0<1 not 1<0 not and not not",
    ),
    (
        b"ws2s; var2 X, Y; X sub Y | Y sub X | X sub X;",
        2,
        "0<1 not 1<0 not and not not 0<0 not and not",
        "0<1 not 1<0 not and not not 0<0 not and not not",
    ),
    (
        b"ws2s; var2 X, Y; X sub Y => Y sub X;",
        2,
        "0<1 1<0 not and not",
        "0<1 1<0 not and not not",
    ),
    (
        b"ws2s; var2 X, Y; X sub Y => Y sub X => X sub X;",
        2,
        "0<1 1<0 0<0 not and not not and not",
        "0<1 1<0 0<0 not and not not and not not",
    ),
    (
        b"ws2s; var2 X, Y; X sub Y <=> Y sub X;",
        2,
        "0<1 1<0 not and not 1<0 0<1 not and not and",
        "0<1 1<0 not and not 1<0 0<1 not and not and not",
    ),
    (
        b"ws2s; var2 X, Y; X sub X <=> X sub Y <=> Y sub Y;",
        2,
        "0<0 0<1 not and not 0<1 0<0 not and not and 1<1 not and not 1<1 0<0 0<1 not and not 0<1 0<0 not and not and not and not and",
        "0<0 0<1 not and not 0<1 0<0 not and not and 1<1 not and not 1<1 0<0 0<1 not and not 0<1 0<0 not and not and not and not and not",
    ),
    (
        b"ws2s; var2 X, Y; (X sub Y & Y sub X) & X sub X;",
        2,
        "0<1 1<0 and 0<0 and",
        "0<1 1<0 and 0<0 and not",
    ),
];

/// Texts of one formula with names that it binds.
pub(super) static QUANTIFIERS: &[Row] = &[
    (b"ws2s; ex2 X: X sub X;", 0, "0<0 x0", "0<0 x0 not"),
    (
        b"ws2s; all2 X: X sub X;",
        0,
        "0<0 not x0 not",
        "0<0 not x0 not not",
    ),
    (b"ws2s; ex2 X, Y: Y sub X;", 0, "1<0 x1 x0", "1<0 x1 x0 not"),
    (
        b"ws2s; all2 X, Y: X sub Y;",
        0,
        "0<1 not x1 not not x0 not",
        "0<1 not x1 not not x0 not not",
    ),
    (
        b"ws2s; var2 X; ex1 x: x in X;",
        1,
        "=1 =2 2<1 and 2<0 and x2 and x1",
        "=1 =2 2<1 and 2<0 and x2 and x1 not",
    ),
    (
        b"ws2s; all1 x: x = x;",
        0,
        "=0 =1 1<0 and =1 1<0 and and x1 not and x0 not",
        "=0 =1 1<0 and =1 1<0 and and x1 not and x0 not not",
    ),
    (
        b"ws2s; ex1 x, y: x = y;",
        0,
        "=0 =1 =2 2<0 and =2 2<1 and and x2 and x1 and x0",
        "=0 =1 =2 2<0 and =2 2<1 and and x2 and x1 and x0 not",
    ),
    (
        b"ws2s; var2 Z; ex2 X: X sub Z & (all2 Y: Y sub X);",
        1,
        "1<0 2<1 not x2 not and x1",
        "1<0 2<1 not x2 not and x1 not",
    ),
    (
        b"ws2s; (ex2 X: X sub X) & (ex2 Y: Y sub Y);",
        0,
        "0<0 x0 0<0 x0 and",
        "0<0 x0 0<0 x0 and not",
    ),
    (
        b"ws2s; ex2 X: (ex2 Y: Y sub X) | (ex2 Z: X sub Z);",
        0,
        "1<0 x1 not 0<1 x1 not and not x0",
        "1<0 x1 not 0<1 x1 not and not x0 not",
    ),
];

/// Texts of uses of predicates.
pub(super) static PREDICATES: &[Row] = &[
    (
        b"ws2s; pred p() = false; p();",
        0,
        "=0 =0 not and x0",
        "=0 =0 not and x0 not",
    ),
    (
        b"ws2s; var2 X; pred at(var1 p, var2 S) = p in S; at(root, X);",
        1,
        ".1 =2 2<1 and 2<0 and x2 and x1",
        ".1 =2 2<1 and 2<0 and x2 and x1 not",
    ),
    (
        b"ws2s; pred at(var1 p, var2 S) = p in S; ex1 x: ex2 X: at(x, X);",
        0,
        "=0 =2 2<0 and 2<1 and x2 x1 and x0",
        "=0 =2 2<0 and 2<1 and x2 x1 and x0 not",
    ),
    (
        b"ws2s; pred same(var1 p, var1 q) = p = q; ex1 x: same(root.1, x.0);",
        0,
        "=0 .2 211 and x2 =3 3<0 and 302 and x3 =3 3<1 and =3 3<2 and and x3 and x2 and x1 and x0",
        "=0 .2 211 and x2 =3 3<0 and 302 and x3 =3 3<1 and =3 3<2 and and x3 and x2 and x1 and x0 not",
    ),
    (
        b"ws2s; pred same(var1 p, var1 q) = p = q; ex1 x: same(x, root);",
        0,
        "=0 .1 =2 2<0 and =2 2<1 and and x2 and x1 and x0",
        "=0 .1 =2 2<0 and =2 2<1 and and x2 and x1 and x0 not",
    ),
    (
        b"ws2s; var2 Y; pred p(var1 x) = x in Y; p(root);",
        1,
        ".1 =2 2<1 and 2<0 and x2 and x1",
        ".1 =2 2<1 and 2<0 and x2 and x1 not",
    ),
    (
        b"ws2s; pred p(var1 x) = x = root; var2 X; p(root.0);",
        1,
        ".2 201 and x2 =2 2<1 and .2 and x2 and x1",
        ".2 201 and x2 =2 2<1 and .2 and x2 and x1 not",
    ),
    (
        b"ws2s; pred under(var2 A) = ex2 B: A sub B; ex2 X: under(X);",
        0,
        "0<1 x1 x0",
        "0<1 x1 x0 not",
    ),
    (
        b"ws2s; pred p(var2 A, var2 B) = A sub B; pred q(var2 A, var2 B) = p(B, A); var2 X, Y; q(X, Y);",
        2,
        "1<0",
        "1<0 not",
    ),
    (
        b"ws2s; pred p(var2 A) = A sub A; var2 X, Y; p(X); ~p(Y); p(X) & p(Y);",
        2,
        "0<0 1<1 not and 0<0 1<1 and and",
        "0<0 1<1 not and 0<0 1<1 and and not",
    ),
    (
        b"ws2s; pred p(var2 A) = A sub A; var2 X; X sub X;",
        1,
        "0<0",
        "0<0 not",
    ),
];
