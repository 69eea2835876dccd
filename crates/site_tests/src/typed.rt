//! Programs with all forms, and their typed trees.

use pale_text::TextStop;
use pale_typed::Typed;
use std::alloc::{AllocError, Global};
use std::test::Fail;
use whole_program::read_program;

/// A procedure with each form of statement, over a type and a predicate.
static TEXT: &[u8] = b"type N = { data f: N; }
pred e(x: N) = [x = null];
proc p(data x: N, bool a) returns (data y: N) logic bool v pre [e(x)] post [v] {
  pointer q: N;
  skip;
  if (a) { q = x.f; } else { free x; }
  while (x != null) [a] { x = null; }
  split [true];
  assert [v];
  call y = p(x, true; v) keep [false];
  y = new N;
}
";

/// Its variables have the numbers 0 to 4, in the order `x`, `a`, `y`, `q`, `v`; the predicate is put in.
static TREE: &str =
    "TypedProc { name: Items { held: [112] }, place: Pos { line: 3, column: 1 }, last: 12, \
params: Items { held: [VarId(0), VarId(1)] }, results: Items { held: [VarId(2)] }, locals: \
Items { held: [VarId(3)] }, logics: Items { held: [VarId(4)] }, pre: Same(At(Var(VarId(0)), \
Items { held: [] }), Null), post: Truth(At(Var(VarId(4)), Items { held: [] })), body: Items \
{ held: [Skip, If(6, Bool(Path { var: VarId(1), fields: Items { held: [] } }), Items { \
held: [Do(6, Assign(Path { var: VarId(3), fields: Items { held: [] } }, Cell(Path(Path { \
var: VarId(0), fields: Items { held: [FieldId { ty: TypeId(0), index: 0 }] } }))))] }, \
Items { held: [Do(6, Free(VarId(0)))] }), While(Pos { line: 7, column: 3 }, Not(Boxed { \
held: Same(Path(Path { var: VarId(0), fields: Items { held: [] } }), Null) }), \
Truth(At(Var(VarId(1)), Items { held: [] })), Items { held: [Do(7, Assign(Path { var: \
VarId(0), fields: Items { held: [] } }, Cell(Null)))] }), Split(Pos { line: 8, column: 3 }, \
True), Do(9, Assert(Truth(At(Var(VarId(4)), Items { held: [] })))), Call(Pos { line: 10, \
column: 3 }, CallParts { callee: 0, results: Items { held: [VarId(2)] }, args: Items { \
held: [Var(VarId(0)), Truth(true)] }, logics: Items { held: [Var(VarId(4))] }, keep: False \
}), Do(11, Assign(Path { var: VarId(2), fields: Items { held: [] } }, New(VariantId { ty: \
TypeId(0), index: 0 })))] } }";

/// A procedure with each form of assertion, route, condition and assignment.
static FORMS: &[u8] =
    b"type T = { bool b; data f: T; pointer g: T [^f]; } | v { data k: T; } | w { }
proc p(data x: T, pointer q: T, bool a) returns (data y: T) logic set S: T, bool m
  pre [x in S & S sub S | ~x:v => (x = q <=> x.f ~= null)]
  post [(ex c: T: y<f.g+^f.^*+$+root+@T+@T:w+?b+!b>c & c.b) & (all c: T: m) | all set R: T: ex set Q: T: y in Q & R sub Q | true | false] {
  data t: T;
  a = (x == q || x.f != null) && !(x:v) && x.b && true && !false;
  x.b = a;
  y = new T:w;
  y.f = t.f;
  t = null;
}
";

/// Its variables have the numbers 0 to 6, in the order `x`, `q`, `a`, `y`, `t`, `S`, `m`; the fields of `T` are `b`, `f`, `g` and
/// `k`, its variants `v` and `w`. Chains group to the left, and a bound name counts the quantifiers between.
static FORMS_TREE: &str =
    "TypedProc { name: Items { held: [112] }, place: Pos { line: 2, column: 1 }, last: \
11, params: Items { held: [VarId(0), VarId(1), VarId(2)] }, results: Items { held: \
[VarId(3)] }, locals: Items { held: [VarId(4)] }, logics: Items { held: [VarId(5), \
VarId(6)] }, pre: Imp(Boxed { held: Or(Boxed { held: And(Boxed { held: \
Member(At(Var(VarId(0)), Items { held: [] }), Var(VarId(5))) }, Boxed { held: \
Subset(Var(VarId(5)), Var(VarId(5))) }) }, Boxed { held: Not(Boxed { held: \
Is(At(Var(VarId(0)), Items { held: [] }), VariantId { ty: TypeId(0), index: 0 }) }) \
}) }, Boxed { held: Iff(Boxed { held: Same(At(Var(VarId(0)), Items { held: [] }), \
At(Var(VarId(1)), Items { held: [] })) }, Boxed { held: Not(Boxed { held: \
Same(At(Var(VarId(0)), Items { held: [FieldId { ty: TypeId(0), index: 1 }] }), \
Null) }) }) }), post: Or(Boxed { held: And(Boxed { held: Ex(TypeId(0), Boxed { \
held: And(Boxed { held: Walk(At(Var(VarId(3)), Items { held: [] }), Or(Boxed { \
held: Or(Boxed { held: Or(Boxed { held: Or(Boxed { held: Or(Boxed { held: Or(Boxed \
{ held: Or(Boxed { held: Then(Boxed { held: Down(Items { held: [102] }) }, Boxed { \
held: Down(Items { held: [103] }) }) }, Boxed { held: Then(Boxed { held: Up(Items { \
held: [102] }) }, Boxed { held: Star(Boxed { held: UpAny }) }) }) }, Boxed { held: \
Leaf }) }, Boxed { held: Root }) }, Boxed { held: IsType(TypeId(0)) }) }, Boxed { \
held: IsVariant(VariantId { ty: TypeId(0), index: 1 }) }) }, Boxed { held: \
IsBool(Items { held: [98] }, true) }) }, Boxed { held: IsBool(Items { held: [98] }, \
false) }), At(Bound(0), Items { held: [] })) }, Boxed { held: Truth(At(Bound(0), \
Items { held: [FieldId { ty: TypeId(0), index: 0 }] })) }) }) }, Boxed { held: \
All(TypeId(0), Boxed { held: Truth(At(Var(VarId(6)), Items { held: [] })) }) }) }, \
Boxed { held: AllSet(TypeId(0), Boxed { held: ExSet(TypeId(0), Boxed { held: \
Or(Boxed { held: Or(Boxed { held: And(Boxed { held: Member(At(Var(VarId(3)), Items \
{ held: [] }), Bound(0)) }, Boxed { held: Subset(Bound(1), Bound(0)) }) }, Boxed { \
held: True }) }, Boxed { held: False }) }) }) }), body: Items { held: [Do(6, \
Assign(Path { var: VarId(2), fields: Items { held: [] } }, Truth(And(Boxed { held: \
And(Boxed { held: And(Boxed { held: And(Boxed { held: Or(Boxed { held: \
Same(Path(Path { var: VarId(0), fields: Items { held: [] } }), Path(Path { var: \
VarId(1), fields: Items { held: [] } })) }, Boxed { held: Not(Boxed { held: \
Same(Path(Path { var: VarId(0), fields: Items { held: [FieldId { ty: TypeId(0), \
index: 1 }] } }), Null) }) }) }, Boxed { held: Not(Boxed { held: Is(Path { var: \
VarId(0), fields: Items { held: [] } }, VariantId { ty: TypeId(0), index: 0 }) }) \
}) }, Boxed { held: Bool(Path { var: VarId(0), fields: Items { held: [FieldId { ty: \
TypeId(0), index: 0 }] } }) }) }, Boxed { held: True }) }, Boxed { held: Not(Boxed \
{ held: False }) })))), Do(7, Assign(Path { var: VarId(0), fields: Items { held: \
[FieldId { ty: TypeId(0), index: 0 }] } }, Truth(Bool(Path { var: VarId(2), fields: \
Items { held: [] } })))), Do(8, Assign(Path { var: VarId(3), fields: Items { held: \
[] } }, New(VariantId { ty: TypeId(0), index: 1 }))), Do(9, Assign(Path { var: \
VarId(3), fields: Items { held: [FieldId { ty: TypeId(0), index: 1 }] } }, \
Cell(Path(Path { var: VarId(4), fields: Items { held: [FieldId { ty: TypeId(0), \
index: 1 }] } })))), Do(10, Assign(Path { var: VarId(4), fields: Items { held: [] } \
}, Cell(Null)))] } }";

/// How a program's first procedure is printed for debugging.
fn shown(alloc: Global, typed: &Typed) -> Result<String, AllocError> {
    match typed.proc(0) {
        Some(procedure) => format!(in alloc; "{procedure:?}"),
        None => Ok(String::new(alloc)),
    }
}

/// Whether this is how a program's first procedure is printed for debugging.
fn is_shown(alloc: Global, typed: &Typed, want: &str) -> Result<bool, TextStop> {
    let tree = shown(alloc, typed)?;
    Ok(tree.as_str() == want)
}

/// Whether this is how a text's first procedure is printed for debugging.
fn is_tree(alloc: Global, text: &[u8], want: &str) -> Result<bool, TextStop> {
    if text.len() >= 1000 {
        return Ok(false);
    }
    let whole = read_program(alloc, text)?;
    is_shown(alloc, &whole.typed, want)
}

#[test]
fn each_form_is_typed(rt: HostRuntime) -> Result<(), Fail> {
    for (text, tree) in [(TEXT, TREE), (FORMS, FORMS_TREE)] {
        assert!(rt; is_tree(rt.alloc(), text, tree)?, "{tree}");
    }
    Ok(())
}
