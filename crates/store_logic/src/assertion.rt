//! Assertions, and how they are dropped.

ghost use Rattle.std.specs.Prelude.{◌≡◌, ◌+◌, ◌*◌, ◌<◌};
ghost use Rattle.store_logic.specs.Dropping.{turning_weight, dropping_rank};

use crate::arg::ArgList;
use crate::term::{Base, Term};
use plain_data::Boxed;
use store_core::{Route, TypeId, VariantId};

/// What is said of a store: preconditions, invariants and `assert` are written so. When a store satisfies one is `Sat`.
///
/// An assertion may be as deep as memory allows: predicates put into predicates have 65,536 nodes one under the other. It is
/// copied and dropped by loops. Only `Debug` recurses.
#[derive(Debug)]
pub enum Assertion {
    True,
    False,
    /// The term is true.
    Truth(Term),
    /// `t:v`: the term is a live cell of the variant.
    Is(Term, VariantId),
    /// `t = u`: both are the same cell, or both are null.
    Same(Term, Term),
    /// `t in S`: the term is a cell of the set.
    Member(Term, Base),
    /// `S sub U`: each live cell of the first set is in the second.
    Subset(Base, Base),
    /// `t<R>u`: a walk of the route leads from the first term to the second, over data fields and pointer fields.
    Walk(Term, Route, Term),
    /// A predicate of a list of them, by its place counted from 0, with its arguments.
    Pred(u32, ArgList),
    Not(Boxed<Assertion>),
    And(Boxed<Assertion>, Boxed<Assertion>),
    Or(Boxed<Assertion>, Boxed<Assertion>),
    Imp(Boxed<Assertion>, Boxed<Assertion>),
    Iff(Boxed<Assertion>, Boxed<Assertion>),
    /// For some live cell of the type.
    Ex(TypeId, Boxed<Assertion>),
    /// For all live cells of the type.
    All(TypeId, Boxed<Assertion>),
    /// For some finite set of live cells of the type.
    ExSet(TypeId, Boxed<Assertion>),
    /// For all finite sets of live cells of the type.
    AllSet(TypeId, Boxed<Assertion>),
}

impl Assertion {
    /// What is left to drop of an assertion with the parts `self`, which was moved out of the box `left`, and `right`. The
    /// box, which holds an assertion without parts in its place, is used again, so that no memory is taken.
    #[cycle(dropping)]
    fn turned(self, mut left: Boxed<Assertion>, right: Boxed<Assertion>) -> Assertion
        requires { dropping_rank left ≡ 0 }
        ensures { turning_weight result < 2 * turning_weight self + turning_weight right + 1 }
    {
        match self {
            Assertion::And(first, second)
            | Assertion::Or(first, second)
            | Assertion::Imp(first, second)
            | Assertion::Iff(first, second) => {
                let _placeholder = left.replace(Assertion::And(second, right));
                Assertion::And(first, left)
            }
            Assertion::Not(inner)
            | Assertion::Ex(_, inner)
            | Assertion::All(_, inner)
            | Assertion::ExSet(_, inner)
            | Assertion::AllSet(_, inner) => {
                let _placeholder = left.into_inner();
                Assertion::And(inner, right)
            }
            Assertion::True
            | Assertion::False
            | Assertion::Truth(_)
            | Assertion::Is(_, _)
            | Assertion::Same(_, _)
            | Assertion::Member(_, _)
            | Assertion::Subset(_, _)
            | Assertion::Walk(_, _, _)
            | Assertion::Pred(_, _) => {
                let _placeholder = left.into_inner();
                right.into_inner()
            }
        }
    }
}

/// Dropped by a loop, without memory: an assertion of two parts whose left part has parts too is turned to the right, until its
/// left part has none.
impl Drop for Assertion {
    #[cycle(dropping)]
    fn drop(mut self) {
        loop {
            match self {
                Assertion::And(mut left, right)
                | Assertion::Or(mut left, right)
                | Assertion::Imp(mut left, right)
                | Assertion::Iff(mut left, right) => {
                    let inner = left.replace(Assertion::True);
                    self = inner.turned(left, right);
                }
                Assertion::Not(inner)
                | Assertion::Ex(_, inner)
                | Assertion::All(_, inner)
                | Assertion::ExSet(_, inner)
                | Assertion::AllSet(_, inner) => self = inner.into_inner(),
                Assertion::Truth(_term) | Assertion::Is(_term, _) | Assertion::Member(_term, _) =>
                    return,
                Assertion::Same(_one, _other) => return,
                Assertion::Walk(_from, _route, _to) => return,
                Assertion::Pred(_, _args) => return,
                Assertion::True | Assertion::False | Assertion::Subset(_, _) => return,
            }
        }
    }
}
