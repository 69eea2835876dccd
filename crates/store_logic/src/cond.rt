//! Conditions of code, and how they are dropped.

ghost use Rattle.std.specs.Prelude.{◌≡◌, ◌+◌, ◌*◌, ◌<◌};
ghost use Rattle.store_logic.specs.DroppingConds.{turning_weight, dropping_rank};

use crate::path::{Operand, Path};
use plain_data::Boxed;
use store_core::VariantId;

/// A condition, as `if`, `while` and assignments of truth values have it. It is read from the left, and `And` and `Or` stop
/// early.
///
/// A condition may be as deep as memory allows, as a long chain of `&&` is. It is copied and dropped by loops. Only `Debug`
/// recurses.
#[derive(Debug)]
pub enum Cond {
    True,
    False,
    /// The variable or field at the path is true.
    Bool(Path),
    /// `p:v`: the cell that the path names is of the variant.
    Is(Path, VariantId),
    /// `p == q`: both are the same cell, or both are null.
    Same(Operand, Operand),
    Not(Boxed<Cond>),
    And(Boxed<Cond>, Boxed<Cond>),
    Or(Boxed<Cond>, Boxed<Cond>),
}

impl Cond {
    /// What is left to drop of a condition with the parts `self`, which was moved out of the box `left`, and `right`. The box,
    /// which holds a condition without parts in its place, is used again, so that no memory is taken.
    #[cycle(dropping)]
    fn turned(self, mut left: Boxed<Cond>, right: Boxed<Cond>) -> Cond
        requires { dropping_rank left ≡ 0 }
        ensures { turning_weight result < 2 * turning_weight self + turning_weight right + 1 }
    {
        match self {
            Cond::And(first, second) | Cond::Or(first, second) => {
                let _placeholder = left.replace(Cond::And(second, right));
                Cond::And(first, left)
            }
            Cond::Not(inner) => {
                let _placeholder = left.into_inner();
                Cond::And(inner, right)
            }
            Cond::True | Cond::False | Cond::Bool(_) | Cond::Is(_, _) | Cond::Same(_, _) => {
                let _placeholder = left.into_inner();
                right.into_inner()
            }
        }
    }
}

/// Dropped by a loop, without memory: a condition of two parts whose left part has parts too is turned to the right, until its
/// left part has none.
impl Drop for Cond {
    #[cycle(dropping)]
    fn drop(mut self) {
        loop {
            match self {
                Cond::And(mut left, right) | Cond::Or(mut left, right) => {
                    let inner = left.replace(Cond::True);
                    self = inner.turned(left, right);
                }
                Cond::Not(inner) => self = inner.into_inner(),
                Cond::Bool(_path) | Cond::Is(_path, _) => return,
                Cond::Same(_one, _other) => return,
                Cond::True | Cond::False => return,
            }
        }
    }
}
