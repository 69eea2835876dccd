//! Loop-free code: acts and plain ifs, and then a cut or a branch; and how it is dropped.

ghost use Rattle.std.specs.Prelude.{◌≡◌, ◌+◌, ◌*◌, ◌<◌};
ghost use Rattle.store_exec.specs.Dropping.{turning_weight, code_rank};

use plain_data::{Boxed, Items};
use store_logic::{Act, Cond};

/// What stands in code, in order.
pub type ItemList = Items<Item>;

/// An act, or an `if` with no cut inside. The number is the line of its first token.
///
/// Dropping an `if` takes a level of the stack for each `if` within another one.
#[derive(Debug, Drop)]
pub enum Item {
    Do(u32, Act),
    /// `if (c) { .. } else { .. }`
    If(u32, Cond, ItemList, ItemList),
}

/// Items in order, and what follows them.
///
/// A code may have as many branches behind one another as memory allows. It is dropped by a loop. Only `Debug` recurses.
#[cycle(following)]
#[derive(Debug)]
pub struct Code {
    pub items: ItemList,
    pub tail: Tail,
}

/// What follows the items of a code.
#[cycle(following)]
#[derive(Debug, Drop)]
pub enum Tail {
    /// The cut at this place in the triple's cuts, counted from 0.
    Cut(u32),
    /// An `if` with a cut inside, and its line: what follows it stands in both codes.
    Branch(u32, Cond, Boxed<Code>, Boxed<Code>),
}

impl Code {
    /// The items of a code that goes to a cut.
    #[cycle(dropping)]
    fn into_items(self) -> ItemList
        requires { code_rank self ≡ 1 }
    {
        let Code { items, tail } = self;
        match tail {
            Tail::Cut(_) => items,
            Tail::Branch(_, _cond, taken, other) => {
                let _taken = taken.into_inner();
                let _other = other.into_inner();
                items
            }
        }
    }

    /// What is left to drop of a branch with the codes `self`, which was moved out of the box `left`, and `right`. The box, which
    /// holds a code that goes to a cut in its place, is used again, so that no memory is taken.
    #[cycle(dropping)]
    fn turned(self, mut left: Boxed<Code>, right: Boxed<Code>) -> Code
        requires { code_rank left ≡ 1 }
        ensures { turning_weight result < 2 * turning_weight self + turning_weight right + 1 }
    {
        let Code { items, tail } = self;
        match tail {
            Tail::Cut(_) => {
                let _placeholder = left.into_inner();
                right.into_inner()
            }
            Tail::Branch(line, cond, first, second) => {
                let tail = Tail::Branch(line, cond, second, right);
                let items = left.replace(Code { items, tail }).into_items();
                Code {
                    items,
                    tail: Tail::Branch(line, Cond::True, first, left),
                }
            }
        }
    }
}

/// Dropped by a loop, without memory: a branch whose left code has a branch too is turned to the right, until its left code has
/// none.
impl Drop for Code {
    #[cycle(dropping)]
    fn drop(mut self) {
        loop {
            let Code { items, tail } = self;
            match tail {
                Tail::Cut(_) => return,
                Tail::Branch(_, _cond, mut left, right) => {
                    let cut = Code {
                        items,
                        tail: Tail::Cut(0),
                    };
                    let inner = left.replace(cut);
                    self = inner.turned(left, right);
                }
            }
        }
    }
}
