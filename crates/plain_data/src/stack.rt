ghost use Rattle.std.specs.Prelude.{◌≡◌, [], ◌∷◌, length, IfOk, OnOk, OnErr, MatchOption};
ghost use Rattle.plain_data.specs.Stacks.{top, rest};

use std::alloc::{AllocError, Global};
use std::marker::Model;

/// A stack on the heap. Contracts see the list of its elements, the top first.
#[derive(Debug, Drop)]
pub struct Stack<T> {
    /// The bottom first.
    held: Vec<T>,
}

impl<T> Model for Stack<T> {
    ghost use Rattle.std.specs.Prelude.{List, reverse};
    ghost use Rattle.std.specs.Coded.{coded_list};

    ghost Value = { List T };

    ghost coded = { coded_list T.code };

    ghost view = { λ stack. reverse stack.held.items };
}

impl<T> Stack<T> {
    /// An empty stack. Takes no memory yet.
    pub fn new(alloc: Global) -> Stack<T>
        ensures { result ≡ [] }
    {
        Stack {
            held: Vec::new(alloc),
        }
    }

    /// Takes the top off. `None` where there is none.
    pub fn pop(&mut self) -> Option<T>
        ensures { MatchOption result ((self.old ≡ []) × (self.new ≡ [])) (λ first. self.old ≡ first ∷ self.new) }
    {
        self.held.pop()
    }
}

impl<T: Drop> Stack<T> {
    /// Puts an element on top. Want of memory leaves the stack as it was.
    pub fn push(&mut self, element: T) -> Result<(), AllocError>
        ensures ok { OnOk result (self.new ≡ element ∷ self.old) }
        ensures err { OnErr result (self.new ≡ self.old) }
    {
        self.held.push(element)?;
        Ok(())
    }

    /// Takes the top off; an empty stack counts as one with this element on top.
    pub fn take_or(&mut self, otherwise: T) -> T
        ensures taken { result ≡ top otherwise self.old }
        ensures left { self.new ≡ rest self.old }
    {
        match self.pop() {
            Some(first) => first,
            None => otherwise,
        }
    }
}
