//! Stacks.
ghost use Rattle.std.specs.Prelude.{◌≡◌, [], ◌∷◌, ◌++◌, reverse, MatchOption, OnOk, IfOk};

use fort_tree::NoMemory;
use std::alloc::Global;
use std::marker::Model;

/// A stack, which contracts see as the list of its items, the top first.
#[derive(Debug, Drop)]
pub struct Stack<T> {
    items: Vec<T>,
}

impl<T> Model for Stack<T> {
    ghost use Rattle.std.specs.Prelude.{List, reverse};
    ghost use Rattle.std.specs.Coded.{coded_list};

    ghost Value = { List T };

    ghost coded = { coded_list T.code };

    ghost view = { λ it. reverse it.items.items };
}

impl<T> Stack<T> {
    /// The empty stack. It takes no memory.
    pub fn new(alloc: Global) -> Stack<T>
        ensures { result ≡ [] }
    {
        Stack {
            items: Vec::new(alloc),
        }
    }

    /// The items, the top last.
    pub fn items(&self) -> &[T]
        ensures { self.now ≡ reverse result.now }
    {
        self.items.as_slice()
    }

    /// Takes the top off, if there is one.
    pub fn pop(&mut self) -> Option<T>
        ensures { MatchOption result ((self.old ≡ []) × (self.new ≡ [])) (λ top. self.old ≡ top ∷ self.new) }
    {
        self.items.pop()
    }
}

impl<T: Drop> Stack<T> {
    /// Puts an item on top.
    ///
    /// # Errors
    /// `NoMemory` only where memory for it was refused. The item is dropped then.
    pub fn push(&mut self, item: T) -> Result<(), NoMemory>
        ensures { OnOk result (self.new ≡ item ∷ self.old) }
    {
        self.items.push(item)?;
        Ok(())
    }
}

impl<T: Copy> Stack<T> {
    /// An equal stack.
    ///
    /// # Errors
    /// `NoMemory` only where memory for it was refused.
    pub fn copied(&self, alloc: Global) -> Result<Stack<T>, NoMemory>
        ensures { IfOk result (λ copy. copy ≡ self.now) }
    {
        let items = Vec::from_slice(alloc, self.items.as_slice())?;
        Ok(Stack { items })
    }
}
