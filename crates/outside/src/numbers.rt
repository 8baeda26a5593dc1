// A list of numbers.
ghost use Rattle.std.specs.Prelude.{◌≡◌, ◌↔◌, ◌++◌, ℕ, List, [], ◌∷◌, length, OnOk, OnErr, Contains, IsTrue, slice_get};

use std::alloc::{AllocError, Global};
use std::marker::Model;

/// A list of numbers, as those of the calls that are to fail.
#[derive(Debug, Drop)]
pub struct Numbers {
    items: Vec<u64>,
}

impl Model for Numbers {
    ghost Value = { List ℕ };

    ghost view = { λ numbers. numbers.items.items };
}

impl Numbers {
    /// An empty list. It takes no memory.
    pub fn new(alloc: Global) -> Self
        ensures { result ≡ [] }
    {
        Numbers {
            items: Vec::new(alloc),
        }
    }

    /// How many numbers are listed.
    pub fn len(&self) -> usize
        ensures { result ≡ length self.now }
    {
        self.items.len()
    }

    /// Whether no number is listed.
    pub fn is_empty(&self) -> bool
        ensures { IsTrue result ↔ (self.now ≡ []) }
    {
        self.items.is_empty()
    }

    /// Adds a last number. `AllocError` only where memory was refused.
    pub fn push(&mut self, n: u64) -> Result<(), AllocError>
        ensures ok { OnOk result (self.new ≡ self.old ++ n ∷ []) }
        ensures err { OnErr result (self.new ≡ self.old) }
    {
        self.items.push(n)?;
        Ok(())
    }

    /// The number at an index from 0: `None` exactly where `i` is not below the length.
    pub fn get(&self, i: usize) -> Option<u64>
        ensures { result ≡ slice_get self.now i }
    {
        self.items.get(i).copied()
    }

    // Whether the number is listed.
    pub(crate) fn has(&self, n: u64) -> bool
        ensures { IsTrue result ↔ Contains self.now n }
    {
        self.items.contains(&n)
    }
}
