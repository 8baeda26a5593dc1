//! Lists of numbers.
ghost use Rattle.std.specs.Prelude.{◌≡◌, [], ◌∷◌, ◌++◌, IfOk, OnOk, OnErr};

use std::alloc::{AllocError, Global};
use std::marker::Model;

/// Numbers in an order. Contracts see the list.
#[derive(Debug, Drop)]
pub struct Row {
    numbers: Vec<usize>,
}

impl Model for Row {
    ghost use Rattle.std.specs.Prelude.{List, ℕ};

    ghost Value = { List ℕ };

    ghost view = { λ s. s.numbers.items };
}

impl Row {
    /// The empty list. It takes no memory.
    pub fn new(alloc: Global) -> Row
        ensures { result ≡ [] }
    {
        Row {
            numbers: Vec::new(alloc),
        }
    }

    /// The list of these numbers.
    ///
    /// # Errors
    /// `AllocError` only where memory for it was refused.
    pub fn of(alloc: Global, numbers: &[usize]) -> Result<Row, AllocError>
        ensures { IfOk result (λ row. row ≡ numbers.now) }
    {
        Ok(Row {
            numbers: Vec::from_slice(alloc, numbers)?,
        })
    }

    /// Puts a number last.
    ///
    /// # Errors
    /// `AllocError` only where memory for it was refused. The list stays as it was.
    pub fn push(&mut self, number: usize) -> Result<(), AllocError>
        ensures ok { OnOk result (self.new ≡ self.old ++ number ∷ []) }
        ensures err { OnErr result (self.new ≡ self.old) }
    {
        self.numbers.push(number)?;
        Ok(())
    }

    /// The numbers, in their order.
    pub fn numbers(&self) -> &[usize]
        ensures { result.now ≡ self.now }
    {
        self.numbers.as_slice()
    }
}
