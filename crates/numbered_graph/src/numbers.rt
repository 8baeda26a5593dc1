//! Each number of a list once.
ghost use Rattle.std.specs.Prelude.{◌≡◌, IfOk};
ghost use Rattle.numbered_graph.specs.Graphs.{each_once};

use crate::row::Row;
use indexmap::IndexSet;
use std::alloc::{AllocError, Global};

/// The numbers in the order in which each first stands in the list.
///
/// # Errors
/// `AllocError` only where memory was refused.
pub fn distinct(alloc: Global, numbers: &[usize]) -> Result<Row, AllocError>
    ensures { IfOk result (λ row. row ≡ each_once numbers.now) }
{
    let mut set = IndexSet::new(alloc);
    for number in numbers {
        set.insert(*number)?;
    }
    Row::of(alloc, set.as_slice())
}
