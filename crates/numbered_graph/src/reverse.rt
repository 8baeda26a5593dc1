//! Links the other way round.
ghost use Rattle.std.specs.Prelude.{◌≡◌, ℕ, ◌<◌, [], ◌∷◌, ◌++◌, IfOk, OnOk, true, length, slice_set, replicate};
ghost use Rattle.numbered_graph.specs.Graphs.{IsGraph, IsReverse, row as row_of, stands};
ghost use Rattle.numbered_graph.specs.Turning.{with_link, with_links, all_links};

use crate::row::Row;
use std::alloc::{AllocError, Global};

fn add_link(back: &mut [Row], to: usize, from: usize) -> Result<(), AllocError>
    requires { to < length back.old }
    ensures { OnOk result (back.new ≡ with_link from back.old to) }
{
    back[to].push(from)
}

fn add_links(back: &mut [Row], targets: &[usize], from: usize) -> Result<(), AllocError>
    requires { (y : ℕ) → stands y targets.now ≡ true → y < length back.old }
    ensures { OnOk result (back.new ≡ with_links from back.old targets.now) }
{
    for to in targets {
        add_link(back, *to, from)?;
    }
    Ok(())
}

fn empty_rows(alloc: Global, n: usize) -> Result<Vec<Row>, AllocError>
    ensures { IfOk result (λ rows. rows.items ≡ replicate n []) }
{
    let mut rows = Vec::new(alloc);
    for _point in 0..n {
        rows.push(Row::new(alloc))?;
    }
    Ok(rows)
}

/// The graph with all links the other way round.
///
/// # Errors
/// `AllocError` only where memory was refused.
pub fn reversed(alloc: Global, rows: &[Row]) -> Result<Vec<Row>, AllocError>
    requires { IsGraph rows.now }
    ensures { IfOk result (λ back. IsReverse rows.now back.items) }
{
    let mut back = empty_rows(alloc, rows.len())?;
    for (from, row) in rows.iter().enumerate() {
        add_links(&mut back, row.numbers(), from)?;
    }
    Ok(back)
}
