//! An order of the modules of a file in which each stands behind all that it uses.
ghost use Rattle.std.specs.Prelude.{◌≡◌, IfOk, length};
ghost use Rattle.numbered_graph.specs.Graphs.{IsOrder};
ghost use Rattle.fort_names.specs.Links.{named_by, links_among};

use crate::firsts::Firsts;
use fort_tree::{Module, Name, NoMemory, Use};
use numbered_graph::{Row, peel, reversed};
use std::alloc::{AllocError, Global};

/// The numbers of the modules that the lines name.
fn numbers_of(alloc: Global, names: &Firsts<Name>, lines: &[Use]) -> Result<Vec<usize>, AllocError>
    ensures { IfOk result (λ numbers. numbers.items ≡ named_by names.now lines.now) }
{
    lines
        .iter()
        .filter_map(|line| names.place(&line.name))
        .collect(alloc)
}

fn row_of(alloc: Global, names: &Firsts<Name>, lines: &[Use]) -> Result<Row, NoMemory>
    ensures { IfOk result (λ row. row ≡ named_by names.now lines.now) }
{
    let numbers = numbers_of(alloc, names, lines)?;
    Ok(Row::of(alloc, numbers.as_slice())?)
}

fn links_of(alloc: Global, names: &Firsts<Name>, modules: &[Module]) -> Result<Vec<Row>, NoMemory>
    ensures { IfOk result (λ rows. rows.items ≡ links_among names.now modules.now) }
{
    let mut rows = Vec::new(alloc);
    for one in modules {
        rows.push(row_of(alloc, names, one.uses.items())?)?;
    }
    Ok(rows)
}

/// The numbers of just the modules whose USE lines lead to no cycle, each behind all that its lines name.
pub fn order_of(
    alloc: Global,
    names: &Firsts<Name>,
    modules: &[Module],
) -> Result<Vec<usize>, NoMemory>
    requires { length names.now ≡ length modules.now }
    ensures { IfOk result (λ order. IsOrder (links_among names.now modules.now) order.items) }
{
    let links = links_of(alloc, names, modules)?;
    let back = reversed(alloc, links.as_slice())?;
    Ok(peel(alloc, links.as_slice(), back.as_slice())?)
}
