//! The calls of a file, by the numbers of its units.
ghost use Rattle.std.specs.Prelude.{◌≡◌, [], IfOk};
ghost use Rattle.fort_names.specs.Scoping.{AreSymbolsOf};
ghost use Rattle.sound_programs.specs.Faults.{faults_of_names};
ghost use Rattle.sound_programs.specs.Placing.{placed};
ghost use Rattle.numbered_graph.specs.Graphs.{each_once};
ghost use Rattle.call_graph.specs.Calling.{AreCalls};
ghost use Rattle.call_graph.specs.Referring.{callees_of as callees_by, numbers};

use crate::groups::Groups;
use crate::reference::Reference;
use crate::references::references_of;
use fort_names::Symbols;
use fort_tree::{File, NoMemory, Seq};
use numbered_graph::{Row, depths, distinct, peel, reversed};
use std::alloc::Global;

/// Calls are too deep from here on.
pub const TOO_DEEP: usize = 65;

/// The references of each unit, the units to which it refers, and an order of those that lead to no cycle. The depth of a unit
/// is how long a chain of calls begins there, where that leads to no cycle. All above 64 are 65. Units that refer to one another,
/// directly or indirectly, are one group.
#[derive(Drop)]
pub struct Calls<'a> {
    pub file: &'a File,
    pub references: Vec<Seq<Reference>>,
    pub callees: Vec<Row>,
    pub order: Vec<usize>,
    pub depths: Vec<Option<usize>>,
    pub groups: Groups,
}

fn numbers_of(alloc: Global, references: &[Reference]) -> Result<Vec<usize>, NoMemory>
    ensures { IfOk result (λ list. list.items ≡ numbers references.now) }
{
    let mut list = Vec::new(alloc);
    for reference in references {
        list.push(reference.unit)?;
    }
    Ok(list)
}

fn callees_in(alloc: Global, references: &[Reference]) -> Result<Row, NoMemory>
    ensures { IfOk result (λ row. row ≡ each_once (numbers references.now)) }
{
    let list = numbers_of(alloc, references)?;
    Ok(distinct(alloc, list.as_slice())?)
}

fn callees_of(alloc: Global, references: &[Seq<Reference>]) -> Result<Vec<Row>, NoMemory>
    ensures { IfOk result (λ rows. rows.items ≡ callees_by references.now) }
{
    let mut rows = Vec::new(alloc);
    for row in references {
        rows.push(callees_in(alloc, row.items())?)?;
    }
    Ok(rows)
}

/// The calls of a file.
///
/// # Errors
/// `NoMemory` only where memory was refused.
pub fn calls_of<'a>(alloc: Global, file: &'a File, symbols: &Symbols) -> Result<Calls<'a>, NoMemory>
    requires symbols { AreSymbolsOf file.now symbols.now }
    requires names { faults_of_names (placed file.now) ≡ [] }
    ensures calls { IfOk result (λ calls. AreCalls calls) }
    ensures file { IfOk result (λ calls. calls.file.now ≡ file.now) }
{
    let references = references_of(alloc, file, symbols)?;
    let callees = callees_of(alloc, references.as_slice())?;
    let callers = reversed(alloc, callees.as_slice())?;
    let order = peel(alloc, callees.as_slice(), callers.as_slice())?;
    let depth_list = depths(alloc, callees.as_slice(), order.as_slice(), TOO_DEEP)?;
    let groups = Groups::of(alloc, callees.as_slice(), callers.as_slice())?;
    Ok(Calls {
        file,
        references,
        callees,
        order,
        depths: depth_list,
        groups,
    })
}
