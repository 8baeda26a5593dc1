//! Where units, and those that they reach by references, write module variables.
ghost use Rattle.std.specs.Prelude.{◌≡◌, ◌<◌, [], None, Some, length, replicate, slice_get, slice_index_or, IfOk};
ghost use Rattle.std.specs.Option.{option_map};
ghost use Rattle.sound_programs.specs.ArgumentFaults.{module_writes};
ghost use Rattle.sound_programs.specs.Faults.{faults_of_names};
ghost use Rattle.sound_programs.specs.Placed.{bare_program};
ghost use Rattle.sound_programs.specs.Placing.{placed, placed_unit};
ghost use Rattle.fort_names.specs.FoundAt.{found_of};
ghost use Rattle.fort_names.specs.Leasts.{noted};
ghost use Rattle.fort_names.specs.Scoping.{AreSymbolsOf};
ghost use Rattle.call_graph.specs.CallGraphs.{IsCallGraph};
ghost use Rattle.argument_faults.specs.ModuleWrites.{IsFirstWrite};
ghost use Rattle.argument_faults.specs.Reaching.{AreThere, AreWrittenFrom, IsFirstFrom, fault_of, faults_at};

use crate::module_writes::first_module_write;
use call_graph::Graph;
use fort_names::{At, Least, Symbols};
use fort_tree::{File, NoMemory, Unit};
use std::alloc::Global;

#[tactic(auto, using(std::proofs::lemmas::Option::slice_get_within))]
fn write_of(
    alloc: Global,
    file: &File,
    symbols: &Symbols,
    number: usize,
    unit: &Unit,
) -> Result<Option<At>, NoMemory>
    requires symbols { AreSymbolsOf file.now symbols.now }
    requires there { slice_get file.now.units number ≡ Some unit.now }
    ensures { IfOk result (λ first. IsFirstWrite (module_writes (bare_program (placed file.now)) (placed_unit unit.now)) first) }
{
    let sight = symbols.sight_of_unit(file, number);
    let first = first_module_write(alloc, &sight, unit)?;
    Ok(first)
}

/// Notes a write, if there is one.
pub fn note_write(least: &mut Least, write: Option<At>)
    ensures { least.new ≡ noted (fault_of write) least.old }
{
    match write {
        None => {}
        Some(at) => least.note(at.code, at.place),
    }
}

/// The write of the unit of the number.
pub fn write_at(writes: &[Option<At>], number: usize) -> Option<At>
    requires { number < length writes.now }
    ensures { result ≡ slice_index_or writes.now number None }
{
    writes[number]
}

/// Notes the writes of the units of these numbers.
fn note_writes_at(least: &mut Least, writes: &[Option<At>], numbers: &[usize])
    requires { AreThere writes.now numbers.now }
    ensures { least.new ≡ noted (faults_at writes.now numbers.now) least.old }
{
    for number in numbers {
        note_write(least, write_at(writes, *number));
    }
}

/// The first of a unit's own write and of the writes of the units to which it refers.
fn first_of(own: Option<At>, writes: &[Option<At>], callees: &[usize]) -> Option<At>
    requires { AreThere writes.now callees.now }
    ensures { option_map found_of result ≡ noted (faults_at writes.now callees.now) (noted (fault_of own) None) }
{
    let mut least = Least::new();
    note_write(&mut least, own);
    note_writes_at(&mut least, writes, callees);
    least.first()
}

/// The first write of the unit of the number, from those of the units to which it refers.
fn write_from(
    alloc: Global,
    file: &File,
    symbols: &Symbols,
    number: usize,
    writes: &[Option<At>],
    callees: &[usize],
) -> Result<Option<At>, NoMemory>
    requires symbols { AreSymbolsOf file.now symbols.now }
    requires number { number < length file.now.units }
    requires there { AreThere writes.now callees.now }
    ensures { IfOk result (IsFirstFrom file.now number writes.now callees.now) }
{
    let own = write_of(alloc, file, symbols, number, &file.units.items()[number])?;
    Ok(first_of(own, writes, callees))
}

fn no_writes(alloc: Global, count: usize) -> Result<Vec<Option<At>>, NoMemory>
    ensures { IfOk result (λ writes. writes.items ≡ replicate count None) }
{
    let mut writes = Vec::new(alloc);
    for _unit in 0..count {
        writes.push(None)?;
    }
    Ok(writes)
}

/// For each unit of the file where it, or a unit that it reaches by references, first writes a module variable. Each unit is gone
/// to behind those to which it refers.
///
/// # Errors
/// `NoMemory` only where memory was refused.
pub fn writes_reached(
    alloc: Global,
    file: &File,
    symbols: &Symbols,
    graph: &Graph,
) -> Result<Vec<Option<At>>, NoMemory>
    requires symbols { AreSymbolsOf file.now symbols.now }
    requires names { faults_of_names (placed file.now) ≡ [] }
    requires graph { IsCallGraph file.now graph.now }
    ensures { IfOk result (λ writes. AreWrittenFrom file.now writes.items) }
{
    let mut writes = no_writes(alloc, file.units.len())?;
    for unit in graph.order() {
        let callees = graph.callees(*unit);
        let first = write_from(alloc, file, symbols, *unit, writes.as_slice(), callees)?;
        writes[*unit] = first;
    }
    Ok(writes)
}
