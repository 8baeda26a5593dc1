//! The faults of a file's actual arguments.
ghost use Rattle.std.specs.Prelude.{◌≡◌, [], Some, flat_map, is_some, map, slice_get, if◌then◌else◌, OnOk};
ghost use Rattle.fort_tree.specs.declared.fault.Code.TheVariants.{E38, E3A};
ghost use Rattle.sound_programs.specs.ArgumentFaults.{alias_faults, write_faults, write_faults_in_unit};
ghost use Rattle.sound_programs.specs.Faults.{faults_of_names, found};
ghost use Rattle.sound_programs.specs.Placed.{bare_program};
ghost use Rattle.sound_programs.specs.Placing.{placed, placed_unit};
ghost use Rattle.fort_names.specs.Leasts.{noted};
ghost use Rattle.fort_names.specs.Scoping.{AreSymbolsOf};
ghost use Rattle.call_graph.specs.CallGraphs.{IsCallGraph};
ghost use Rattle.argument_faults.specs.InUnits.{aliases_of};
ghost use Rattle.argument_faults.specs.Reaching.{AreWrittenFrom, IsReached, fault_of};

use crate::reached::{Reached, reached_by};
use crate::unit_faults::note_unit_aliases;
use crate::writes::{note_function_dummies, note_unit_writes};
use crate::written_from::{note_write, write_at, writes_reached};
use call_graph::Graph;
use fort_names::{At, Least, Symbols};
use fort_tree::{File, NoMemory, Unit};
use std::alloc::Global;

#[tactic(auto, using(std::proofs::lemmas::Option::slice_get_within))]
fn note_aliases_of(
    alloc: Global,
    least: &mut Least,
    file: &File,
    symbols: &Symbols,
    reached: &Reached,
    number: usize,
    unit: &Unit,
) -> Result<(), NoMemory>
    requires symbols { AreSymbolsOf file.now symbols.now }
    requires reached { IsReached file.now reached.now }
    requires there { slice_get file.now.units number ≡ Some unit.now }
    ensures { OnOk result (least.new ≡ noted (found E38 (aliases_of (placed file.now) (placed_unit unit.now))) least.old) }
{
    let sight = symbols.sight_of_unit(file, number);
    note_unit_aliases(alloc, least, &sight, unit, reached)?;
    Ok(())
}

fn note_aliases_in(
    alloc: Global,
    least: &mut Least,
    file: &File,
    symbols: &Symbols,
    reached: &Reached,
    units: &[Unit],
) -> Result<(), NoMemory>
    requires symbols { AreSymbolsOf file.now symbols.now }
    requires reached { IsReached file.now reached.now }
    requires units { units.now ≡ file.now.units }
    ensures { OnOk result (least.new ≡ noted (found E38 (flat_map (aliases_of (placed file.now)) (map placed_unit units.now))) least.old) }
{
    for (number, unit) in units.iter().enumerate() {
        note_aliases_of(alloc, least, file, symbols, reached, number, unit)?;
    }
    Ok(())
}

/// Notes two actual arguments of one reference that refer to one variable, one of them for OUT or INOUT, at the later; and
/// actual arguments for these that refer to a module variable which the called unit, or one that it reaches, names.
///
/// # Errors
/// `NoMemory` only where memory was refused.
pub fn note_aliases(
    alloc: Global,
    least: &mut Least,
    file: &File,
    symbols: &Symbols,
    graph: &Graph,
) -> Result<(), NoMemory>
    requires symbols { AreSymbolsOf file.now symbols.now }
    requires names { faults_of_names (placed file.now) ≡ [] }
    requires graph { IsCallGraph file.now graph.now }
    ensures { OnOk result (least.new ≡ noted (found E38 (alias_faults (placed file.now))) least.old) }
{
    let reached = reached_by(alloc, file, symbols, graph)?;
    note_aliases_in(alloc, least, file, symbols, &reached, file.units.items())?;
    Ok(())
}

/// Notes where the unit, if it is a function, or a unit that it reaches writes a module variable.
fn note_function_write(least: &mut Least, unit: &Unit, write: Option<At>)
    ensures { least.new ≡ noted (if is_some unit.now.result then fault_of write else []) least.old }
{
    match unit.result {
        None => {}
        Some(_) => note_write(least, write),
    }
}

#[tactic(auto, using(std::proofs::lemmas::Option::slice_get_within))]
fn note_writes_of(
    alloc: Global,
    least: &mut Least,
    file: &File,
    symbols: &Symbols,
    writes: &[Option<At>],
    number: usize,
    unit: &Unit,
) -> Result<(), NoMemory>
    requires symbols { AreSymbolsOf file.now symbols.now }
    requires writes { AreWrittenFrom file.now writes.now }
    requires there { slice_get file.now.units number ≡ Some unit.now }
    ensures { OnOk result (least.new ≡ noted (found E3A (write_faults_in_unit (placed file.now) (bare_program (placed file.now)) (placed_unit unit.now))) least.old) }
{
    let sight = symbols.sight_of_unit(file, number);
    note_unit_writes(alloc, least, &sight, unit)?;
    note_function_dummies(least, unit);
    note_function_write(least, unit, write_at(writes, number));
    Ok(())
}

fn note_writes_in(
    alloc: Global,
    least: &mut Least,
    file: &File,
    symbols: &Symbols,
    writes: &[Option<At>],
    units: &[Unit],
) -> Result<(), NoMemory>
    requires symbols { AreSymbolsOf file.now symbols.now }
    requires writes { AreWrittenFrom file.now writes.now }
    requires units { units.now ≡ file.now.units }
    ensures { OnOk result (least.new ≡ noted (found E3A (flat_map (write_faults_in_unit (placed file.now) (bare_program (placed file.now))) (map placed_unit units.now))) least.old) }
{
    for (number, unit) in units.iter().enumerate() {
        note_writes_of(alloc, least, file, symbols, writes, number, unit)?;
    }
    Ok(())
}

/// Notes the writes of INTENT(IN) dummies and PARAMETERs, what is no variable and is passed to OUT or INOUT, the dummies of
/// functions that aren't INTENT(IN), and where a function, or what it reaches, writes a module variable.
///
/// # Errors
/// `NoMemory` only where memory was refused.
pub fn note_writes(
    alloc: Global,
    least: &mut Least,
    file: &File,
    symbols: &Symbols,
    graph: &Graph,
) -> Result<(), NoMemory>
    requires symbols { AreSymbolsOf file.now symbols.now }
    requires names { faults_of_names (placed file.now) ≡ [] }
    requires graph { IsCallGraph file.now graph.now }
    ensures { OnOk result (least.new ≡ noted (found E3A (write_faults (placed file.now))) least.old) }
{
    let writes = writes_reached(alloc, file, symbols, graph)?;
    note_writes_in(
        alloc,
        least,
        file,
        symbols,
        writes.as_slice(),
        file.units.items(),
    )?;
    Ok(())
}
