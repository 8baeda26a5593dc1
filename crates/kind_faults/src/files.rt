//! The faults of kinds, ranks and numbers of arguments in a file.
ghost use Rattle.std.specs.Prelude.{◌≡◌, map, Some, flat_map, slice_get, OnOk};
ghost use Rattle.std.specs.List.{enumerate_from};
ghost use Rattle.fort_tree.specs.declared.fault.Code.TheVariants.{E32, E33, E37};
ghost use Rattle.sound_programs.specs.ArgumentFaults.{count_faults};
ghost use Rattle.sound_programs.specs.Faults.{found};
ghost use Rattle.sound_programs.specs.KindFaults.{kind_faults};
ghost use Rattle.sound_programs.specs.Placing.{placed, placed_module, placed_unit};
ghost use Rattle.sound_programs.specs.RankFaults.{rank_faults};
ghost use Rattle.sound_programs.specs.Scopes.{Of_module, Of_unit};
ghost use Rattle.fort_names.specs.Leasts.{noted};
ghost use Rattle.fort_names.specs.Scoping.{AreSymbolsOf};
ghost use Rattle.kind_faults.specs.InScopes.{all_faults, code_of_sought, faults_in_scope};

use crate::holder::Holder;
use crate::sought::{Sought, note_in};
use fort_names::{Least, Symbols};
use fort_tree::{File, Mode, Module, NoMemory, Unit};
use std::alloc::Global;

fn note_module(
    alloc: Global,
    least: &mut Least,
    sought: Sought,
    file: &File,
    symbols: &Symbols,
    number: usize,
    one: &Module,
) -> Result<(), NoMemory>
    requires of_file { AreSymbolsOf file.now symbols.now }
    requires at { slice_get file.now.modules number ≡ Some one.now }
    ensures { OnOk result (least.new ≡ noted (found (code_of_sought sought) (faults_in_scope (placed file.now) sought (Of_module number (placed_module one.now)))) least.old) }
{
    let sight = symbols.sight_of_module(file, number);
    let holder = Holder::Module(number, one);
    note_in(alloc, least, sought, &sight, &holder)
}

fn note_modules(
    alloc: Global,
    least: &mut Least,
    sought: Sought,
    file: &File,
    symbols: &Symbols,
    modules: &[Module],
) -> Result<(), NoMemory>
    requires of_file { AreSymbolsOf file.now symbols.now }
    requires all { modules.now ≡ file.now.modules }
    ensures { OnOk result (least.new ≡ noted (found (code_of_sought sought) (flat_map (faults_in_scope (placed file.now) sought) (map (λ m. Of_module m.0 m.1) (enumerate_from 0 (map placed_module modules.now))))) least.old) }
{
    for (number, one) in modules.iter().enumerate() {
        note_module(alloc, least, sought, file, symbols, number, one)?;
    }
    Ok(())
}

fn note_unit(
    alloc: Global,
    least: &mut Least,
    sought: Sought,
    file: &File,
    symbols: &Symbols,
    number: usize,
    unit: &Unit,
) -> Result<(), NoMemory>
    requires of_file { AreSymbolsOf file.now symbols.now }
    requires at { slice_get file.now.units number ≡ Some unit.now }
    ensures { OnOk result (least.new ≡ noted (found (code_of_sought sought) (faults_in_scope (placed file.now) sought (Of_unit (placed_unit unit.now)))) least.old) }
{
    let sight = symbols.sight_of_unit(file, number);
    let holder = Holder::Unit(unit);
    note_in(alloc, least, sought, &sight, &holder)
}

fn note_units(
    alloc: Global,
    least: &mut Least,
    sought: Sought,
    file: &File,
    symbols: &Symbols,
    units: &[Unit],
) -> Result<(), NoMemory>
    requires of_file { AreSymbolsOf file.now symbols.now }
    requires all { units.now ≡ file.now.units }
    ensures { OnOk result (least.new ≡ noted (found (code_of_sought sought) (flat_map (faults_in_scope (placed file.now) sought) (map Of_unit (map placed_unit units.now)))) least.old) }
{
    for (number, unit) in units.iter().enumerate() {
        note_unit(alloc, least, sought, file, symbols, number, unit)?;
    }
    Ok(())
}

#[tactic(auto, using(crate::proofs::Places::noted_flat))]
fn note_all(
    alloc: Global,
    least: &mut Least,
    sought: Sought,
    file: &File,
    symbols: &Symbols,
) -> Result<(), NoMemory>
    requires { AreSymbolsOf file.now symbols.now }
    ensures { OnOk result (least.new ≡ noted (found (code_of_sought sought) (all_faults sought (placed file.now))) least.old) }
{
    note_modules(alloc, least, sought, file, symbols, file.modules.items())?;
    note_units(alloc, least, sought, file, symbols, file.units.items())
}

/// Notes the faults of kinds in a file, whose symbols these are.
///
/// # Errors
/// `NoMemory` only where memory was refused.
pub fn note_kinds(
    alloc: Global,
    least: &mut Least,
    file: &File,
    symbols: &Symbols,
) -> Result<(), NoMemory>
    requires { AreSymbolsOf file.now symbols.now }
    ensures { OnOk result (least.new ≡ noted (found E32 (kind_faults (placed file.now))) least.old) }
{
    note_all(alloc, least, Sought::Kinds, file, symbols)?;
    Ok(())
}

/// Notes the faults of ranks in a file, whose symbols these are. The mode gives the limit on ranks.
///
/// # Errors
/// `NoMemory` only where memory was refused.
pub fn note_ranks(
    alloc: Global,
    least: &mut Least,
    mode: Mode,
    file: &File,
    symbols: &Symbols,
) -> Result<(), NoMemory>
    requires { AreSymbolsOf file.now symbols.now }
    ensures { OnOk result (least.new ≡ noted (found E33 (rank_faults mode (placed file.now))) least.old) }
{
    note_all(alloc, least, Sought::Ranks(mode), file, symbols)?;
    Ok(())
}

/// Notes the references in a file with another number of arguments than is taken. The symbols are those of the file.
///
/// # Errors
/// `NoMemory` only where memory was refused.
pub fn note_counts(
    alloc: Global,
    least: &mut Least,
    file: &File,
    symbols: &Symbols,
) -> Result<(), NoMemory>
    requires { AreSymbolsOf file.now symbols.now }
    ensures { OnOk result (least.new ≡ noted (found E37 (count_faults (placed file.now))) least.old) }
{
    note_all(alloc, least, Sought::Counts, file, symbols)?;
    Ok(())
}
