//! Names that stand twice.
ghost use Rattle.std.specs.Prelude.{◌≡◌, ◌++◌, map, IfOk, OnOk};
ghost use Rattle.fort_tree.specs.declared.fault.Code.TheVariants.{E31};
ghost use Rattle.sound_programs.specs.Faults.{found};
ghost use Rattle.std.specs.Option.{option_to_list};
ghost use Rattle.sound_programs.specs.DeclarationFaults.{clashes, seconds, two_dummies, two_units_or_modules};
ghost use Rattle.sound_programs.specs.Placing.{placed, placed_unit};
ghost use Rattle.sound_programs.specs.Scopes.{Of_unit};
ghost use Rattle.fort_names.specs.Leasts.{noted, clashes_of, name_of_module, name_of_unit};

use crate::doubles::{later_of, note_seconds};
use crate::least::Least;
use fort_tree::{Code, File, Module, Named, NoMemory, Unit};
use std::alloc::Global;

fn note_clashes_of(least: &mut Least, one: &Named, others: &[Named])
    ensures { least.new ≡ noted (found E31 (clashes_of one.now others.now)) least.old }
{
    for other in others {
        least.note_if(
            one.name == other.name,
            Code::E31,
            later_of(one.at, other.at),
        );
    }
}

/// Notes where a name of the first list and one of the second are one, at the later of the two.
pub fn note_clashes(least: &mut Least, named: &[Named], others: &[Named])
    ensures { least.new ≡ noted (found E31 (clashes named.now others.now)) least.old }
{
    for one in named {
        note_clashes_of(least, one, others);
    }
}

/// Notes a dummy and the result of one name.
fn note_result(least: &mut Least, unit: &Unit)
    ensures { least.new ≡ noted (found E31 (clashes unit.now.dummies (option_to_list unit.now.result))) least.old }
{
    match unit.result {
        None => note_clashes(least, unit.dummies.items(), &[]),
        Some(result_name) => note_clashes(least, unit.dummies.items(), &[result_name]),
    }
}

/// Notes two dummies of one name, and a dummy and the result of one name.
///
/// # Errors
/// `NoMemory` only where memory was refused.
#[tactic(auto, using(crate::proofs::FirstOf::noted_places))]
pub fn note_dummies(alloc: Global, least: &mut Least, unit: &Unit) -> Result<(), NoMemory>
    ensures { OnOk result (least.new ≡ noted (found E31 (two_dummies (Of_unit (placed_unit unit.now)))) least.old) }
{
    let _firsts = note_seconds(alloc, least, unit.dummies.items())?;
    note_result(least, unit);
    Ok(())
}

fn headers(alloc: Global, modules: &[Module], units: &[Unit]) -> Result<Vec<Named>, NoMemory>
    ensures { IfOk result (λ names. names.items ≡ map name_of_module modules.now ++ map name_of_unit units.now) }
{
    let mut names = Vec::new(alloc);
    for one in modules {
        names.push(Named {
            name: one.name,
            at: one.at,
        })?;
    }
    for unit in units {
        names.push(Named {
            name: unit.name,
            at: unit.at,
        })?;
    }
    Ok(names)
}

/// Notes two units or modules of one name, in whichever files and modules.
///
/// # Errors
/// `NoMemory` only where memory was refused.
pub fn note_headers(alloc: Global, least: &mut Least, file: &File) -> Result<(), NoMemory>
    ensures { OnOk result (least.new ≡ noted (found E31 (two_units_or_modules (placed file.now))) least.old) }
{
    let names = headers(alloc, file.modules.items(), file.units.items())?;
    let _firsts = note_seconds(alloc, least, names.as_slice())?;
    Ok(())
}
