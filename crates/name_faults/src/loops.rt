//! Faults of the variables of DO loops.
ghost use Rattle.std.specs.Prelude.{◌≡◌, ◌++◌, [], map, flat_map, IfOk, OnOk};
ghost use Rattle.fort_tree.specs.declared.fault.Code.TheVariants.{E39};
ghost use Rattle.sound_programs.specs.Faults.{found};
ghost use Rattle.sound_programs.specs.LoopFaults as faults;
ghost use Rattle.sound_programs.specs.Placing.{placed, placed_decl, placed_unit};
ghost use Rattle.sound_programs.specs.Walks as walks;
ghost use Rattle.fort_names.specs.Leasts.{noted};
ghost use Rattle.fort_names.specs.Scoping.{AreSymbolsOf};
ghost use Rattle.fort_names.specs.Sharing.{inserted};
ghost use Rattle.fort_names.specs.Sights.{means};
ghost use Rattle.unit_steps.specs.Behind.{exprs};
ghost use Rattle.name_faults.specs.LoopSteps.{places_in_bounds};

use crate::loop_names::{loop_variable, note_names_in, note_outside};
use crate::loop_steps::{Ground, note_body};
use fort_names::{Least, NameSet, Sight, Symbols};
use fort_tree::{Code, Decl, Expr, File, NoMemory, Place, Unit};
use std::alloc::Global;
use unit_steps::{bounds, note_parts, steps_of};

/// The variables of the unit's DO loops, each once.
fn loop_variables(alloc: Global, unit: &Unit) -> Result<NameSet, NoMemory>
    ensures { IfOk result (λ names. names ≡ inserted [] (faults.loop_variables (placed_unit unit.now))) }
{
    let steps = steps_of(alloc, unit)?;
    let mut names = NameSet::new(alloc);
    for step in steps.as_slice() {
        if let Some(named) = loop_variable(*step) {
            names.insert(named.name)?;
        }
    }
    Ok(names)
}

/// The parts of all bounds in declarations.
fn parts_of_bounds<'a>(alloc: Global, decls: &'a [Decl]) -> Result<Vec<&'a Expr>, NoMemory>
    ensures { IfOk result (λ list. exprs list.items ≡ flat_map walks.parts (walks.bounds_in (map placed_decl decls.now))) }
{
    let mut list = Vec::new(alloc);
    for bound in bounds(alloc, decls)? {
        note_parts(bound, &mut list)?;
    }
    Ok(list)
}

/// Adds the places of the DO variables that are named in bounds of declarations.
fn note_bounds(
    alloc: Global,
    variables: &NameSet,
    decls: &[Decl],
    into: &mut Vec<Place>,
) -> Result<(), NoMemory>
    ensures { OnOk result (into.new.items ≡ into.old.items ++ places_in_bounds variables.now (map placed_decl decls.now)) }
{
    let parts = parts_of_bounds(alloc, decls)?;
    let mut names = Vec::new(alloc);
    note_names_in(parts.as_slice(), &mut names)?;
    note_outside(variables, &[], names.as_slice(), into)
}

/// Adds the places of the faults of the unit's DO variables.
fn note_in_unit(
    alloc: Global,
    sight: &Sight<'_>,
    unit: &Unit,
    into: &mut Vec<Place>,
) -> Result<(), NoMemory>
    ensures { OnOk result (into.new.items ≡ into.old.items ++ faults.loop_faults_in_unit (means sight.now) (placed_unit unit.now)) }
{
    let variables = loop_variables(alloc, unit)?;
    let ground = Ground {
        unit,
        sight,
        variables: &variables,
    };
    note_body(alloc, &ground, &[], unit.body.items(), into)?;
    note_bounds(alloc, &variables, unit.decls.items(), into)
}

/// The places of the faults of DO variables.
fn loop_faults(alloc: Global, symbols: &Symbols, file: &File) -> Result<Vec<Place>, NoMemory>
    requires { AreSymbolsOf file.now symbols.now }
    ensures { IfOk result (λ places. places.items ≡ faults.loop_faults (placed file.now)) }
{
    let mut places = Vec::new(alloc);
    for (number, unit) in file.units.items().iter().enumerate() {
        let sight = symbols.sight_of_unit(file, number);
        note_in_unit(alloc, &sight, unit, &mut places)?;
    }
    Ok(places)
}

fn note_places(least: &mut Least, places: &[Place])
    ensures { least.new ≡ noted (found E39 places.now) least.old }
{
    for place in places {
        least.note(Code::E39, *place);
    }
}

/// Notes each DO variable that isn't a local INTEGER scalar, or is named outside the bodies of its loops, or is assigned, passed to OUT or INOUT or used by a second
/// DO in its loop.
///
/// # Errors
/// `NoMemory` only where memory was refused.
pub fn note_loops(
    alloc: Global,
    least: &mut Least,
    symbols: &Symbols,
    file: &File,
) -> Result<(), NoMemory>
    requires { AreSymbolsOf file.now symbols.now }
    ensures { OnOk result (least.new ≡ noted (found E39 (faults.loop_faults (placed file.now))) least.old) }
{
    let places = loop_faults(alloc, symbols, file)?;
    note_places(least, places.as_slice());
    Ok(())
}
