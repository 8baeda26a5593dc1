//! Names that are called or referred to and are no unit.
ghost use Rattle.std.specs.Prelude.{◌≡◌, ◌||◌, ◌&&◌, map, flat_map, not, is_some, IfOk, OnOk};
ghost use Rattle.fort_tree.specs.declared.fault.Code.TheVariants.{E35};
ghost use Rattle.sound_programs.specs.Faults.{found};
ghost use Rattle.sound_programs.specs.NameFaults.{assigns_to_no_array, calls_no_subroutine, in_each_step, places_where, refers_to_nothing, unit_faults, unit_faults_in_step};
ghost use Rattle.sound_programs.specs.Placing.{placed, placed_unit};
ghost use Rattle.sound_programs.specs.Walks as walks;
ghost use Rattle.unit_steps.specs.Behind.{placed_step, placed_steps};
ghost use Rattle.fort_names.specs.Leasts.{noted, of_units};
ghost use Rattle.fort_names.specs.Scoping.{AreSymbolsOf};
ghost use Rattle.fort_names.specs.Sights.{means};
ghost use Rattle.name_faults.specs.References.{faults_in_a_unit, is_nothing as nothing_test};

use fort_names::{Least, Sight, Symbols};
use fort_tree::{ByName, Code, File, Intrinsic, Name, Named, NoMemory, Unit};
use std::alloc::Global;
use unit_steps::{
    Step, name_before_parenthesis, note_names_before_parenthesis, parts_read, steps_of,
};

/// Whether the name is no array, no function and no intrinsic.
fn is_nothing(sight: &Sight, name: &Name) -> bool
    ensures { result ≡ nothing_test (means sight.now) name.now }
{
    let intrinsic: Option<Intrinsic> = Intrinsic::named(name);
    !(intrinsic.is_some() || (sight.is_array(name) || sight.is_function(name)))
}

/// Notes of names before parentheses those that are no array, function or intrinsic.
fn note_nothing(least: &mut Least, sight: &Sight, names: &[Named])
    ensures { least.new ≡ noted (found E35 (places_where (λ n. nothing_test (means sight.now) n.name) names.now)) least.old }
{
    for named in names {
        if is_nothing(sight, &named.name) {
            least.note(Code::E35, named.at);
        }
    }
}

fn note_references(
    alloc: Global,
    least: &mut Least,
    sight: &Sight,
    step: Step,
) -> Result<(), NoMemory>
    ensures { OnOk result (least.new ≡ noted (found E35 (refers_to_nothing (means sight.now) (placed_step step.entry))) least.old) }
{
    let read = parts_read(alloc, step)?;
    let mut names = Vec::new(alloc);
    note_names_before_parenthesis(read.as_slice(), &mut names)?;
    note_nothing(least, sight, names.as_slice());
    Ok(())
}

/// Notes a CALL of what is no SUBROUTINE.
fn note_call(least: &mut Least, sight: &Sight, step: Step)
    ensures { least.new ≡ noted (found E35 (calls_no_subroutine (means sight.now) (placed_step step.entry))) least.old }
{
    if let Some(named) = step.call_name() {
        if !sight.is_subroutine(&named.name) {
            least.note(Code::E35, named.at);
        }
    }
}

/// Notes a left side with parentheses whose name is a scalar or a PARAMETER.
fn note_left(least: &mut Least, sight: &Sight, step: Step)
    ensures { least.new ≡ noted (found E35 (assigns_to_no_array (means sight.now) (placed_step step.entry))) least.old }
{
    if let Some(left) = step.left() {
        if let Some(named) = name_before_parenthesis(left) {
            if sight.is_variable_or_constant(&named.name) && !sight.is_array(&named.name) {
                least.note(Code::E35, named.at);
            }
        }
    }
}

#[tactic(auto, using(fort_names::proofs::FirstOf::noted_places))]
fn note_step(alloc: Global, least: &mut Least, sight: &Sight, step: Step) -> Result<(), NoMemory>
    ensures { OnOk result (least.new ≡ noted (found E35 (unit_faults_in_step (means sight.now) (placed_step step.entry))) least.old) }
{
    note_call(least, sight, step);
    note_references(alloc, least, sight, step)?;
    note_left(least, sight, step);
    Ok(())
}

fn note_steps(
    alloc: Global,
    least: &mut Least,
    sight: &Sight,
    steps: &[Step],
) -> Result<(), NoMemory>
    ensures { OnOk result (least.new ≡ noted (found E35 (flat_map (unit_faults_in_step (means sight.now)) (placed_steps steps.now))) least.old) }
{
    for step in steps {
        note_step(alloc, least, sight, *step)?;
    }
    Ok(())
}

#[tactic(auto, using(crate::proofs::Parts::each_step))]
fn note_unit(alloc: Global, least: &mut Least, sight: &Sight, unit: &Unit) -> Result<(), NoMemory>
    ensures { OnOk result (least.new ≡ noted (found E35 (in_each_step (unit_faults_in_step (means sight.now)) (placed_unit unit.now))) least.old) }
{
    let steps = steps_of(alloc, unit)?;
    note_steps(alloc, least, sight, steps.as_slice())?;
    Ok(())
}

fn note_units(
    alloc: Global,
    least: &mut Least,
    symbols: &Symbols,
    file: &File,
) -> Result<(), NoMemory>
    requires { AreSymbolsOf file.now symbols.now }
    ensures { OnOk result (least.new ≡ noted (found E35 (of_units (faults_in_a_unit file.now) file.now.units)) least.old) }
{
    for (number, unit) in file.units.items().iter().enumerate() {
        let sight = symbols.sight_of_unit(file, number);
        note_unit(alloc, least, &sight, unit)?;
    }
    Ok(())
}

/// Notes each CALL that names no SUBROUTINE, each reference with parentheses that is read and names no array, function or intrinsic, and each left side with
/// parentheses that names a scalar or a PARAMETER.
///
/// # Errors
/// `NoMemory` only where memory was refused.
#[tactic(auto, using(crate::proofs::InFiles::unit_faults_are))]
pub fn note_unit_faults(
    alloc: Global,
    least: &mut Least,
    symbols: &Symbols,
    file: &File,
) -> Result<(), NoMemory>
    requires { AreSymbolsOf file.now symbols.now }
    ensures { OnOk result (least.new ≡ noted (found E35 (unit_faults (placed file.now))) least.old) }
{
    note_units(alloc, least, symbols, file)
}
