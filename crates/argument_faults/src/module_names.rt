//! The module variables that a unit names.
ghost use Rattle.std.specs.Prelude.{◌≡◌, ◌++◌, ◌∷◌, [], Bool, map, flat_map, IfOk, OnOk};
ghost use Rattle.std.specs.List.{list_any};
ghost use Rattle.std.specs.Option.{option_map, option_to_list};
ghost use Rattle.claw_meaning.specs.Syntax.{Text};
ghost use Rattle.sound_programs.specs.ArgumentFaults.{module_variables, names_of_step as names_in_step, same_pair};
ghost use Rattle.sound_programs.specs.Placing.{placed_unit};
ghost use Rattle.sound_programs.specs.Walks as walks;
ghost use Rattle.fort_names.specs.Sharing.{inserted};
ghost use Rattle.fort_names.specs.Sights.{means};
ghost use Rattle.unit_steps.specs.Behind.{placed_step, placed_steps};
ghost use Rattle.argument_faults.specs.ModuleNames.{pair_of, pairs, variables_among, HasSame};

use fort_names::{NameSet, Sight};
use fort_tree::{Name, Named, NoMemory, Unit};
use std::alloc::Global;
use unit_steps::{Step, name_in, note_names, parts_read, steps_of};

/// A variable of a module, by the names of both.
#[derive(Clone, Copy, Debug, PartialEq, Eq, Hash)]
pub struct ModuleVariable {
    pub home: Name,
    pub name: Name,
}

/// Whether both are one variable.
pub fn is_same_variable(one: &ModuleVariable, other: &ModuleVariable) -> bool
    ensures { result ≡ same_pair (pair_of one.now) (pair_of other.now) }
{
    one.home == other.home && one.name == other.name
}

fn note_if_any(named: Option<Named>, into: &mut Vec<Named>) -> Result<(), NoMemory>
    ensures { OnOk result (into.new.items ≡ into.old.items ++ option_to_list named) }
{
    match named {
        None => Ok(()),
        Some(one) => Ok(into.push(one)?),
    }
}

fn note_left(step: Step<'_>, into: &mut Vec<Named>) -> Result<(), NoMemory>
    ensures { OnOk result (into.new.items ≡ into.old.items ++ flat_map walks.name_in (walks.left_of (placed_step step.entry))) }
{
    match step {
        Step::Assigns(left, _) => note_if_any(name_in(left), into),
        Step::Calls(..) | Step::Tests(_) | Step::Chooses(..) | Step::Repeats(..) => Ok(()),
    }
}

/// The names of a step: anywhere in it, inside SIZE too, and in private lists.
fn names_of_step(alloc: Global, step: Step<'_>) -> Result<Vec<Named>, NoMemory>
    ensures { IfOk result (λ list. list.items ≡ names_in_step (placed_step step.entry)) }
{
    let parts = parts_read(alloc, step)?;
    let mut list = Vec::new(alloc);
    note_if_any(step.call_name(), &mut list)?;
    note_left(step, &mut list)?;
    note_names(parts.as_slice(), &mut list)?;
    note_if_any(step.loop_variable(), &mut list)?;
    step.note_private_names(&mut list)?;
    Ok(list)
}

fn insert_names(names: &[Named], into: &mut NameSet) -> Result<(), NoMemory>
    ensures { OnOk result (into.new ≡ inserted into.old (map (λ n. n.name) names.now)) }
{
    for named in names {
        into.insert(named.name)?;
    }
    Ok(())
}

fn insert_steps(alloc: Global, steps: &[Step<'_>], into: &mut NameSet) -> Result<(), NoMemory>
    ensures { OnOk result (into.new ≡ inserted into.old (map (λ n. n.name) (flat_map names_in_step (placed_steps steps.now)))) }
{
    for step in steps {
        let names = names_of_step(alloc, *step)?;
        insert_names(names.as_slice(), into)?;
    }
    Ok(())
}

fn note_variable(
    sight: &Sight<'_>,
    unit: &Name,
    name: &Name,
    into: &mut Vec<ModuleVariable>,
) -> Result<(), NoMemory>
    ensures { OnOk result (pairs into.new.items ≡ pairs into.old.items ++ variables_among (means sight.now) unit.now (name.now ∷ [])) }
{
    match sight.module_of(unit, name) {
        None => Ok(()),
        Some(home) => {
            let variable = ModuleVariable { home, name: *name };
            Ok(into.push(variable)?)
        }
    }
}

fn variables(
    alloc: Global,
    sight: &Sight<'_>,
    unit: &Name,
    names: &[Name],
) -> Result<Vec<ModuleVariable>, NoMemory>
    ensures { IfOk result (λ list. pairs list.items ≡ variables_among (means sight.now) unit.now names.now) }
{
    let mut list = Vec::new(alloc);
    for name in names {
        note_variable(sight, unit, name, &mut list)?;
    }
    Ok(list)
}

/// The module variables that the unit names, each once.
///
/// # Errors
/// `NoMemory` only where memory was refused.
pub fn variables_named(
    alloc: Global,
    sight: &Sight<'_>,
    unit: &Unit,
) -> Result<Vec<ModuleVariable>, NoMemory>
    ensures { IfOk result (λ list. HasSame (pairs list.items) (module_variables (means sight.now) unit.now.name (flat_map (λ s. names_in_step s.step) (walks.steps_of (placed_unit unit.now))))) }
{
    let steps = steps_of(alloc, unit)?;
    let mut set = NameSet::new(alloc);
    insert_steps(alloc, steps.as_slice(), &mut set)?;
    let distinct = set.names();
    let list = variables(alloc, sight, &unit.name, distinct)?;
    Ok(list)
}
