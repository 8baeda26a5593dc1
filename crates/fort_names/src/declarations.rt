//! Names that are declared twice, USE lines at fault, and INTENT.
ghost use Rattle.std.specs.Prelude.{◌≡◌, ◌++◌, length, map, IfOk, OnOk};
ghost use Rattle.fort_tree.specs.declared.fault.Code.TheVariants.{E31, E34, E3B};
ghost use Rattle.sound_programs.specs.DeclarationFaults.{declared_twice, module_faults, intent_faults};
ghost use Rattle.sound_programs.specs.Faults.{found};
ghost use Rattle.sound_programs.specs.Placing.{placed};
ghost use Rattle.fort_names.specs.Declaring.{names_of_decls, module_names as names_of_modules, push_at, push_within, modules_twice, unit_twice};
ghost use Rattle.fort_names.specs.Leasts.{noted, name_of_unit, of_units};
ghost use Rattle.fort_names.specs.Sharing.{shared_of};
ghost use Rattle.fort_names.specs.Using.{scope_twice, contested_names as names_contested};

use crate::clashes::{note_dummies, note_headers};
use crate::cycles::note_cycles;
use crate::double_uses::{contested_names, note_uses_twice};
use crate::doubles::note_seconds;
use crate::intents::note_intents;
use crate::least::Least;
use crate::name_set::NameSet;
use crate::shared::Shared;
use crate::used_names::note_used_again;
use crate::uses::note_uses;
use fort_tree::{Decl, File, Module, Named, NoMemory, Seq, Unit, Use};
use std::alloc::Global;

fn names_of(alloc: Global, decls: &[Decl]) -> Result<Seq<Named>, NoMemory>
    ensures { IfOk result (λ names. names ≡ names_of_decls decls.now) }
{
    let mut names = Seq::new(alloc);
    for decl in decls {
        names.push(Named {
            name: decl.name,
            at: decl.at,
        })?;
    }
    Ok(names)
}

fn push_name(lists: &mut [Seq<Named>], number: usize, named: Named) -> Result<(), NoMemory>
    ensures { OnOk result (lists.new ≡ push_at number named lists.old) }
{
    if number < lists.len() {
        lists[number].push(named)?;
    }
    Ok(())
}

fn push_unit(lists: &mut [Seq<Named>], unit: &Unit) -> Result<(), NoMemory>
    ensures { OnOk result (lists.new ≡ push_within unit.now.host (name_of_unit unit.now) lists.old) }
{
    match unit.host {
        None => Ok(()),
        Some(number) => push_name(
            lists,
            number as usize,
            Named {
                name: unit.name,
                at: unit.at,
            },
        ),
    }
}

fn names_of_each(alloc: Global, modules: &[Module]) -> Result<Vec<Seq<Named>>, NoMemory>
    ensures { IfOk result (λ lists. lists.items ≡ map (λ m. names_of_decls m.decls) modules.now) }
{
    let mut lists = Vec::new(alloc);
    for one in modules {
        lists.push(names_of(alloc, one.decls.items())?)?;
    }
    Ok(lists)
}

/// What each module declares, its units too.
fn module_names(
    alloc: Global,
    modules: &[Module],
    units: &[Unit],
) -> Result<Vec<Seq<Named>>, NoMemory>
    ensures { IfOk result (λ lists. lists.items ≡ names_of_modules 0 modules.now units.now) }
{
    let mut lists = names_of_each(alloc, modules)?;
    for unit in units {
        push_unit(lists.as_mut_slice(), unit)?;
    }
    Ok(lists)
}

/// Notes what stands twice in a scope that declares these names and has these USE lines.
#[tactic(auto, using(crate::proofs::FirstOf::noted_places))]
fn note_scope(
    alloc: Global,
    least: &mut Least,
    shared: &Shared,
    contested: &NameSet,
    declared: &[Named],
    lines: &[Use],
) -> Result<(), NoMemory>
    ensures { OnOk result (least.new ≡ noted (found E31 (scope_twice shared.now contested.now declared.now lines.now)) least.old) }
{
    let firsts = note_seconds(alloc, least, declared)?;
    note_used_again(least, shared, &firsts, declared, lines);
    note_uses_twice(least, shared, contested, lines);
    Ok(())
}

fn note_modules(
    alloc: Global,
    least: &mut Least,
    shared: &Shared,
    contested: &NameSet,
    lists: &[Seq<Named>],
    modules: &[Module],
) -> Result<(), NoMemory>
    requires { length lists.now ≡ length modules.now }
    ensures { OnOk result (least.new ≡ noted (found E31 (modules_twice shared.now contested.now lists.now modules.now)) least.old) }
{
    for (number, one) in modules.iter().enumerate() {
        let names = lists[number].items();
        note_scope(alloc, least, shared, contested, names, one.uses.items())?;
    }
    Ok(())
}

#[tactic(auto, using(crate::proofs::FirstOf::noted_places))]
fn note_unit(
    alloc: Global,
    least: &mut Least,
    shared: &Shared,
    contested: &NameSet,
    unit: &Unit,
) -> Result<(), NoMemory>
    ensures { OnOk result (least.new ≡ noted (found E31 (unit_twice shared.now contested.now unit.now)) least.old) }
{
    let names = names_of(alloc, unit.decls.items())?;
    note_scope(
        alloc,
        least,
        shared,
        contested,
        names.items(),
        unit.uses.items(),
    )?;
    note_dummies(alloc, least, unit)?;
    Ok(())
}

fn note_units(
    alloc: Global,
    least: &mut Least,
    shared: &Shared,
    contested: &NameSet,
    units: &[Unit],
) -> Result<(), NoMemory>
    ensures { OnOk result (least.new ≡ noted (found E31 (of_units (unit_twice shared.now contested.now) units.now)) least.old) }
{
    for unit in units {
        note_unit(alloc, least, shared, contested, unit)?;
    }
    Ok(())
}

/// Notes two declarations of one name in one scope, two dummies of one name or a dummy and the result, a declaration of a name that a USE of the scope gives, two units
/// or modules of one name, and two USE lines that give one name from two modules.
///
/// # Errors
/// `NoMemory` only where memory was refused.
pub fn note_declared_twice(
    alloc: Global,
    least: &mut Least,
    shared: &Shared,
    file: &File,
) -> Result<(), NoMemory>
    requires { shared.now ≡ shared_of file.now }
    ensures { OnOk result (least.new ≡ noted (found E31 (declared_twice (placed file.now))) least.old) }
{
    let modules = file.modules.items();
    let units = file.units.items();
    let contested = contested_names(alloc, shared)?;
    let lists = module_names(alloc, modules, units)?;
    note_modules(alloc, least, shared, &contested, lists.as_slice(), modules)?;
    note_units(alloc, least, shared, &contested, units)?;
    note_headers(alloc, least, file)?;
    Ok(())
}

/// Notes USE lines that name no module of the files, or a name that it doesn't have, and USE lines of modules that are the first on a cycle.
///
/// # Errors
/// `NoMemory` only where memory was refused.
#[tactic(auto, using(crate::proofs::FirstOf::noted_places))]
pub fn note_module_faults(
    alloc: Global,
    least: &mut Least,
    shared: &Shared,
    file: &File,
) -> Result<(), NoMemory>
    requires { shared.now ≡ shared_of file.now }
    ensures { OnOk result (least.new ≡ noted (found E34 (module_faults (placed file.now))) least.old) }
{
    note_uses(least, shared, file);
    note_cycles(alloc, least, file)?;
    Ok(())
}

/// Notes the faults of declarations: names that stand twice, USE lines at fault, and INTENT.
///
/// # Errors
/// `NoMemory` only where memory was refused.
pub fn note_declarations(
    alloc: Global,
    least: &mut Least,
    shared: &Shared,
    file: &File,
) -> Result<(), NoMemory>
    requires { shared.now ≡ shared_of file.now }
    ensures { OnOk result (least.new ≡ noted (found E31 (declared_twice (placed file.now)) ++ (found E34 (module_faults (placed file.now)) ++ found E3B (intent_faults (placed file.now)))) least.old) }
{
    note_declared_twice(alloc, least, shared, file)?;
    note_module_faults(alloc, least, shared, file)?;
    note_intents(least, file);
    Ok(())
}
