//! The names of column units, and those of modules and external units.
ghost use Rattle.std.specs.Prelude.{◌≡◌, [], IfOk, OnOk, map, is_none};
ghost use Rattle.std.specs.List.{filter};
ghost use Rattle.fort_names.specs.Sharing.{inserted};
ghost use Rattle.translated_programs.specs.NotBuilt.{is_column, is_external as external_test, global_names, names_of};

use crate::columns::is_column_unit;
use fort_names::NameSet;
use fort_tree::{File, Module, NoMemory, Unit};
use std::alloc::Global;

/// What the names of a program's units are asked for.
#[derive(Drop)]
pub struct UnitNames {
    /// The names of its column units.
    pub columns: NameSet,
    /// The names of its modules and of its external units.
    pub globals: NameSet,
}

fn is_external(unit: &Unit) -> bool
    ensures { result ≡ external_test unit.now }
{
    unit.host.is_none()
}

fn insert_columns(names: &mut NameSet, units: &[Unit]) -> Result<(), NoMemory>
    ensures { OnOk result (names.new ≡ inserted names.old (names_of (filter is_column units.now))) }
{
    for unit in units {
        if is_column_unit(unit) {
            names.insert(unit.name)?;
        }
    }
    Ok(())
}

fn insert_externals(names: &mut NameSet, units: &[Unit]) -> Result<(), NoMemory>
    ensures { OnOk result (names.new ≡ inserted names.old (names_of (filter external_test units.now))) }
{
    for unit in units {
        if is_external(unit) {
            names.insert(unit.name)?;
        }
    }
    Ok(())
}

fn insert_modules(names: &mut NameSet, modules: &[Module]) -> Result<(), NoMemory>
    ensures { OnOk result (names.new ≡ inserted names.old (map (λ m. m.name) modules.now)) }
{
    for module in modules {
        names.insert(module.name)?;
    }
    Ok(())
}

/// The names of modules and of external units.
#[tactic(auto, using(crate::proofs::NamesAre::inserted_append))]
fn global_set(alloc: Global, file: &File) -> Result<NameSet, NoMemory>
    ensures { IfOk result (λ names. names ≡ inserted [] (global_names file.now)) }
{
    let mut names = NameSet::new(alloc);
    insert_modules(&mut names, file.modules.items())?;
    insert_externals(&mut names, file.units.items())?;
    Ok(names)
}

/// The names of the program's units and modules.
pub fn unit_names(alloc: Global, file: &File) -> Result<UnitNames, NoMemory>
    ensures columns { IfOk result (λ names. names.columns ≡ inserted [] (names_of (filter is_column file.now.units))) }
    ensures globals { IfOk result (λ names. names.globals ≡ inserted [] (global_names file.now)) }
{
    let mut columns = NameSet::new(alloc);
    insert_columns(&mut columns, file.units.items())?;
    let globals = global_set(alloc, file)?;
    Ok(UnitNames { columns, globals })
}
