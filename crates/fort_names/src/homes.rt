//! What the modules and units of a file declare.
ghost use Rattle.std.specs.Prelude.{◌≡◌, IfOk, map};
ghost use Rattle.std.specs.Option.{option_copied};
ghost use Rattle.fort_names.specs.Tables.{unit_find, module_find, declared_in, declared_of, key_of, module_tables, unit_entities as entities_of_units, module_entities as entities_of_modules};
ghost use Rattle.fort_names.specs.Entities.{home_of as home_of_unit};

use crate::entity::{Entity, Home, Sort};
use crate::firsts::Firsts;
use crate::table::Table;
use fort_tree::{File, Module, Name, NoMemory, Seq, Unit};
use std::alloc::Global;

/// What the modules of a file declare, its units and its modules, found by name.
#[derive(Drop)]
pub struct Declared {
    /// The names of the modules.
    pub names: Firsts<Name>,
    /// The declarations of each module.
    pub decls: Seq<Table>,
    /// Each unit by its module and its name.
    pub units: Firsts<(Option<usize>, Name)>,
    pub unit_entities: Seq<Entity>,
    pub module_entities: Seq<Entity>,
}

/// The names of the modules, in their order.
pub fn module_names(alloc: Global, modules: &[Module]) -> Result<Vec<Name>, NoMemory>
    ensures { IfOk result (λ names. names.items ≡ map (λ m. m.name) modules.now) }
{
    let mut names = Vec::new(alloc);
    for one in modules {
        names.push(one.name)?;
    }
    Ok(names)
}

fn module_tables_of(alloc: Global, modules: &[Module]) -> Result<Seq<Table>, NoMemory>
    ensures { IfOk result (λ tables. tables ≡ module_tables 0 modules.now) }
{
    let mut tables = Seq::new(alloc);
    for (number, one) in modules.iter().enumerate() {
        tables.push(Table::of(alloc, Home::Module(number), None, one.decls.items())?)?;
    }
    Ok(tables)
}

fn host_of(host: Option<u32>) -> Option<usize>
    ensures { result ≡ host }
{
    match host {
        None => None,
        Some(number) => Some(number as usize),
    }
}

fn unit_keys(alloc: Global, units: &[Unit]) -> Result<Vec<(Option<usize>, Name)>, NoMemory>
    ensures { IfOk result (λ keys. keys.items ≡ map key_of units.now) }
{
    let mut keys = Vec::new(alloc);
    for unit in units {
        keys.push((host_of(unit.host), unit.name))?;
    }
    Ok(keys)
}

fn home_of(host: Option<u32>) -> Home
    ensures { result ≡ home_of_unit host }
{
    match host {
        None => Home::Global,
        Some(number) => Home::Module(number as usize),
    }
}

fn unit_entities_of(alloc: Global, units: &[Unit]) -> Result<Seq<Entity>, NoMemory>
    ensures { IfOk result (λ list. list ≡ entities_of_units 0 units.now) }
{
    let mut list = Seq::new(alloc);
    for (index, unit) in units.iter().enumerate() {
        list.push(Entity {
            sort: Sort::Unit,
            home: home_of(unit.host),
            index,
            decl: None,
            column: false,
        })?;
    }
    Ok(list)
}

fn module_entities_of(alloc: Global, modules: &[Module]) -> Result<Seq<Entity>, NoMemory>
    ensures { IfOk result (λ list. list ≡ entities_of_modules 0 modules.now) }
{
    let mut list = Seq::new(alloc);
    for (index, _one) in modules.iter().enumerate() {
        list.push(Entity {
            sort: Sort::Module,
            home: Home::Global,
            index,
            decl: None,
            column: false,
        })?;
    }
    Ok(list)
}

impl Declared {
    /// What a file declares outside the scopes of its units.
    ///
    /// # Errors
    /// `NoMemory` only where memory was refused.
    pub fn of(alloc: Global, file: &File) -> Result<Declared, NoMemory>
        ensures { IfOk result (λ declared. declared ≡ declared_of file.now) }
    {
        let modules = file.modules.items();
        let units = file.units.items();
        Ok(Declared {
            names: Firsts::of(alloc, module_names(alloc, modules)?)?,
            decls: module_tables_of(alloc, modules)?,
            units: Firsts::of(alloc, unit_keys(alloc, units)?)?,
            unit_entities: unit_entities_of(alloc, units)?,
            module_entities: module_entities_of(alloc, modules)?,
        })
    }

    /// The first unit of the name in the module of the number, or outside modules.
    pub fn unit(&self, host: Option<usize>, name: &Name) -> Option<&Entity>
        ensures { option_copied result ≡ unit_find self.now host name.now }
    {
        self.unit_entities
            .items()
            .get(self.units.place(&(host, *name))?)
    }

    /// The first module of the name.
    pub fn module(&self, name: &Name) -> Option<&Entity>
        ensures { option_copied result ≡ module_find self.now name.now }
    {
        self.module_entities.items().get(self.names.place(name)?)
    }

    /// What the module of the number declares under the name.
    pub fn in_module(&self, number: usize, name: &Name) -> Option<&Entity>
        ensures { option_copied result ≡ declared_in self.now number name.now }
    {
        let table = self.decls.items().get(number)?;
        match table.find(name) {
            Some(entity) => Some(entity),
            None => self.unit(Some(number), name),
        }
    }
}
