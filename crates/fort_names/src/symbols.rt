//! The scopes of a file.
ghost use Rattle.std.specs.Prelude.{◌≡◌, ◌<◌, IfOk, Some, slice_get};
ghost use Rattle.fort_names.specs.Scoping.{IsUnitScope, IsModuleScope, UnitScopes, ModuleScopes, AreSymbolsOf, host_number as number_of_host};

use crate::entity::Home;
use crate::firsts::Firsts;
use crate::scope::{Own, Scope};
use crate::shared::Shared;
use crate::table::Table;
use fort_tree::{File, Module, Name, NoMemory, TryClone, Unit};
use std::alloc::Global;
use std::rc::Rc;

/// The scopes of the units and modules of a file.
#[derive(Drop)]
pub struct Symbols {
    shared: Rc<Shared>,
    units: Vec<Scope>,
    modules: Vec<Scope>,
}

/// The number of the first module of the name of a unit's module.
fn host_number(modules: &[Module], names: &Firsts<Name>, host: Option<u32>) -> Option<usize>
    ensures { result ≡ number_of_host modules.now names.now host }
{
    let around = modules.get(host? as usize)?;
    names.place(&around.name)
}

fn unit_scope(
    alloc: Global,
    modules: &[Module],
    shared: &Rc<Shared>,
    unit: &Unit,
) -> Result<Scope, NoMemory>
    ensures { IfOk result (IsUnitScope modules.now shared.now.value unit.now) }
{
    let own = Table::of(alloc, Home::Local, Some(unit), unit.decls.items())?;
    Ok(Scope {
        own: Own::Declared(own),
        uses: unit.uses.try_clone(alloc)?,
        host: host_number(modules, &shared.declared.names, unit.host),
        shared: shared.clone()?,
    })
}

fn module_scope(
    alloc: Global,
    shared: &Rc<Shared>,
    number: usize,
    one: &Module,
) -> Result<Scope, NoMemory>
    ensures { IfOk result (IsModuleScope shared.now.value number one.now) }
{
    Ok(Scope {
        own: Own::OfModule(number),
        uses: one.uses.try_clone(alloc)?,
        host: None,
        shared: shared.clone()?,
    })
}

fn unit_scopes(
    alloc: Global,
    modules: &[Module],
    shared: &Rc<Shared>,
    units: &[Unit],
) -> Result<Vec<Scope>, NoMemory>
    ensures { IfOk result (λ scopes. UnitScopes modules.now shared.now.value units.now scopes.items) }
{
    let mut scopes = Vec::new(alloc);
    for unit in units {
        scopes.push(unit_scope(alloc, modules, shared, unit)?)?;
    }
    Ok(scopes)
}

fn module_scopes(
    alloc: Global,
    shared: &Rc<Shared>,
    modules: &[Module],
) -> Result<Vec<Scope>, NoMemory>
    ensures { IfOk result (λ scopes. ModuleScopes shared.now.value modules.now scopes.items) }
{
    let mut scopes = Vec::new(alloc);
    for (number, one) in modules.iter().enumerate() {
        scopes.push(module_scope(alloc, shared, number, one)?)?;
    }
    Ok(scopes)
}

/// The scopes of a file: in that of each unit and module each name is just what it is there.
///
/// # Errors
/// `NoMemory` only where memory was refused.
pub fn symbols_of(alloc: Global, file: &File) -> Result<Symbols, NoMemory>
    ensures { IfOk result (AreSymbolsOf file.now) }
{
    let modules = file.modules.items();
    let shared = Rc::new(alloc, Shared::of(alloc, file)?)?;
    let unit_list = unit_scopes(alloc, modules, &shared, file.units.items())?;
    let module_list = module_scopes(alloc, &shared, modules)?;
    Ok(Symbols {
        shared,
        units: unit_list,
        modules: module_list,
    })
}

impl Symbols {
    ghost use Rattle.std.specs.Prelude.{◌≡◌, ◌<◌, length, Some, slice_get};
    ghost use Rattle.fort_tree.specs.declared.unit.File as file_type;
    ghost use Rattle.fort_names.specs.Sharing.{shared_of};

    /// What all the scopes share.
    pub fn shared(&self) -> &Shared
        ensures is { result.now ≡ self.now.shared.value }
        ensures of_file { (f : file_type.File) → AreSymbolsOf f self.now → result.now ≡ shared_of f }
    {
        &self.shared
    }

    /// The scope of the unit of this number in the file.
    pub fn scope(&self, unit: usize) -> &Scope
        requires { unit < length self.now.units.items }
        ensures { slice_get self.now.units.items unit ≡ Some result.now }
    {
        &self.units[unit]
    }

    /// The scope of the module of this number in the file.
    pub fn module_scope(&self, number: usize) -> &Scope
        requires { number < length self.now.modules.items }
        ensures { slice_get self.now.modules.items number ≡ Some result.now }
    {
        &self.modules[number]
    }

    /// The scopes of the units, in their order.
    pub fn units(&self) -> &[Scope]
        ensures { result.now ≡ self.now.units.items }
    {
        self.units.as_slice()
    }

    /// The scopes of the modules, in their order.
    pub fn modules(&self) -> &[Scope]
        ensures { result.now ≡ self.now.modules.items }
    {
        self.modules.as_slice()
    }
}
