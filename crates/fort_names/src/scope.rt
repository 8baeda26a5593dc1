//! What each name is in a scope.
ghost use Rattle.std.specs.Prelude.{◌≡◌};
ghost use Rattle.std.specs.Option.{option_copied};
ghost use Rattle.fort_names.specs.Finding.{own_found, origin_found, found_outside, found};

use crate::entity::Entity;
use crate::homes::Declared;
use crate::rows::{lines_origin, number_at};
use crate::shared::Shared;
use crate::table::Table;
use fort_tree::{Name, Seq, Use};
use std::rc::Rc;

/// What a scope declares itself.
#[derive(Drop)]
pub enum Own {
    /// The declarations of a unit.
    Declared(Table),
    /// The module of this number.
    OfModule(usize),
}

/// The scope of a unit or of a module.
#[derive(Drop)]
pub struct Scope {
    pub own: Own,
    pub uses: Seq<Use>,
    /// The number of the module around a unit.
    pub host: Option<usize>,
    pub shared: Rc<Shared>,
}

/// What a scope declares itself under the name.
pub fn find_own<'a>(own: &'a Own, shared: &'a Shared, name: &Name) -> Option<&'a Entity>
    ensures { option_copied result ≡ own_found own.now shared.now name.now }
{
    match own {
        Own::Declared(table) => table.find(name),
        Own::OfModule(number) => shared.declared.in_module(*number, name),
    }
}

/// The number of the module that declares what the USE lines, or else the module around, give under the name.
fn origin(shared: &Shared, uses: &[Use], host: Option<usize>, name: &Name) -> Option<usize>
    ensures { result ≡ origin_found shared.now uses.now host name.now }
{
    let row = shared.row_of(name);
    match lines_origin(&shared.declared.names, row, uses, name) {
        Some(number) => Some(number),
        None => number_at(row, host?),
    }
}

/// The entity that USE lines and the module around give under the name, or else the external unit or the module of the name.
pub fn find_outside<'a>(
    shared: &'a Shared,
    uses: &[Use],
    host: Option<usize>,
    name: &Name,
) -> Option<&'a Entity>
    ensures { option_copied result ≡ found_outside shared.now uses.now host name.now }
{
    let declared: &Declared = &shared.declared;
    if let Some(number) = origin(shared, uses, host, name) {
        if let Some(entity) = declared.in_module(number, name) {
            return Some(entity);
        }
    }
    match declared.unit(None, name) {
        Some(entity) => Some(entity),
        None => declared.module(name),
    }
}

impl Scope {
    /// The one entity that the name is in the scope, or `None` exactly where it is nothing there. What the scope declares comes first, then what its USE lines bring,
    /// then what the module around it declares or has by USE, then an external unit, then a module.
    pub fn find(&self, name: &Name) -> Option<&Entity>
        ensures { option_copied result ≡ found self.now name.now }
    {
        let shared: &Shared = &self.shared;
        match find_own(&self.own, shared, name) {
            Some(entity) => Some(entity),
            None => find_outside(shared, self.uses.items(), self.host, name),
        }
    }
}
