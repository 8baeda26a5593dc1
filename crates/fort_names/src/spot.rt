//! From where a program is seen.
ghost use Rattle.std.specs.Prelude.{◌≡◌};
ghost use Rattle.std.specs.Option.{option_copied};
ghost use Rattle.fort_names.specs.Spots.{own_name, found_at};

use crate::entity::Entity;
use crate::scope::{Scope, find_outside};
use crate::shared::Shared;
use fort_tree::{Module, Name, Unit};

/// A unit with its scope, or the module of this number.
#[derive(Clone, Copy)]
pub enum Spot<'a> {
    InUnit(&'a Scope, &'a Unit),
    InModule(usize, &'a Module),
}

impl<'a> Spot<'a> {
    /// The name of the unit or module.
    pub fn name(&self) -> Name
        ensures { result ≡ own_name self.now }
    {
        match self {
            Spot::InUnit(_, unit) => unit.name,
            Spot::InModule(_, one) => one.name,
        }
    }
}

/// The entity that the name is there. In a module it is what the first module of its name gives.
pub fn find_at<'a>(shared: &'a Shared, spot: Spot<'a>, name: &Name) -> Option<&'a Entity>
    ensures { option_copied result ≡ found_at shared.now spot.entry name.now }
{
    match spot {
        Spot::InUnit(scope, _) => scope.find(name),
        Spot::InModule(_, one) => {
            let host = shared.declared.names.place(&one.name);
            find_outside(shared, &[], host, name)
        }
    }
}
