//! A unit that is referred to.
ghost use Rattle.std.specs.Prelude.{◌≡◌};
ghost use Rattle.claw_meaning.specs.Plain.{plain_unit};
ghost use Rattle.sound_programs.specs.Kinding.{kind_of_result};

use crate::scope::{Scope, find_own};
use fort_tree::{Decl, Kind, Name, Unit};
use std::marker::Model;

/// A unit whose declarations are found by name, without going through them. Contracts see the unit.
#[derive(Drop)]
pub struct Callee<'a> {
    pub(crate) unit: &'a Unit,
    pub(crate) scope: &'a Scope,
}

impl<'a> Model for Callee<'a> {
    ghost use Rattle.fort_tree.specs.declared.unit.Unit.{Unit as TreeUnit};
    ghost use Rattle.fort_tree.specs.contracts.unit.Unit as tree_unit;
    ghost use Rattle.fort_names.specs.Callees.{Declares};

    ghost Value = { TreeUnit };

    ghost coded = { tree_unit.the_row.coded };

    ghost view = { λ s. s.unit.now };

    ghost invariant = { λ s. Declares s.unit.now s.scope.now };
}

impl<'a> Callee<'a> {
    ghost use Rattle.std.specs.Prelude.{◌≡◌};
    ghost use Rattle.std.specs.Option.{option_copied, option_map};
    ghost use Rattle.claw_meaning.specs.Plain.{plain_decl, plain_unit};
    ghost use Rattle.claw_meaning.specs.Scope.{decl_named};

    /// The unit.
    pub fn unit(&self) -> &'a Unit
        ensures { result.now ≡ self.now }
    {
        self.unit
    }

    /// The first declaration of the name in the unit.
    pub fn declaration(&self, name: &Name) -> Option<&'a Decl>
        ensures { option_map plain_decl (option_copied result) ≡ decl_named (plain_unit self.now).decls name.now }
    {
        match find_own(&self.scope.own, &self.scope.shared, name) {
            None => None,
            Some(entity) => entity.decl.as_ref(),
        }
    }
}

/// The kind of a function's result; a SUBROUTINE has none.
pub fn result_kind(callee: &Callee<'_>) -> Option<Kind>
    ensures { result ≡ kind_of_result (plain_unit callee.now).result (plain_unit callee.now) }
{
    match &callee.unit().result {
        None => None,
        Some(named) => match callee.declaration(&named.name) {
            None => None,
            Some(decl) => Some(decl.kind),
        },
    }
}
