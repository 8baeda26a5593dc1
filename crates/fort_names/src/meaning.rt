//! What a name means.
ghost use Rattle.std.specs.Prelude.{◌≡◌, is_some};
ghost use Rattle.std.specs.Option.{option_copied};
ghost use Rattle.claw_meaning.specs.Plain.{plain_unit};
ghost use Rattle.fort_names.specs.Meanings.{meaning_of, name_of_home, variable_of, constant_of, unit_at, meant, IsNumbered};

use crate::entity::{Entity, Home, Sort};
use fort_tree::{Decl, File, Name, Unit};

/// What a name means.
#[derive(Clone, Copy)]
pub enum Meaning<'a> {
    /// No variable, no PARAMETER and no unit.
    Nothing,
    /// A variable, with the name of the unit or module that declares it.
    Variable(Name, &'a Decl),
    /// A PARAMETER.
    Constant(&'a Decl),
    /// The unit of this number in the file.
    Unit(usize, &'a Unit),
}

fn home_name(file: &File, own: Name, home: Home) -> Option<Name>
    ensures { result ≡ name_of_home file.now own home }
{
    match home {
        Home::Local => Some(own),
        Home::Module(number) => Some(file.modules.items().get(number)?.name),
        Home::Global => None,
    }
}

fn variable<'a>(home: Option<Name>, decl: &'a Option<Decl>) -> Meaning<'a>
    ensures { meaning_of result ≡ variable_of home decl.now }
{
    match home {
        None => Meaning::Nothing,
        Some(name) => match decl {
            None => Meaning::Nothing,
            Some(one) => Meaning::Variable(name, one),
        },
    }
}

fn constant<'a>(decl: &'a Option<Decl>) -> Meaning<'a>
    ensures { meaning_of result ≡ constant_of decl.now }
{
    match decl {
        None => Meaning::Nothing,
        Some(one) => Meaning::Constant(one),
    }
}

fn unit_of<'a>(file: &'a File, number: usize) -> Meaning<'a>
    ensures is { meaning_of result ≡ unit_at file.now number }
    ensures numbered { IsNumbered file.now result }
{
    match file.units.items().get(number) {
        None => Meaning::Nothing,
        Some(unit) => Meaning::Unit(number, unit),
    }
}

/// What a name means that is this entity in the scope of the unit or module of the name `own`.
pub fn meaning_of_entity<'a>(file: &'a File, own: Name, entity: Option<&'a Entity>) -> Meaning<'a>
    ensures is { meaning_of result ≡ meant file.now own (option_copied entity.entry) }
    ensures numbered { IsNumbered file.now result }
{
    match entity {
        None => Meaning::Nothing,
        Some(one) => match one.sort {
            Sort::Variable => variable(home_name(file, own, one.home), &one.decl),
            Sort::Parameter => constant(&one.decl),
            Sort::Unit => unit_of(file, one.index),
            Sort::Module => Meaning::Nothing,
        },
    }
}

/// Whether the unit is a FUNCTION.
pub fn has_result(unit: &Unit) -> bool
    ensures { result ≡ is_some (plain_unit unit.now).result }
{
    match &unit.result {
        None => false,
        Some(_) => true,
    }
}
