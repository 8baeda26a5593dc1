//! What `data` and `over` list.
ghost use Rattle.std.specs.Prelude.{◌≡◌};
ghost use Rattle.claw_meaning.specs.Plain.{plain_unit};
ghost use Rattle.column_rules.specs.Rules as rules;

use crate::dummies::is_dummy;
use crate::marks::{dimension, parallelize_of};
use fort_tree::{Name, Unit};

fn is_listed_once(names: &[Name], name: &Name) -> bool
    ensures { result ≡ rules.stands_once names.now name.now }
{
    names.iter().filter(|other| **other == *name).count() == 1
}

fn is_dummy_once(unit: &Unit, names: &[Name], name: &Name) -> bool
    ensures { result ≡ rules.is_dummy_once (plain_unit unit.now).dummies names.now name.now }
{
    is_dummy(unit, name) && is_listed_once(names, name)
}

fn are_dummies_once(unit: &Unit, names: &[Name]) -> bool
    ensures { result ≡ rules.are_dummies_once (plain_unit unit.now).dummies names.now }
{
    names.iter().all(|name| is_dummy_once(unit, names, name))
}

/// Whether `data` lists dummies alone, each once.
pub fn lists_dummies(unit: &Unit) -> bool
    ensures { result ≡ rules.lists_dummies (plain_unit unit.now) }
{
    match parallelize_of(unit.marks.items()) {
        None => true,
        Some(directive) => are_dummies_once(unit, directive.names.items()),
    }
}

fn is_this(name: &Name, position: &Option<Name>) -> bool
    ensures { result ≡ rules.is_this name.now position.now }
{
    match position {
        None => false,
        Some(other) => *other == *name,
    }
}

fn has_no_other(name: &Name, position: &Option<Name>) -> bool
    ensures { result ≡ rules.has_no_other name.now position.now }
{
    position.is_none() || is_this(name, position)
}

fn has_once(name: &Name, positions: &[Option<Name>]) -> bool
    ensures { result ≡ rules.has_once name.now positions.now }
{
    positions
        .iter()
        .filter(|position| is_this(name, *position))
        .count()
        == 1
}

fn has_no_others(name: &Name, positions: &[Option<Name>]) -> bool
    ensures { result ≡ rules.has_no_others name.now positions.now }
{
    positions
        .iter()
        .all(|position| has_no_other(name, position))
}

fn has_just(name: Option<Name>, positions: &[Option<Name>]) -> bool
    ensures { result ≡ rules.has_just_dimension name positions.now }
{
    match name {
        None => false,
        Some(name) => has_no_others(&name, positions) && has_once(&name, positions),
    }
}

/// Whether `over`, where it is written, has the dimension's name just once and no other name.
pub fn places_dimension(unit: &Unit) -> bool
    ensures { result ≡ rules.places_dimension (plain_unit unit.now) }
{
    match parallelize_of(unit.marks.items()) {
        None => true,
        Some(directive) => match &directive.over {
            None => true,
            Some(positions) => has_just(dimension(unit), positions.items()),
        },
    }
}
