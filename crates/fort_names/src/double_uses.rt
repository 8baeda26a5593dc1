//! USE lines that give one name from two modules.
ghost use Rattle.std.specs.Prelude.{◌≡◌, [], None, IfOk};
ghost use Rattle.std.specs.List.{list_any};
ghost use Rattle.fort_tree.specs.declared.fault.Code.TheVariants.{E31};
ghost use Rattle.sound_programs.specs.Faults.{found};
ghost use Rattle.sound_programs.specs.Scopes.{only_names, place_of_use as use_place};
ghost use Rattle.fort_names.specs.Leasts.{noted, places_at};
ghost use Rattle.fort_names.specs.TwoUses.{is_other as other_test, earlier_use as earlier_of_uses, first_use as first_of_uses};
ghost use Rattle.fort_names.specs.Using.{brought_from as number_brought, name_twice, first_number as first_in_row, is_contested as contested_test, contested_names as names_contested, contested_from as contested_in, names_twice, only_twice, all_twice, open_twice, uses_twice, are_two_open as two_open};

use crate::least::{Least, is_earlier};
use crate::name_set::NameSet;
use crate::rows::{brings, origin_of};
use crate::shared::Shared;
use crate::used_names::place_of_use;
use fort_tree::{Code, Name, Named, NoMemory, Place, Use};
use std::alloc::Global;

/// The number of the module that declares what the line gives under the name.
fn brought_from(shared: &Shared, name: &Name, line: &Use) -> Option<usize>
    ensures { result ≡ number_brought shared.now name.now line.now }
{
    if brings(line, name) {
        origin_of(&shared.declared.names, shared.row_of(name), &line.name)
    } else {
        None
    }
}

fn is_other(number: usize, other: Option<usize>) -> bool
    ensures { result ≡ other_test number other }
{
    match other {
        None => false,
        Some(other) => number != other,
    }
}

fn earlier_use(
    first: Option<(Place, usize)>,
    number: Option<usize>,
    place: Place,
) -> Option<(Place, usize)>
    ensures { result ≡ earlier_of_uses first number place }
{
    match number {
        None => first,
        Some(number) => match first {
            None => Some((place, number)),
            Some(first) => {
                if is_earlier(place, first.0) {
                    Some((place, number))
                } else {
                    Some(first)
                }
            }
        },
    }
}

/// The first place at which a line gives the name, and the number of the module that declares it.
fn first_use(shared: &Shared, lines: &[Use], name: &Name) -> Option<(Place, usize)>
    ensures { result ≡ first_of_uses (number_brought shared.now name.now) (λ line. use_place line name.now) None lines.now }
{
    let mut first = None;
    for line in lines {
        let number = brought_from(shared, name, line);
        first = earlier_use(first, number, place_of_use(line, name));
    }
    first
}

fn note_others(least: &mut Least, shared: &Shared, lines: &[Use], name: &Name, number: usize)
    ensures { least.new ≡ noted (found E31 (places_at (λ line. other_test number (number_brought shared.now name.now line)) (λ line. use_place line name.now) lines.now)) least.old }
{
    for line in lines {
        let other = is_other(number, brought_from(shared, name, line));
        least.note_if(other, Code::E31, place_of_use(line, name));
    }
}

/// Notes where lines give the name from another module than the first of them.
fn note_name_twice(least: &mut Least, shared: &Shared, lines: &[Use], name: &Name)
    ensures { least.new ≡ noted (found E31 (name_twice shared.now lines.now name.now)) least.old }
{
    match first_use(shared, lines, name) {
        None => {}
        Some(first) => note_others(least, shared, lines, name, first.1),
    }
}

fn first_number(row: &[Option<usize>]) -> Option<usize>
    ensures { result ≡ first_in_row row.now }
{
    for number in row {
        if number.is_some() {
            return *number;
        }
    }
    None
}

fn has_other(number: usize, row: &[Option<usize>]) -> bool
    ensures { result ≡ list_any (other_test number) row.now }
{
    for other in row {
        if is_other(number, *other) {
            return true;
        }
    }
    false
}

fn is_contested(row: &[Option<usize>]) -> bool
    ensures { result ≡ contested_test row.now }
{
    match first_number(row) {
        None => false,
        Some(first) => has_other(first, row),
    }
}

fn contested_of(alloc: Global, shared: &Shared, given: &[Name]) -> Result<NameSet, NoMemory>
    ensures { IfOk result (λ names. names ≡ contested_in shared.now [] given.now) }
{
    let mut names = NameSet::new(alloc);
    for name in given {
        if is_contested(shared.row_of(name)) {
            names.insert(*name)?;
        }
    }
    Ok(names)
}

/// The names that two modules declare, of those that modules give. No other name can be given from two modules.
///
/// # Errors
/// `NoMemory` only where memory was refused.
pub fn contested_names(alloc: Global, shared: &Shared) -> Result<NameSet, NoMemory>
    ensures { IfOk result (λ names. names ≡ names_contested shared.now) }
{
    contested_of(alloc, shared, shared.given.names())
}

fn note_names_twice(
    least: &mut Least,
    shared: &Shared,
    contested: &NameSet,
    lines: &[Use],
    only: &[Named],
)
    ensures { least.new ≡ noted (found E31 (names_twice shared.now contested.now lines.now only.now)) least.old }
{
    for named in only {
        if contested.has(&named.name) {
            note_name_twice(least, shared, lines, &named.name);
        }
    }
}

fn only_of(line: &Use) -> &[Named]
    ensures { result.now ≡ only_names line.now.only }
{
    match &line.only {
        None => &[],
        Some(only) => only.items(),
    }
}

fn note_only_twice(least: &mut Least, shared: &Shared, contested: &NameSet, lines: &[Use])
    ensures { least.new ≡ noted (found E31 (only_twice shared.now contested.now lines.now lines.now)) least.old }
{
    for line in lines {
        note_names_twice(least, shared, contested, lines, only_of(line));
    }
}

fn are_two_open(lines: &[Use]) -> bool
    ensures { result ≡ two_open lines.now }
{
    lines.iter().filter(|line| line.only.is_none()).count() > 1
}

fn note_all_twice(least: &mut Least, shared: &Shared, contested: &[Name], lines: &[Use])
    ensures { least.new ≡ noted (found E31 (all_twice shared.now contested.now lines.now)) least.old }
{
    for name in contested {
        note_name_twice(least, shared, lines, name);
    }
}

fn note_open_twice(least: &mut Least, shared: &Shared, contested: &NameSet, lines: &[Use])
    ensures { least.new ≡ noted (found E31 (open_twice shared.now contested.now lines.now)) least.old }
{
    if are_two_open(lines) {
        note_all_twice(least, shared, contested.names(), lines);
    }
}

/// Notes where the lines give a name from two modules, of the names that two modules declare.
#[tactic(auto, using(crate::proofs::FirstOf::noted_places))]
pub fn note_uses_twice(least: &mut Least, shared: &Shared, contested: &NameSet, lines: &[Use])
    ensures { least.new ≡ noted (found E31 (uses_twice shared.now contested.now lines.now)) least.old }
{
    note_only_twice(least, shared, contested, lines);
    note_open_twice(least, shared, contested, lines);
}
