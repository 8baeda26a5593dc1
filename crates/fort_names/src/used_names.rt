//! Declarations of names that a USE line gives.
ghost use Rattle.std.specs.Prelude.{◌≡◌};
ghost use Rattle.std.specs.Str.{bytes_eq};
ghost use Rattle.fort_tree.specs.declared.fault.Code.TheVariants.{E31};
ghost use Rattle.indexmap.specs.IndexMap.{get};
ghost use Rattle.sound_programs.specs.Faults.{found};
ghost use Rattle.sound_programs.specs.Scopes.{place_of_only as only_place, place_of_use as use_place};
ghost use Rattle.fort_names.specs.Leasts.{noted};
ghost use Rattle.fort_names.specs.Sharing.{gives};
ghost use Rattle.fort_names.specs.Twice.{IsFirstPlace};
ghost use Rattle.fort_names.specs.Using.{used_again, used_all, used_first, used_only, used_by, used_by_lines};

use crate::doubles::later_of;
use crate::least::Least;
use crate::shared::Shared;
use fort_tree::{Code, Name, Named, Place, Use};
use indexmap::IndexMap;

/// The place of the name among these, or else the given one.
pub fn place_of_only(only: &[Named], name: &Name, place: Place) -> Place
    ensures { result ≡ only_place only.now name.now place }
{
    for named in only {
        if named.name == *name {
            return named.at;
        }
    }
    place
}

/// Where the line names what it brings.
pub fn place_of_use(line: &Use, name: &Name) -> Place
    ensures { result ≡ use_place line.now name.now }
{
    match &line.only {
        None => line.at,
        Some(only) => place_of_only(only.items(), name, line.at),
    }
}

fn note_used_all(least: &mut Least, shared: &Shared, line: &Use, declared: &[Named])
    ensures { least.new ≡ noted (found E31 (used_all shared.now line.now declared.now)) least.old }
{
    for one in declared {
        least.note_if(
            shared.gives(&line.name, &one.name),
            Code::E31,
            later_of(one.at, line.at),
        );
    }
}

fn note_used_first(
    least: &mut Least,
    first: Option<Place>,
    given: bool,
    only: &[Named],
    named: &Named,
    place: Place,
)
    ensures { least.new ≡ noted (found E31 (used_first first given (only_place only.now named.now.name place))) least.old }
{
    match first {
        None => {}
        Some(first) => {
            let used = place_of_only(only, &named.name, place);
            least.note_if(given, Code::E31, later_of(first, used));
        }
    }
}

fn note_used_only(
    least: &mut Least,
    shared: &Shared,
    firsts: &IndexMap<Name, Place>,
    line: &Use,
    only: &[Named],
)
    ensures { least.new ≡ noted (found E31 (used_only shared.now (get bytes_eq firsts.now) line.now only.now only.now)) least.old }
{
    for named in only {
        note_used_first(
            least,
            firsts.get(&named.name).copied(),
            shared.gives(&line.name, &named.name),
            only,
            named,
            line.at,
        );
    }
}

fn note_used_by(
    least: &mut Least,
    shared: &Shared,
    firsts: &IndexMap<Name, Place>,
    declared: &[Named],
    line: &Use,
)
    ensures { least.new ≡ noted (found E31 (used_by shared.now (get bytes_eq firsts.now) declared.now line.now line.now.only)) least.old }
{
    match &line.only {
        None => note_used_all(least, shared, line, declared),
        Some(only) => note_used_only(least, shared, firsts, line, only.items()),
    }
}

fn note_used_by_lines(
    least: &mut Least,
    shared: &Shared,
    firsts: &IndexMap<Name, Place>,
    declared: &[Named],
    lines: &[Use],
)
    ensures { least.new ≡ noted (found E31 (used_by_lines shared.now (get bytes_eq firsts.now) declared.now lines.now)) least.old }
{
    for line in lines {
        note_used_by(least, shared, firsts, declared, line);
    }
}

/// Notes the declarations of names that one of the lines gives, where the map has the first place of each name that is declared.
pub fn note_used_again(
    least: &mut Least,
    shared: &Shared,
    firsts: &IndexMap<Name, Place>,
    declared: &[Named],
    lines: &[Use],
)
    requires { IsFirstPlace declared.now (get bytes_eq firsts.now) }
    ensures { least.new ≡ noted (found E31 (used_again shared.now declared.now lines.now)) least.old }
{
    note_used_by_lines(least, shared, firsts, declared, lines);
}
