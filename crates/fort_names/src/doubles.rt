//! Names that stand twice in a list.
ghost use Rattle.std.specs.Prelude.{◌≡◌, Some, IfOk, OnOk};
ghost use Rattle.std.specs.Str.{bytes_eq};
ghost use Rattle.fort_tree.specs.declared.fault.Code.TheVariants.{E31};
ghost use Rattle.sound_programs.specs.Faults.{found};
ghost use Rattle.sound_programs.specs.Places.{later_of as later_place, earlier_of as earlier_place};
ghost use Rattle.sound_programs.specs.DeclarationFaults.{seconds};
ghost use Rattle.indexmap.specs.IndexMap.{get};
ghost use Rattle.fort_names.specs.Leasts.{noted};
ghost use Rattle.fort_names.specs.Twice.{second_place, IsFirstPlace};

use crate::least::{Least, is_earlier};
use fort_tree::{Code, Name, Named, NoMemory, Place};
use indexmap::IndexMap;
use std::alloc::Global;

/// The later of two places.
pub fn later_of(at: Place, other: Place) -> Place
    ensures { result ≡ later_place at other }
{
    if is_earlier(at, other) { other } else { at }
}

fn earlier_of(at: Place, other: Place) -> Place
    ensures { result ≡ earlier_place at (Some other) }
{
    if is_earlier(other, at) { other } else { at }
}

/// Notes the later of the place and the first one before it, if there is one. Gives the first of both.
fn note_second(least: &mut Least, first: Option<Place>, place: Place) -> Place
    ensures noted { least.new ≡ noted (found E31 (second_place first place)) least.old }
    ensures first { result ≡ earlier_place place first }
{
    match first {
        None => place,
        Some(first) => {
            least.note(Code::E31, later_of(first, place));
            earlier_of(place, first)
        }
    }
}

/// Notes of each two of one name the later. Gives the first place of each name.
///
/// # Errors
/// `NoMemory` only where memory was refused.
pub fn note_seconds(
    alloc: Global,
    least: &mut Least,
    named: &[Named],
) -> Result<IndexMap<Name, Place>, NoMemory>
    ensures noted { OnOk result (least.new ≡ noted (found E31 (seconds named.now)) least.old) }
    ensures firsts { IfOk result (λ firsts. IsFirstPlace named.now (get bytes_eq firsts)) }
{
    let mut firsts = IndexMap::new(alloc);
    for one in named {
        let before = firsts.get(&one.name).copied();
        let first = note_second(least, before, one.at);
        firsts.insert(one.name, first)?;
    }
    Ok(firsts)
}
