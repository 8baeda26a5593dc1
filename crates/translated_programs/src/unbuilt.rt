//! The first place that keeps a program from being translated.
ghost use Rattle.std.specs.Prelude.{◌≡◌, [], map, flat_map, not, MatchOption, IfOk, None};
ghost use Rattle.std.specs.List.{list_all};
ghost use Rattle.claw_meaning.specs.Plain.{plain_option, plain_expr};
ghost use Rattle.fort_names.specs.NameLists.{has};
ghost use Rattle.scalar_units.specs.Unbuilt.{IsFirst, noted};
ghost use Rattle.sound_programs.specs.Placing.{placed_stmts};
ghost use Rattle.translated_programs.specs.Directed.{directed_in};
ghost use Rattle.translated_programs.specs.NotBuilt.{are_new as new_test, is_new_bound as new_bound_test, of_any_unit, of_column_unit, of_names, of_plain_unit, unbuilt};

use crate::columns::is_column_unit;
use crate::directed::note_directed;
use crate::unit_names::{UnitNames, unit_names};
use fort_names::NameSet;
use fort_tree::{Directive, Expr, File, Name, NoMemory, Place, Unit};
use scalar_units::{note, note_unit, note_unless};
use std::alloc::Global;

fn are_free(globals: &NameSet, names: &[Name]) -> bool
    ensures { result ≡ list_all (λ x. not (has globals.now x)) names.now }
{
    names.iter().all(|name| !globals.has(name))
}

fn is_new_bound(globals: &NameSet, bound: &Option<Expr>) -> bool
    ensures { result ≡ new_bound_test (has globals.now) (plain_option bound.now) }
{
    match bound {
        Some(Expr::Ref(name, None, _)) => !globals.has(name),
        _ => true,
    }
}

fn are_new(globals: &NameSet, define: &Directive) -> bool
    ensures { result ≡ new_test (has globals.now) define.now }
{
    are_free(globals, define.names.items()) && is_new_bound(globals, &define.upper)
}

fn note_names(least: Option<Place>, globals: &NameSet, marks: &[Directive]) -> Option<Place>
    ensures { result ≡ noted (of_names (has globals.now) marks.now) least }
{
    match marks {
        [] => least,
        [define, ..] => note_unless(least, are_new(globals, define), define.at),
    }
}

fn note_marks(least: Option<Place>, marks: &[Directive]) -> Option<Place>
    ensures { result ≡ noted (map (λ d. d.at) marks.now) least }
{
    let mut least = least;
    for mark in marks {
        least = note(least, mark.at);
    }
    least
}

#[tactic(auto, using(scalar_units::proofs::Firsts::two_parts))]
fn note_column_unit(least: Option<Place>, names: &UnitNames, unit: &Unit) -> Option<Place>
    ensures { result ≡ noted (of_column_unit (has names.now.globals) unit.now) least }
{
    let least = note_unit(least, unit);
    note_names(least, &names.globals, unit.marks.items())
}

fn note_places(least: Option<Place>, places: &[Place]) -> Option<Place>
    ensures { result ≡ noted places.now least }
{
    let mut least = least;
    for place in places {
        least = note(least, *place);
    }
    least
}

fn directed_places(alloc: Global, columns: &NameSet, unit: &Unit) -> Result<Vec<Place>, NoMemory>
    ensures { IfOk result (λ places. places.items ≡ directed_in (has columns.now) (placed_stmts unit.now.body)) }
{
    let mut places = Vec::new(alloc);
    note_directed(unit.body.items(), columns, &mut places)?;
    Ok(places)
}

#[tactic(auto, using(scalar_units::proofs::Firsts::two_parts))]
fn note_plain_unit(
    alloc: Global,
    least: Option<Place>,
    names: &UnitNames,
    unit: &Unit,
) -> Result<Option<Place>, NoMemory>
    ensures { IfOk result (λ first. first ≡ noted (of_plain_unit (has names.now.columns) unit.now) least) }
{
    let places = directed_places(alloc, &names.columns, unit)?;
    let least = note_marks(least, unit.marks.items());
    Ok(note_places(least, places.as_slice()))
}

#[tactic(auto, unfolding(crate::specs::NotBuilt::of_any_unit))]
fn note_any_unit(
    alloc: Global,
    least: Option<Place>,
    names: &UnitNames,
    unit: &Unit,
) -> Result<Option<Place>, NoMemory>
    ensures { IfOk result (λ first. first ≡ noted (of_any_unit (has names.now.columns) (has names.now.globals) unit.now) least) }
{
    if is_column_unit(unit) {
        Ok(note_column_unit(least, names, unit))
    } else {
        note_plain_unit(alloc, least, names, unit)
    }
}

#[tactic(auto, using(scalar_units::proofs::Firsts::noted_append))]
fn note_units(
    alloc: Global,
    least: Option<Place>,
    names: &UnitNames,
    units: &[Unit],
) -> Result<Option<Place>, NoMemory>
    ensures { IfOk result (λ first. first ≡ noted (flat_map (of_any_unit (has names.now.columns) (has names.now.globals)) units.now) least) }
{
    let mut least = least;
    for unit in units {
        least = note_any_unit(alloc, least, names, unit)?;
    }
    Ok(least)
}

/// The first place that keeps a program from being translated, or `None` exactly where nothing does. It is
/// - in a column unit, a place that keeps it from being one of column scalars (`scalar_units::note_unit`), or the sentinel of `define` where a module or an external
///   unit has the name of its dimension or of its upper bound;
/// - in another unit, the sentinel of a directive before a loop or of a block, and the first token of a CALL under `parallelize forward` or of a column unit.
///
/// # Errors
/// `NoMemory` only where memory was refused. The rules are this project's own: what isn't translated yet.
#[tactic(auto, using(crate::proofs::NamesAre::first_is_unbuilt, crate::proofs::NamesAre::noted_is_unbuilt))]
pub fn first_unbuilt(alloc: Global, file: &File) -> Result<Option<Place>, NoMemory>
    ensures first { IfOk result (λ first. MatchOption first (unbuilt file.now ≡ []) (λ at. IsFirst at (unbuilt file.now))) }
    ensures noted { IfOk result (λ first. first ≡ noted (unbuilt file.now) None) }
{
    let names = unit_names(alloc, file)?;
    let first = note_units(alloc, None, &names, file.units.items())?;
    Ok(first)
}
