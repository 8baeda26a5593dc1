//! All rules, and the units that break one.
ghost use Rattle.std.specs.Prelude.{◌≡◌, ◌<◌, None, Some, flat_map, is_none as is_none_test, length, slice_get, slice_index_or, IfOk};
ghost use Rattle.claw_meaning.specs.Plain.{plain_unit};
ghost use Rattle.fort_names.specs.Scoping.{AreSymbolsOf};
ghost use Rattle.scalar_units.specs.Unbuilt.{noted};
ghost use Rattle.column_rules.specs.OnTrees as trees;
ghost use Rattle.column_rules.specs.Rules as rules;
ghost use Rattle.column_rules.specs.Writing.{AreWriting};

use crate::bounds::{has_dimension, has_shared_bounds};
use crate::dummies::only_reads_shared;
use crate::lists::{lists_dummies, places_dimension};
use crate::returns::never_return;
use fort_names::{At, Symbols};
use fort_tree::{File, NoMemory, Place, Unit};
use plain_units::is_column_unit;
use scalar_units::note_unless;
use std::alloc::Global;

/// Whether the unit keeps the rules on itself alone.
fn keeps_own(unit: &Unit) -> bool
    ensures { result ≡ rules.keeps_own (plain_unit unit.now) }
{
    only_reads_shared(unit)
        && lists_dummies(unit)
        && places_dimension(unit)
        && never_return(unit.body.items())
}

/// Whether the unit of the number keeps the rules on names.
fn has_dimension_at(file: &File, symbols: &Symbols, number: usize, unit: &Unit) -> bool
    requires symbols { AreSymbolsOf file.now symbols.now }
    requires there { slice_get file.now.units number ≡ Some unit.now }
    ensures { result ≡ rules.has_dimension (trees.entity_from file.now unit.now) (trees.module_names file.now) (plain_unit unit.now) }
{
    let sight = symbols.sight_of_unit(file, number);
    has_dimension(file, &sight, unit)
}

fn is_none(write: Option<At>) -> bool
    ensures { result ≡ is_none_test write }
{
    match write {
        None => true,
        Some(_) => false,
    }
}

fn write_at(writes: &[Option<At>], number: usize) -> Option<At>
    requires { number < length writes.now }
    ensures { result ≡ slice_index_or writes.now number None }
{
    writes[number]
}

fn writes_no_module(file: &File, writes: &[Option<At>], number: usize, unit: &Unit) -> bool
    requires writes { AreWriting file.now writes.now }
    requires there { slice_get file.now.units number ≡ Some unit.now }
    ensures { result ≡ trees.writes_no_module file.now unit.now }
{
    is_none(write_at(writes, number))
}

#[tactic(auto, unfolding(crate::specs::OnTrees::keeps_rules))]
fn keeps_rules(
    alloc: Global,
    file: &File,
    symbols: &Symbols,
    writes: &[Option<At>],
    number: usize,
    unit: &Unit,
) -> Result<bool, NoMemory>
    requires symbols { AreSymbolsOf file.now symbols.now }
    requires writes { AreWriting file.now writes.now }
    requires there { slice_get file.now.units number ≡ Some unit.now }
    ensures { IfOk result (λ keeps. keeps ≡ trees.keeps_rules file.now unit.now) }
{
    let shared = has_shared_bounds(alloc, unit)?;
    let own = keeps_own(unit);
    let unwritten = writes_no_module(file, writes, number, unit);
    let dimension = has_dimension_at(file, symbols, number, unit);
    Ok(own && unwritten && dimension && shared)
}

#[tactic(auto, unfolding(crate::specs::OnTrees::of_unit))]
fn note_unit(
    alloc: Global,
    least: Option<Place>,
    file: &File,
    symbols: &Symbols,
    writes: &[Option<At>],
    number: usize,
    unit: &Unit,
) -> Result<Option<Place>, NoMemory>
    requires symbols { AreSymbolsOf file.now symbols.now }
    requires writes { AreWriting file.now writes.now }
    requires there { slice_get file.now.units number ≡ Some unit.now }
    ensures { IfOk result (λ first. first ≡ noted (trees.of_unit file.now unit.now) least) }
{
    let keeps = keeps_rules(alloc, file, symbols, writes, number, unit)?;
    Ok(note_unless(least, !is_column_unit(unit) || keeps, unit.at))
}

fn note_units(
    alloc: Global,
    least: Option<Place>,
    file: &File,
    symbols: &Symbols,
    writes: &[Option<At>],
    units: &[Unit],
) -> Result<Option<Place>, NoMemory>
    requires symbols { AreSymbolsOf file.now symbols.now }
    requires writes { AreWriting file.now writes.now }
    requires units { units.now ≡ file.now.units }
    ensures { IfOk result (λ first. first ≡ noted (flat_map (trees.of_unit file.now) units.now) least) }
{
    let mut least = least;
    for (number, unit) in units.iter().enumerate() {
        least = note_unit(alloc, least, file, symbols, writes, number, unit)?;
    }
    Ok(least)
}

/// The first of the place so far and of the headers of the column units that break a rule.
///
/// # Errors
/// `NoMemory` only where memory was refused.
#[tactic(auto, using(crate::proofs::BrokenAre::noted_is_broken))]
pub fn note_headers(
    alloc: Global,
    least: Option<Place>,
    file: &File,
    symbols: &Symbols,
    writes: &[Option<At>],
) -> Result<Option<Place>, NoMemory>
    requires symbols { AreSymbolsOf file.now symbols.now }
    requires writes { AreWriting file.now writes.now }
    ensures { IfOk result (λ first. first ≡ noted (rules.broken file.now) least) }
{
    let first = note_units(alloc, least, file, symbols, writes, file.units.items())?;
    Ok(first)
}
