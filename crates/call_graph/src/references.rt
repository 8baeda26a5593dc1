//! The references of the units of a file.
ghost use Rattle.std.specs.Prelude.{◌≡◌, ◌++◌, [], IfOk, OnOk, flat_map, map};
ghost use Rattle.claw_meaning.specs.Syntax.{Text};
ghost use Rattle.fort_names.specs.Scoping.{AreSymbolsOf};
ghost use Rattle.fort_names.specs.Sights.{means, file_of};
ghost use Rattle.sound_programs.specs.Placing.{placed_unit};
ghost use Rattle.sound_programs.specs.Walks as walks;
ghost use Rattle.unit_steps.specs.Behind.{placed_step};
ghost use Rattle.call_graph.specs.Adding.{Adds, named_referrals, is_function_name as is_function_test, function_referrals, step_referrals};
ghost use Rattle.call_graph.specs.Referring.{AreReferencesOf};

use crate::reference::Reference;
use fort_names::{Meaning, Sight, Symbols};
use fort_tree::{ByName, File, Intrinsic, Named, NoMemory, Seq, Unit};
use std::alloc::Global;
use unit_steps::{Step, note_names_before_parenthesis, parts_read, steps_of};

/// Adds the name, where it is a unit.
fn note_reference(
    sight: &Sight<'_>,
    name: &Named,
    into: &mut Seq<Reference>,
) -> Result<(), NoMemory>
    ensures { (from : Text) → OnOk result (Adds (file_of sight.now) from into.old into.new (named_referrals (means sight.now) from name.now)) }
{
    match sight.meaning(&name.name) {
        Meaning::Unit(unit, _) => into.push(Reference { unit, at: name.at }),
        Meaning::Nothing | Meaning::Variable(_, _) | Meaning::Constant(_) => Ok(()),
    }
}

fn is_function_name(sight: &Sight<'_>, name: &Named) -> bool
    ensures { result ≡ is_function_test (means sight.now) name.now }
{
    Intrinsic::named(&name.name).is_none() && sight.is_function(&name.name)
}

/// Adds those of the names that are functions.
fn note_functions(
    sight: &Sight<'_>,
    names: &[Named],
    into: &mut Seq<Reference>,
) -> Result<(), NoMemory>
    ensures { (from : Text) → OnOk result (Adds (file_of sight.now) from into.old into.new (function_referrals (means sight.now) from names.now)) }
{
    for name in names {
        if is_function_name(sight, name) {
            note_reference(sight, name, into)?;
        }
    }
    Ok(())
}

/// Adds the unit that the step calls.
fn note_call(sight: &Sight<'_>, step: Step<'_>, into: &mut Seq<Reference>) -> Result<(), NoMemory>
    ensures { (from : Text) → OnOk result (Adds (file_of sight.now) from into.old into.new (flat_map (named_referrals (means sight.now) from) (walks.call_name (placed_step step.entry)))) }
{
    match step.call_name() {
        None => Ok(()),
        Some(name) => note_reference(sight, &name, into),
    }
}

/// Adds the references of the step.
fn note_step(
    alloc: Global,
    sight: &Sight<'_>,
    step: Step<'_>,
    into: &mut Seq<Reference>,
) -> Result<(), NoMemory>
    ensures { (from : Text) → OnOk result (Adds (file_of sight.now) from into.old into.new (step_referrals (means sight.now) from (placed_step step.entry))) }
{
    note_call(sight, step, into)?;
    let parts = parts_read(alloc, step)?;
    let mut names = Vec::new(alloc);
    note_names_before_parenthesis(parts.as_slice(), &mut names)?;
    note_functions(sight, names.as_slice(), into)
}

/// The references of a unit, in the order of its steps.
fn references_in(alloc: Global, sight: &Sight<'_>, unit: &Unit) -> Result<Seq<Reference>, NoMemory>
    ensures { (from : Text) → IfOk result (λ refs. Adds (file_of sight.now) from [] refs (flat_map (step_referrals (means sight.now) from) (map (λ s. s.step) (walks.steps_of (placed_unit unit.now))))) }
{
    let steps = steps_of(alloc, unit)?;
    let mut references = Seq::new(alloc);
    for step in steps.as_slice() {
        note_step(alloc, sight, *step, &mut references)?;
    }
    Ok(references)
}

/// The references of each unit of the file.
pub fn references_of(
    alloc: Global,
    file: &File,
    symbols: &Symbols,
) -> Result<Vec<Seq<Reference>>, NoMemory>
    requires { AreSymbolsOf file.now symbols.now }
    ensures { IfOk result (λ rows. AreReferencesOf file.now rows.items) }
{
    let mut rows = Vec::new(alloc);
    for (number, unit) in file.units.items().iter().enumerate() {
        let sight = symbols.sight_of_unit(file, number);
        rows.push(references_in(alloc, &sight, unit)?)?;
    }
    Ok(rows)
}
