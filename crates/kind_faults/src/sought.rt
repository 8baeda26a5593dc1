//! The faults of units and modules.
ghost use Rattle.std.specs.Prelude.{◌≡◌, ◌++◌, flat_map, OnOk};
ghost use Rattle.sound_programs.specs.Faults.{found};
ghost use Rattle.sound_programs.specs.Placing.{placed_unit};
ghost use Rattle.unit_steps.specs.Behind.{placed_step, placed_steps};
ghost use Rattle.fort_names.specs.Leasts.{noted};
ghost use Rattle.fort_names.specs.Sights.{means};
ghost use Rattle.kind_faults.specs.Holders.{scope_of};
ghost use Rattle.kind_faults.specs.InScopes.{code_of_sought, faults_of_step, faults_of_body, faults_of_decls, faults_beside, faults_behind, faults_in};

use crate::counts::note_counts_of_step;
use crate::holder::Holder;
use crate::kind_decls::{note_defined, note_kinds_of_decls};
use crate::kind_steps::note_kinds_of_step;
use crate::rank_decls::{note_ranks_of_decls, note_result};
use crate::rank_steps::note_ranks_of_step;
use fort_names::{Least, Sight};
use fort_tree::{Mode, NoMemory, Unit};
use std::alloc::Global;
use unit_steps::{Step, steps_of};

/// Which faults are sought.
#[derive(Clone, Copy, Debug)]
pub enum Sought {
    Kinds,
    /// Ranks, up to the limit that a text of this mode has.
    Ranks(Mode),
    /// Numbers of arguments.
    Counts,
}

fn note_step(
    alloc: Global,
    least: &mut Least,
    sought: Sought,
    sight: &Sight,
    step: Step,
) -> Result<(), NoMemory>
    ensures { OnOk result (least.new ≡ noted (found (code_of_sought sought) (faults_of_step (means sight.now) sought (placed_step step.entry))) least.old) }
{
    match sought {
        Sought::Kinds => note_kinds_of_step(alloc, least, sight, step),
        Sought::Ranks(_) => note_ranks_of_step(alloc, least, sight, step),
        Sought::Counts => note_counts_of_step(alloc, least, sight, step),
    }
}

fn note_steps(
    alloc: Global,
    least: &mut Least,
    sought: Sought,
    sight: &Sight,
    steps: &[Step],
) -> Result<(), NoMemory>
    ensures { OnOk result (least.new ≡ noted (found (code_of_sought sought) (flat_map (faults_of_step (means sight.now) sought) (placed_steps steps.now))) least.old) }
{
    for step in steps {
        note_step(alloc, least, sought, sight, *step)?;
    }
    Ok(())
}

#[tactic(auto, using(crate::proofs::Seeking::body_is))]
fn note_body(
    alloc: Global,
    least: &mut Least,
    sought: Sought,
    sight: &Sight,
    unit: &Unit,
) -> Result<(), NoMemory>
    ensures { OnOk result (least.new ≡ noted (found (code_of_sought sought) (faults_of_body (means sight.now) sought (placed_unit unit.now))) least.old) }
{
    let steps = steps_of(alloc, unit)?;
    note_steps(alloc, least, sought, sight, steps.as_slice())
}

fn note_decls(
    alloc: Global,
    least: &mut Least,
    sought: Sought,
    sight: &Sight,
    holder: &Holder,
) -> Result<(), NoMemory>
    ensures { OnOk result (least.new ≡ noted (found (code_of_sought sought) (faults_of_decls (means sight.now) sought (scope_of holder.now))) least.old) }
{
    match sought {
        Sought::Kinds => note_kinds_of_decls(alloc, least, sight, holder),
        Sought::Ranks(mode) => Ok(note_ranks_of_decls(least, mode, holder)),
        Sought::Counts => Ok(()),
    }
}

fn note_beside(
    alloc: Global,
    least: &mut Least,
    sought: Sought,
    unit: &Unit,
) -> Result<(), NoMemory>
    ensures { OnOk result (least.new ≡ noted (found (code_of_sought sought) (faults_beside sought (placed_unit unit.now))) least.old) }
{
    match sought {
        Sought::Kinds => note_defined(alloc, least, unit),
        Sought::Ranks(_) => Ok(note_result(least, unit)),
        Sought::Counts => Ok(()),
    }
}

#[tactic(auto, using(fort_names::proofs::FirstOf::noted_places))]
fn note_rest(
    alloc: Global,
    least: &mut Least,
    sought: Sought,
    sight: &Sight,
    unit: &Unit,
) -> Result<(), NoMemory>
    ensures { OnOk result (least.new ≡ noted (found (code_of_sought sought) (faults_beside sought (placed_unit unit.now) ++ faults_of_body (means sight.now) sought (placed_unit unit.now))) least.old) }
{
    note_beside(alloc, least, sought, unit)?;
    note_body(alloc, least, sought, sight, unit)
}

fn note_behind(
    alloc: Global,
    least: &mut Least,
    sought: Sought,
    sight: &Sight,
    holder: &Holder,
) -> Result<(), NoMemory>
    ensures { OnOk result (least.new ≡ noted (found (code_of_sought sought) (faults_behind (means sight.now) sought (scope_of holder.now))) least.old) }
{
    match holder {
        Holder::Unit(unit) => note_rest(alloc, least, sought, sight, unit),
        Holder::Module(_, _) => Ok(()),
    }
}

/// Notes the faults that are sought in a unit or a module.
///
/// # Errors
/// `NoMemory` only where memory was refused.
#[tactic(auto, using(fort_names::proofs::FirstOf::noted_places))]
pub fn note_in(
    alloc: Global,
    least: &mut Least,
    sought: Sought,
    sight: &Sight,
    holder: &Holder,
) -> Result<(), NoMemory>
    ensures { OnOk result (least.new ≡ noted (found (code_of_sought sought) (faults_in (means sight.now) sought (scope_of holder.now))) least.old) }
{
    note_decls(alloc, least, sought, sight, holder)?;
    note_behind(alloc, least, sought, sight, holder)
}
