//! Faults of kinds in steps.
ghost use Rattle.std.specs.Prelude.{◌≡◌, ◌∷◌, [], flat_map, OnOk, if◌then◌else◌};
ghost use Rattle.fort_tree.specs.declared.fault.Code.TheVariants.{E32};
ghost use Rattle.sound_programs.specs.Faults.{found};
ghost use Rattle.sound_programs.specs.KindFaults.{needs_integer, needs_logical, needs_of_left, needs_of_step, kind_faults_of_part, kind_faults_in_step};
ghost use Rattle.sound_programs.specs.Kinding.{kind, is_integer as integer_test, is_logical as logical_test};
ghost use Rattle.sound_programs.specs.Placing.{placed_expr, placed_head};
ghost use Rattle.sound_programs.specs.Walks.{in_head, left_of};
ghost use Rattle.unit_steps.specs.Behind.{exprs, placed_step};
ghost use Rattle.fort_names.specs.Leasts.{noted};
ghost use Rattle.kind_faults.specs.Needs.{code_of, unmet};
ghost use Rattle.fort_names.specs.Sights.{means};

use crate::actuals::note_kinds_of_actuals;
use crate::cases::note_select;
use crate::kind_parts::note_kinds_of_part;
use crate::needs::{Need, note_need, note_need_if_any, note_section_bounds};
use fort_kinds::{is_integer, is_logical, kind_of, sites_of};
use fort_names::{Least, Sight};
use fort_tree::{Expr, Head, NoMemory};
use std::alloc::Global;
use unit_steps::{Step, parts_read};

/// Notes where a bound of a DO isn't what is asked.
#[tactic(auto, using(fort_names::proofs::FirstOf::noted_places))]
pub fn note_head(least: &mut Least, sight: &Sight, need: Need, head: &Head)
    ensures { least.new ≡ noted (found (code_of need) (flat_map (unmet (means sight.now) need) (in_head (placed_head head.now)))) least.old }
{
    note_need(least, sight, need, &head.from);
    note_need(least, sight, need, &head.to);
    note_need_if_any(least, sight, need, &head.step);
}

fn note_integer_value(least: &mut Least, sight: &Sight, left: &Expr, right: &Expr)
    ensures { least.new ≡ noted (found E32 (if integer_test (kind (means sight.now) (placed_expr left.now)) then needs_integer (means sight.now) (placed_expr right.now) else [])) least.old }
{
    if is_integer(kind_of(sight, left)) {
        note_need(least, sight, Need::Integer, right);
    }
}

fn note_logical_value(least: &mut Least, sight: &Sight, left: &Expr, right: &Expr)
    ensures { least.new ≡ noted (found E32 (if logical_test (kind (means sight.now) (placed_expr left.now)) then needs_logical (means sight.now) (placed_expr right.now) else [])) least.old }
{
    if is_logical(kind_of(sight, left)) {
        note_need(least, sight, Need::Logical, right);
    }
}

#[tactic(auto, using(fort_names::proofs::FirstOf::noted_places))]
fn note_value(least: &mut Least, sight: &Sight, left: &Expr, right: &Expr)
    ensures { least.new ≡ noted (found E32 (needs_of_left (means sight.now) (kind (means sight.now) (placed_expr left.now)) (placed_expr right.now))) least.old }
{
    note_integer_value(least, sight, left, right);
    note_logical_value(least, sight, left, right);
}

fn note_needs(alloc: Global, least: &mut Least, sight: &Sight, step: Step) -> Result<(), NoMemory>
    ensures { OnOk result (least.new ≡ noted (found E32 (needs_of_step (means sight.now) (placed_step step.entry))) least.old) }
{
    match step {
        Step::Assigns(left, right) => Ok(note_value(least, sight, left, right)),
        Step::Calls(_, args) => Ok(note_section_bounds(least, sight, Need::Integer, args)),
        Step::Tests(test) => Ok(note_need(least, sight, Need::Logical, test)),
        Step::Chooses(on, cases) => note_select(alloc, least, sight, on, cases),
        Step::Repeats(head, _) => Ok(note_head(least, sight, Need::Integer, head)),
    }
}

#[tactic(auto, using(fort_names::proofs::FirstOf::noted_places))]
fn note_part(least: &mut Least, sight: &Sight, part: &Expr)
    ensures { least.new ≡ noted (found E32 (flat_map (kind_faults_of_part (means sight.now)) (placed_expr part.now ∷ []))) least.old }
{
    note_kinds_of_part(least, sight, part);
}

fn note_left(least: &mut Least, sight: &Sight, step: Step)
    ensures { least.new ≡ noted (found E32 (flat_map (kind_faults_of_part (means sight.now)) (left_of (placed_step step.entry)))) least.old }
{
    match step {
        Step::Assigns(left, _) => note_part(least, sight, left),
        Step::Calls(..) | Step::Tests(..) | Step::Chooses(..) | Step::Repeats(..) => {}
    }
}

fn note_parts(least: &mut Least, sight: &Sight, parts: &[&Expr])
    ensures { least.new ≡ noted (found E32 (flat_map (kind_faults_of_part (means sight.now)) (exprs parts.now))) least.old }
{
    for part in parts {
        note_kinds_of_part(least, sight, part);
    }
}

/// Notes the faults of kinds in a step.
///
/// # Errors
/// `NoMemory` only where memory was refused.
#[tactic(auto, using(fort_names::proofs::FirstOf::noted_places, crate::proofs::Places::noted_flat))]
pub fn note_kinds_of_step(
    alloc: Global,
    least: &mut Least,
    sight: &Sight,
    step: Step,
) -> Result<(), NoMemory>
    ensures { OnOk result (least.new ≡ noted (found E32 (kind_faults_in_step (means sight.now) (placed_step step.entry))) least.old) }
{
    let parts = parts_read(alloc, step)?;
    let sites = sites_of(alloc, sight, step, parts.as_slice())?;
    note_needs(alloc, least, sight, step)?;
    note_left(least, sight, step);
    note_parts(least, sight, parts.as_slice());
    note_kinds_of_actuals(least, sight, sites.as_slice());
    Ok(())
}
