//! Faults of the number of arguments.
ghost use Rattle.std.specs.Prelude.{◌≡◌, ◌∷◌, [], Some, flat_map, OnOk};
ghost use Rattle.std.specs.Option.{option_copied, option_map};
ghost use Rattle.fort_tree.specs.declared.fault.Code.TheVariants.{E37};
ghost use Rattle.claw_meaning.specs.Plain.{plain_unit};
ghost use Rattle.sound_programs.specs.ArgumentFaults.{takes as takes_test, unit_takes as unit_test, intrinsic_takes as intrinsic_test, counts_differ};
ghost use Rattle.sound_programs.specs.Faults.{found};
ghost use Rattle.sound_programs.specs.Placed.{Reference};
ghost use Rattle.sound_programs.specs.Placing.{placed_expr, placed_subs};
ghost use Rattle.sound_programs.specs.Walks.{left_of, reference};
ghost use Rattle.unit_steps.specs.Behind.{exprs, placed_step};
ghost use Rattle.fort_names.specs.Leasts.{noted};
ghost use Rattle.kind_faults.specs.Counts.{unit_count, intrinsic_count};
ghost use Rattle.fort_names.specs.Sights.{means};
ghost use Rattle.fort_kinds.specs.Sites.{placed_site, placed_sites};

use crate::rank_parts::count_of;
use fort_kinds::{Site, sites_of};
use fort_names::{Least, Sight};
use fort_tree::{ByName, Code, Expr, Intrinsic, Name, NoMemory, Place, Sub, Unit};
use std::alloc::Global;
use unit_steps::{Step, parts_read};

fn takes(which: Intrinsic, count: usize) -> bool
    ensures { result ≡ takes_test which count }
{
    match which {
        Intrinsic::Abs => count == 1,
        Intrinsic::Sum => count == 1,
        Intrinsic::Int => count == 1 || count == 2,
        Intrinsic::Size => count == 1 || count == 2,
        Intrinsic::Max => 2 <= count,
        Intrinsic::Min => 2 <= count,
        Intrinsic::Mod => count == 2,
        Intrinsic::Modulo => count == 2,
        Intrinsic::Sign => count == 2,
    }
}

fn intrinsic_takes(which: Option<Intrinsic>, count: usize) -> bool
    ensures { result ≡ intrinsic_test which count }
{
    match which {
        None => true,
        Some(which) => takes(which, count),
    }
}

#[tactic(auto, using(fort_names::proofs::Places::length_map))]
fn has_dummies(unit: &Unit, count: usize) -> bool
    ensures { result ≡ unit_test (Some (plain_unit unit.now)) count }
{
    count == unit.dummies.len()
}

fn unit_takes(unit: Option<&Unit>, count: usize) -> bool
    ensures { result ≡ unit_test (option_map plain_unit (option_copied unit.entry)) count }
{
    match unit {
        None => true,
        Some(unit) => has_dummies(unit, count),
    }
}

fn note_unit_count(least: &mut Least, sight: &Sight, site: &Site)
    ensures { least.new ≡ noted (found E37 (unit_count (means sight.now) (placed_site site.now))) least.old }
{
    let takes = unit_takes(sight.unit(site.name), count_of(site.args));
    least.note_if(!takes, Code::E37, site.at);
}

fn note_unit_counts(least: &mut Least, sight: &Sight, sites: &[Site])
    ensures { least.new ≡ noted (found E37 (flat_map (unit_count (means sight.now)) (placed_sites sites.now))) least.old }
{
    for site in sites {
        note_unit_count(least, sight, site);
    }
}

#[tactic(auto, using(fort_names::proofs::FirstOf::noted_places))]
fn note_count_at(least: &mut Least, name: &Name, args: &[Sub], at: Place)
    ensures { least.new ≡ noted (found E37 (flat_map intrinsic_count (reference (Reference name.now (placed_subs args.now) at)))) least.old }
{
    let takes = intrinsic_takes(Intrinsic::named(name), count_of(args));
    least.note_if(!takes, Code::E37, at);
}

fn note_intrinsic_count(least: &mut Least, part: &Expr)
    ensures { least.new ≡ noted (found E37 (flat_map intrinsic_count (reference (placed_expr part.now)))) least.old }
{
    match part {
        Expr::Ref(name, Some(args), at) => note_count_at(least, name, args.items(), *at),
        Expr::Ref(_, None, _)
        | Expr::Number(..)
        | Expr::Truth(..)
        | Expr::One(..)
        | Expr::Two(..)
        | Expr::Paren(..) => {}
    }
}

#[tactic(auto, using(crate::proofs::Places::noted_flat))]
fn note_count_alone(least: &mut Least, part: &Expr)
    ensures { least.new ≡ noted (found E37 (flat_map intrinsic_count (flat_map reference (placed_expr part.now ∷ [])))) least.old }
{
    note_intrinsic_count(least, part);
}

fn note_left(least: &mut Least, step: Step)
    ensures { least.new ≡ noted (found E37 (flat_map intrinsic_count (flat_map reference (left_of (placed_step step.entry))))) least.old }
{
    match step {
        Step::Assigns(left, _) => note_count_alone(least, left),
        Step::Calls(..) | Step::Tests(..) | Step::Chooses(..) | Step::Repeats(..) => {}
    }
}

fn note_intrinsic_counts(least: &mut Least, parts: &[&Expr])
    ensures { least.new ≡ noted (found E37 (flat_map intrinsic_count (flat_map reference (exprs parts.now)))) least.old }
{
    for part in parts {
        note_intrinsic_count(least, part);
    }
}

/// Notes the references in a step with another number of arguments than is taken.
///
/// # Errors
/// `NoMemory` only where memory was refused.
#[tactic(auto, using(fort_names::proofs::FirstOf::noted_places, crate::proofs::Places::noted_inside))]
pub fn note_counts_of_step(
    alloc: Global,
    least: &mut Least,
    sight: &Sight,
    step: Step,
) -> Result<(), NoMemory>
    ensures { OnOk result (least.new ≡ noted (found E37 (counts_differ (means sight.now) (placed_step step.entry))) least.old) }
{
    let parts = parts_read(alloc, step)?;
    let sites = sites_of(alloc, sight, step, parts.as_slice())?;
    note_unit_counts(least, sight, sites.as_slice());
    note_left(least, step);
    note_intrinsic_counts(least, parts.as_slice());
    Ok(())
}
