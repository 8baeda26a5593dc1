//! Faults of ranks in steps.
ghost use Rattle.std.specs.Prelude.{◌≡◌, ◌∷◌, ◌++◌, [], flat_map, OnOk};
ghost use Rattle.fort_tree.specs.declared.fault.Code.TheVariants.{E33};
ghost use Rattle.sound_programs.specs.Faults.{found};
ghost use Rattle.sound_programs.specs.Places.{option_places};
ghost use Rattle.sound_programs.specs.Placing.{placed_expr, placed_head, placed_subs};
ghost use Rattle.sound_programs.specs.RankFaults.{needs_scalar, differing_in_each, needs_of_left, ranks_of_step, rank_faults_of_part, rank_faults_in_step};
ghost use Rattle.sound_programs.specs.Ranking.{differing, operands};
ghost use Rattle.sound_programs.specs.Walks.{in_head, left_of, single_subscripts, section_bounds, section_places};
ghost use Rattle.unit_steps.specs.Behind.{exprs, placed_step};
ghost use Rattle.fort_names.specs.Leasts.{noted};
ghost use Rattle.fort_names.specs.Sights.{means};

use crate::actuals::note_ranks_of_actuals;
use crate::kind_steps::note_head;
use crate::needs::{Need, note_at, note_need, note_section_bounds, note_singles};
use crate::rank_parts::{note_ranks_of_part, note_sections};
use fort_kinds::{Ranks, rank_of, sites_of};
use fort_names::{Least, Sight};
use fort_tree::{Code, Expr, Head, NoMemory, Place, Sub};
use std::alloc::Global;
use unit_steps::{Step, parts_read};

/// The first array operand of an assignment whose rank isn't that of an earlier one.
fn first_apart(sight: &Sight, left: &Expr, right: &Expr) -> Option<Place>
    ensures { option_places result ≡ differing (operands (means sight.now) (placed_expr left.now) ++ operands (means sight.now) (placed_expr right.now)) }
{
    let mut ranks = Ranks::new();
    ranks.gather(sight, left);
    ranks.gather(sight, right);
    ranks.other
}

fn note_scalar_value(least: &mut Least, sight: &Sight, left: &Expr, right: &Expr)
    ensures { least.new ≡ noted (found E33 (needs_of_left (means sight.now) (placed_expr left.now) (placed_expr right.now))) least.old }
{
    if rank_of(sight, left) == 0 {
        note_need(least, sight, Need::Scalar, right);
    }
}

#[tactic(auto, using(fort_names::proofs::FirstOf::noted_places))]
fn note_assigned(least: &mut Least, sight: &Sight, left: &Expr, right: &Expr)
    ensures { least.new ≡ noted (found E33 (differing (operands (means sight.now) (placed_expr left.now) ++ operands (means sight.now) (placed_expr right.now)) ++ needs_of_left (means sight.now) (placed_expr left.now) (placed_expr right.now))) least.old }
{
    note_at(least, Code::E33, first_apart(sight, left, right));
    note_scalar_value(least, sight, left, right);
}

#[tactic(auto, using(fort_names::proofs::FirstOf::noted_places, crate::proofs::Places::noted_flat))]
fn note_called(least: &mut Least, sight: &Sight, args: &[Sub])
    ensures { least.new ≡ noted (found E33 (differing_in_each (means sight.now) (single_subscripts (placed_subs args.now) ++ section_bounds (placed_subs args.now)) ++ (section_places (placed_subs args.now) ++ flat_map (needs_scalar (means sight.now)) (section_bounds (placed_subs args.now))))) least.old }
{
    note_singles(least, sight, Need::OneRank, args);
    note_section_bounds(least, sight, Need::OneRank, args);
    note_sections(least, args);
    note_section_bounds(least, sight, Need::Scalar, args);
}

#[tactic(auto, using(fort_names::proofs::FirstOf::noted_places))]
fn note_tested(least: &mut Least, sight: &Sight, test: &Expr)
    ensures { least.new ≡ noted (found E33 (differing_in_each (means sight.now) (placed_expr test.now ∷ []) ++ needs_scalar (means sight.now) (placed_expr test.now))) least.old }
{
    note_need(least, sight, Need::OneRank, test);
    note_need(least, sight, Need::Scalar, test);
}

#[tactic(auto, using(fort_names::proofs::FirstOf::noted_places))]
fn note_repeated(least: &mut Least, sight: &Sight, head: &Head)
    ensures { least.new ≡ noted (found E33 (differing_in_each (means sight.now) (in_head (placed_head head.now)) ++ flat_map (needs_scalar (means sight.now)) (in_head (placed_head head.now)))) least.old }
{
    note_head(least, sight, Need::OneRank, head);
    note_head(least, sight, Need::Scalar, head);
}

fn note_ranks(least: &mut Least, sight: &Sight, step: Step)
    ensures { least.new ≡ noted (found E33 (ranks_of_step (means sight.now) (placed_step step.entry))) least.old }
{
    match step {
        Step::Assigns(left, right) => note_assigned(least, sight, left, right),
        Step::Calls(_, args) => note_called(least, sight, args),
        Step::Tests(test) => note_tested(least, sight, test),
        Step::Chooses(on, _) => note_tested(least, sight, on),
        Step::Repeats(head, _) => note_repeated(least, sight, head),
    }
}

#[tactic(auto, using(fort_names::proofs::FirstOf::noted_places))]
fn note_part(least: &mut Least, sight: &Sight, part: &Expr)
    ensures { least.new ≡ noted (found E33 (flat_map (rank_faults_of_part (means sight.now)) (placed_expr part.now ∷ []))) least.old }
{
    note_ranks_of_part(least, sight, part);
}

fn note_left(least: &mut Least, sight: &Sight, step: Step)
    ensures { least.new ≡ noted (found E33 (flat_map (rank_faults_of_part (means sight.now)) (left_of (placed_step step.entry)))) least.old }
{
    match step {
        Step::Assigns(left, _) => note_part(least, sight, left),
        Step::Calls(..) | Step::Tests(..) | Step::Chooses(..) | Step::Repeats(..) => {}
    }
}

fn note_parts(least: &mut Least, sight: &Sight, parts: &[&Expr])
    ensures { least.new ≡ noted (found E33 (flat_map (rank_faults_of_part (means sight.now)) (exprs parts.now))) least.old }
{
    for part in parts {
        note_ranks_of_part(least, sight, part);
    }
}

/// Notes the faults of ranks in a step.
///
/// # Errors
/// `NoMemory` only where memory was refused.
#[tactic(auto, using(fort_names::proofs::FirstOf::noted_places, crate::proofs::Places::noted_flat))]
pub fn note_ranks_of_step(
    alloc: Global,
    least: &mut Least,
    sight: &Sight,
    step: Step,
) -> Result<(), NoMemory>
    ensures { OnOk result (least.new ≡ noted (found E33 (rank_faults_in_step (means sight.now) (placed_step step.entry))) least.old) }
{
    let parts = parts_read(alloc, step)?;
    let sites = sites_of(alloc, sight, step, parts.as_slice())?;
    note_ranks(least, sight, step);
    note_left(least, sight, step);
    note_parts(least, sight, parts.as_slice());
    note_ranks_of_actuals(least, sight, sites.as_slice());
    Ok(())
}
