//! Writes to what may not be written, in a unit itself.
ghost use Rattle.std.specs.Prelude.{◌≡◌, ◌&&◌, not, flat_map, OnOk};
ghost use Rattle.std.specs.Option.{option_copied, option_map, option_to_list};
ghost use Rattle.fort_tree.specs.declared.fault.Code.TheVariants.{E3A};
ghost use Rattle.sound_programs.specs.ArgumentFaults as faults;
ghost use Rattle.sound_programs.specs.Faults.{found};
ghost use Rattle.sound_programs.specs.Placing.{placed_expr, placed_unit};
ghost use Rattle.sound_programs.specs.Walks as walks;
ghost use Rattle.claw_meaning.specs.Units.{is_intent_in};
ghost use Rattle.fort_names.specs.Leasts.{noted, places_at};
ghost use Rattle.fort_names.specs.Meanings.{meaning_of};
ghost use Rattle.fort_names.specs.Sights.{means};
ghost use Rattle.unit_steps.specs.Behind.{expr_behind, placed_step, placed_steps};
ghost use Rattle.fort_kinds.specs.Sites.{placed_site, placed_sites};
ghost use Rattle.argument_faults.specs.Actuals.{placed_actual, placed_actuals};
ghost use Rattle.argument_faults.specs.Written.{fixed_among, fixed_on_left, unwritable_place, passed_place, passed_at, is_written_dummy as written_dummy_test};

use crate::actuals::{Actual, actuals_of, is_written, is_written_as, sites_in};
use fort_kinds::{Site, first};
use fort_names::{Least, Meaning, Sight, is_named};
use fort_tree::{ByName, Code, Decl, Expr, Intent, Intrinsic, Name, Named, NoMemory, Unit};
use std::alloc::Global;
use unit_steps::{Step, name_in, steps_of};

fn is_in(intent: Option<Intent>) -> bool
    ensures { result ≡ is_intent_in intent }
{
    match intent {
        None => false,
        Some(Intent::In) => true,
        Some(Intent::Out) => false,
        Some(Intent::InOut) => false,
    }
}

/// Whether the name is an INTENT(IN) dummy or a PARAMETER.
fn is_fixed(sight: &Sight<'_>, name: &Name) -> bool
    ensures { result ≡ faults.is_fixed (means sight.now name.now) }
{
    match sight.meaning(name) {
        Meaning::Nothing => false,
        Meaning::Variable(_, decl) => is_in(decl.intent),
        Meaning::Constant(_) => true,
        Meaning::Unit(_, _) => false,
    }
}

fn note_fixed(least: &mut Least, sight: &Sight<'_>, named: Option<Named>)
    ensures { least.new ≡ noted (found E3A (fixed_among (means sight.now) (option_to_list named))) least.old }
{
    match named {
        None => {}
        Some(one) => least.note_if(is_fixed(sight, &one.name), Code::E3A, one.at),
    }
}

fn note_left(least: &mut Least, sight: &Sight<'_>, left: Option<&Expr>)
    ensures { least.new ≡ noted (found E3A (fixed_on_left (means sight.now) (option_to_list (option_map expr_behind left.entry)))) least.old }
{
    match left {
        None => {}
        Some(expr) => note_fixed(least, sight, name_in(expr)),
    }
}

/// Notes an INTENT(IN) dummy or a PARAMETER that the step assigns.
fn note_assigned(least: &mut Least, sight: &Sight<'_>, step: Step<'_>)
    ensures { least.new ≡ noted (found E3A (faults.assigns_fixed (means sight.now) (placed_step step.entry))) least.old }
{
    note_left(least, sight, step.left());
}

fn may_be_written(sight: &Sight<'_>, name: &Name) -> bool
    ensures { result ≡ faults.may_be_written (means sight.now name.now) }
{
    match sight.meaning(name) {
        Meaning::Nothing => false,
        Meaning::Variable(_, decl) => !is_in(decl.intent),
        Meaning::Constant(_) => false,
        Meaning::Unit(_, _) => false,
    }
}

fn is_writable(sight: &Sight<'_>, expr: &Expr) -> bool
    ensures { result ≡ faults.is_writable (means sight.now) (placed_expr expr.now) }
{
    match expr {
        Expr::Ref(name, None, _) => may_be_written(sight, name),
        Expr::Ref(name, Some(_), _) => {
            Intrinsic::named(name).is_none() && may_be_written(sight, name)
        }
        Expr::Number(..) | Expr::Truth(..) | Expr::One(..) | Expr::Two(..) | Expr::Paren(..) => {
            false
        }
    }
}

fn note_unwritable(least: &mut Least, sight: &Sight<'_>, expr: Option<&Expr>)
    ensures { least.new ≡ noted (found E3A (unwritable_place (means sight.now) (option_map placed_expr (option_copied expr.entry)))) least.old }
{
    match expr {
        None => {}
        Some(one) => least.note_if(!is_writable(sight, one), Code::E3A, first(one)),
    }
}

fn note_passed(least: &mut Least, sight: &Sight<'_>, actual: &Actual<'_>)
    ensures { least.new ≡ noted (found E3A (passed_place (means sight.now) (placed_actual actual.now))) least.old }
{
    if is_written(actual) {
        note_unwritable(least, sight, actual.expr);
    }
}

fn note_all_passed(least: &mut Least, sight: &Sight<'_>, list: &[Actual<'_>])
    ensures { least.new ≡ noted (found E3A (flat_map (passed_place (means sight.now)) (placed_actuals list.now))) least.old }
{
    for one in list {
        note_passed(least, sight, one);
    }
}

fn note_passed_at(
    alloc: Global,
    least: &mut Least,
    sight: &Sight<'_>,
    site: &Site<'_>,
) -> Result<(), NoMemory>
    ensures { OnOk result (least.new ≡ noted (found E3A (passed_at (means sight.now) (placed_site site.now))) least.old) }
{
    let list = actuals_of(alloc, sight.callee(site.name), site.args)?;
    note_all_passed(least, sight, list.as_slice());
    Ok(())
}

fn note_sites(
    alloc: Global,
    least: &mut Least,
    sight: &Sight<'_>,
    list: &[Site<'_>],
) -> Result<(), NoMemory>
    ensures { OnOk result (least.new ≡ noted (found E3A (flat_map (passed_at (means sight.now)) (placed_sites list.now))) least.old) }
{
    for site in list {
        note_passed_at(alloc, least, sight, site)?;
    }
    Ok(())
}

/// Notes what the step passes to an OUT or INOUT dummy that isn't a variable, or is an INTENT(IN) dummy.
fn note_passes(
    alloc: Global,
    least: &mut Least,
    sight: &Sight<'_>,
    step: Step<'_>,
) -> Result<(), NoMemory>
    ensures { OnOk result (least.new ≡ noted (found E3A (faults.passes_fixed (means sight.now) (placed_step step.entry))) least.old) }
{
    let list = sites_in(alloc, sight, step)?;
    note_sites(alloc, least, sight, list.as_slice())?;
    Ok(())
}

/// Notes the writes of a step to what may not be written.
#[tactic(auto, using(fort_names::proofs::FirstOf::noted_places))]
fn note_step_writes(
    alloc: Global,
    least: &mut Least,
    sight: &Sight<'_>,
    step: Step<'_>,
) -> Result<(), NoMemory>
    ensures { OnOk result (least.new ≡ noted (found E3A (faults.writes_fixed (means sight.now) (placed_step step.entry))) least.old) }
{
    note_assigned(least, sight, step);
    note_passes(alloc, least, sight, step)?;
    Ok(())
}

fn note_steps(
    alloc: Global,
    least: &mut Least,
    sight: &Sight<'_>,
    steps: &[Step<'_>],
) -> Result<(), NoMemory>
    ensures { OnOk result (least.new ≡ noted (found E3A (flat_map (faults.writes_fixed (means sight.now)) (placed_steps steps.now))) least.old) }
{
    for step in steps {
        note_step_writes(alloc, least, sight, *step)?;
    }
    Ok(())
}

/// Notes where the unit assigns an INTENT(IN) dummy or a PARAMETER, and what it passes to an OUT or INOUT dummy that can't be
/// written.
///
/// # Errors
/// `NoMemory` only where memory was refused.
pub fn note_unit_writes(
    alloc: Global,
    least: &mut Least,
    sight: &Sight<'_>,
    unit: &Unit,
) -> Result<(), NoMemory>
    ensures { OnOk result (least.new ≡ noted (found E3A (flat_map (λ s. faults.writes_fixed (means sight.now) s.step) (walks.steps_of (placed_unit unit.now)))) least.old) }
{
    let steps = steps_of(alloc, unit)?;
    note_steps(alloc, least, sight, steps.as_slice())?;
    Ok(())
}

fn is_written_dummy(dummies: &[Named], decl: &Decl) -> bool
    ensures { result ≡ written_dummy_test dummies.now decl.now }
{
    is_named(dummies, &decl.name) && is_written_as(decl.intent)
}

fn note_written_dummies(least: &mut Least, dummies: &[Named], decls: &[Decl])
    ensures { least.new ≡ noted (found E3A (places_at (written_dummy_test dummies.now) (λ d. d.at) decls.now)) least.old }
{
    for decl in decls {
        least.note_if(is_written_dummy(dummies, decl), Code::E3A, decl.at);
    }
}

/// Notes the dummies of a function that aren't INTENT(IN).
pub fn note_function_dummies(least: &mut Least, unit: &Unit)
    ensures { least.new ≡ noted (found E3A (faults.function_dummies (placed_unit unit.now))) least.old }
{
    match unit.result {
        None => {}
        Some(_) => note_written_dummies(least, unit.dummies.items(), unit.decls.items()),
    }
}
