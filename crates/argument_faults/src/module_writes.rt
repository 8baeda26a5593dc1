//! Writes of module variables.
ghost use Rattle.std.specs.Prelude.{◌≡◌, None, Option, flat_map, is_some, IfOk, OnOk};
ghost use Rattle.std.specs.Option.{option_copied, option_map, option_to_list};
ghost use Rattle.fort_tree.specs.declared.fault.Code.TheVariants.{E3A};
ghost use Rattle.sound_programs.specs.Faults.{Found, found};
ghost use Rattle.sound_programs.specs.Placing.{placed_expr, placed_unit};
ghost use Rattle.sound_programs.specs.Walks as walks;
ghost use Rattle.fort_names.specs.FoundAt.{found_of};
ghost use Rattle.fort_names.specs.Leasts.{noted};
ghost use Rattle.fort_names.specs.Sights.{means};
ghost use Rattle.unit_steps.specs.Behind.{expr_behind, placed_step, placed_steps};
ghost use Rattle.fort_kinds.specs.Sites.{placed_site, placed_sites};
ghost use Rattle.argument_faults.specs.Actuals.{placed_actual, placed_actuals};
ghost use Rattle.argument_faults.specs.ModuleWrites.{is_of_module as of_module_test, named_among, named_on_left, named_by_actual, named_at, named_in_step, module_writes_in, IsFirstWrite};

use crate::actuals::{Actual, actuals_of, is_written, sites_in};
use fort_kinds::Site;
use fort_names::{At, Least, Sight};
use fort_tree::{Code, Expr, Name, Named, NoMemory, Unit};
use std::alloc::Global;
use unit_steps::{Step, name_in, steps_of};

/// Whether the name is a variable of a module, in the unit of the first name.
fn is_of_module(sight: &Sight<'_>, unit: &Name, name: &Name) -> bool
    ensures { result ≡ of_module_test (means sight.now) unit.now name.now }
{
    sight.module_of(unit, name).is_some()
}

fn note_named(least: &mut Least, sight: &Sight<'_>, unit: &Name, named: Option<Named>)
    ensures { least.new ≡ noted (found E3A (named_among (means sight.now) unit.now (option_to_list named))) least.old }
{
    match named {
        None => {}
        Some(one) => least.note_if(is_of_module(sight, unit, &one.name), Code::E3A, one.at),
    }
}

fn note_left(least: &mut Least, sight: &Sight<'_>, unit: &Name, left: Option<&Expr>)
    ensures { least.new ≡ noted (found E3A (named_on_left (means sight.now) unit.now (option_to_list (option_map expr_behind left.entry)))) least.old }
{
    match left {
        None => {}
        Some(expr) => note_named(least, sight, unit, name_in(expr)),
    }
}

fn note_expr(least: &mut Least, sight: &Sight<'_>, unit: &Name, expr: Option<&Expr>)
    ensures { least.new ≡ noted (found E3A (named_on_left (means sight.now) unit.now (option_to_list (option_map placed_expr (option_copied expr.entry))))) least.old }
{
    match expr {
        None => {}
        Some(one) => note_named(least, sight, unit, name_in(one)),
    }
}

fn note_actual(least: &mut Least, sight: &Sight<'_>, unit: &Name, actual: &Actual<'_>)
    ensures { least.new ≡ noted (found E3A (named_by_actual (means sight.now) unit.now (placed_actual actual.now))) least.old }
{
    if is_written(actual) {
        note_expr(least, sight, unit, actual.expr);
    }
}

fn note_actuals(least: &mut Least, sight: &Sight<'_>, unit: &Name, list: &[Actual<'_>])
    ensures { least.new ≡ noted (found E3A (flat_map (named_by_actual (means sight.now) unit.now) (placed_actuals list.now))) least.old }
{
    for one in list {
        note_actual(least, sight, unit, one);
    }
}

fn note_site(
    alloc: Global,
    least: &mut Least,
    sight: &Sight<'_>,
    unit: &Name,
    site: &Site<'_>,
) -> Result<(), NoMemory>
    ensures { OnOk result (least.new ≡ noted (found E3A (named_at (means sight.now) unit.now (placed_site site.now))) least.old) }
{
    let list = actuals_of(alloc, sight.callee(site.name), site.args)?;
    note_actuals(least, sight, unit, list.as_slice());
    Ok(())
}

fn note_sites(
    alloc: Global,
    least: &mut Least,
    sight: &Sight<'_>,
    unit: &Name,
    list: &[Site<'_>],
) -> Result<(), NoMemory>
    ensures { OnOk result (least.new ≡ noted (found E3A (flat_map (named_at (means sight.now) unit.now) (placed_sites list.now))) least.old) }
{
    for site in list {
        note_site(alloc, least, sight, unit, site)?;
    }
    Ok(())
}

/// Notes where the step writes a module variable.
#[tactic(auto, using(fort_names::proofs::FirstOf::noted_places))]
fn note_step(
    alloc: Global,
    least: &mut Least,
    sight: &Sight<'_>,
    unit: &Name,
    step: Step<'_>,
) -> Result<(), NoMemory>
    ensures { OnOk result (least.new ≡ noted (found E3A (named_in_step (means sight.now) unit.now (placed_step step.entry))) least.old) }
{
    note_left(least, sight, unit, step.left());
    let list = sites_in(alloc, sight, step)?;
    note_sites(alloc, least, sight, unit, list.as_slice())?;
    Ok(())
}

fn note_steps(
    alloc: Global,
    least: &mut Least,
    sight: &Sight<'_>,
    unit: &Name,
    steps: &[Step<'_>],
) -> Result<(), NoMemory>
    ensures { OnOk result (least.new ≡ noted (found E3A (flat_map (named_in_step (means sight.now) unit.now) (placed_steps steps.now))) least.old) }
{
    for step in steps {
        note_step(alloc, least, sight, unit, *step)?;
    }
    Ok(())
}

fn note_module_writes(
    alloc: Global,
    least: &mut Least,
    sight: &Sight<'_>,
    unit: &Unit,
) -> Result<(), NoMemory>
    ensures { OnOk result (least.new ≡ noted (found E3A (module_writes_in (means sight.now) (placed_unit unit.now))) least.old) }
{
    let steps = steps_of(alloc, unit)?;
    note_steps(alloc, least, sight, &unit.name, steps.as_slice())?;
    Ok(())
}

/// The first place where the unit writes a module variable, as a fault.
///
/// # Errors
/// `NoMemory` only where memory was refused.
pub fn first_module_write(
    alloc: Global,
    sight: &Sight<'_>,
    unit: &Unit,
) -> Result<Option<At>, NoMemory>
    ensures { IfOk result (λ first. IsFirstWrite (module_writes_in (means sight.now) (placed_unit unit.now)) first) }
{
    let mut least = Least::new();
    note_module_writes(alloc, &mut least, sight, unit)?;
    Ok(least.first())
}
