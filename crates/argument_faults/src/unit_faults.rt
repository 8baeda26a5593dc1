//! The faults of one unit, where what units reach is known.
ghost use Rattle.std.specs.Prelude.{◌≡◌, flat_map, OnOk};
ghost use Rattle.fort_tree.specs.declared.fault.Code.TheVariants.{E38};
ghost use Rattle.sound_programs.specs.Faults.{found};
ghost use Rattle.sound_programs.specs.Placing.{placed, placed_unit};
ghost use Rattle.sound_programs.specs.Scopes.{unit_of};
ghost use Rattle.fort_names.specs.Leasts.{noted};
ghost use Rattle.fort_names.specs.Sights.{means, file_of};
ghost use Rattle.unit_steps.specs.Behind.{placed_step, placed_steps};
ghost use Rattle.fort_kinds.specs.Sites.{placed_site, placed_sites};
ghost use Rattle.argument_faults.specs.Actuals.{placed_actuals};
ghost use Rattle.argument_faults.specs.InUnits.{alias_in, alias_in_step, alias_in_unit, behind_in};
ghost use Rattle.argument_faults.specs.Reaching.{IsReached};

use crate::actuals::{Actual, actuals_of, sites_in};
use crate::behind::note_behind;
use crate::reached::Reached;
use crate::shared::note_shared_actuals;
use fort_kinds::Site;
use fort_names::{Least, Meaning, Sight};
use fort_tree::{Name, NoMemory, Unit};
use std::alloc::Global;
use unit_steps::{Step, steps_of};

fn note_behind_callee(
    least: &mut Least,
    sight: &Sight<'_>,
    unit: &Name,
    reached: &Reached,
    callee: &Name,
    list: &[Actual<'_>],
)
    requires { IsReached (file_of sight.now) reached.now }
    ensures { least.new ≡ noted (found E38 (behind_in (placed (file_of sight.now)) (means sight.now) unit.now (placed_actuals list.now) (unit_of (means sight.now callee.now)))) least.old }
{
    match sight.meaning(callee) {
        Meaning::Nothing => {}
        Meaning::Variable(_, _) => {}
        Meaning::Constant(_) => {}
        Meaning::Unit(number, _) => {
            note_behind(least, sight, unit, reached, number, list);
        }
    }
}

fn note_site(
    alloc: Global,
    least: &mut Least,
    sight: &Sight<'_>,
    unit: &Name,
    reached: &Reached,
    site: &Site<'_>,
) -> Result<(), NoMemory>
    requires { IsReached (file_of sight.now) reached.now }
    ensures { OnOk result (least.new ≡ noted (found E38 (alias_in (placed (file_of sight.now)) (means sight.now) unit.now (placed_site site.now))) least.old) }
{
    let list = actuals_of(alloc, sight.callee(site.name), site.args)?;
    let actuals = list.as_slice();
    note_shared_actuals(alloc, least, sight, actuals)?;
    note_behind_callee(least, sight, unit, reached, site.name, actuals);
    Ok(())
}

fn note_sites(
    alloc: Global,
    least: &mut Least,
    sight: &Sight<'_>,
    unit: &Name,
    reached: &Reached,
    list: &[Site<'_>],
) -> Result<(), NoMemory>
    requires { IsReached (file_of sight.now) reached.now }
    ensures { OnOk result (least.new ≡ noted (found E38 (flat_map (alias_in (placed (file_of sight.now)) (means sight.now) unit.now) (placed_sites list.now))) least.old) }
{
    for site in list {
        note_site(alloc, least, sight, unit, reached, site)?;
    }
    Ok(())
}

fn note_step(
    alloc: Global,
    least: &mut Least,
    sight: &Sight<'_>,
    unit: &Name,
    reached: &Reached,
    step: Step<'_>,
) -> Result<(), NoMemory>
    requires { IsReached (file_of sight.now) reached.now }
    ensures { OnOk result (least.new ≡ noted (found E38 (alias_in_step (placed (file_of sight.now)) (means sight.now) unit.now (placed_step step.entry))) least.old) }
{
    let list = sites_in(alloc, sight, step)?;
    note_sites(alloc, least, sight, unit, reached, list.as_slice())?;
    Ok(())
}

fn note_steps(
    alloc: Global,
    least: &mut Least,
    sight: &Sight<'_>,
    unit: &Name,
    reached: &Reached,
    steps: &[Step<'_>],
) -> Result<(), NoMemory>
    requires { IsReached (file_of sight.now) reached.now }
    ensures { OnOk result (least.new ≡ noted (found E38 (flat_map (alias_in_step (placed (file_of sight.now)) (means sight.now) unit.now) (placed_steps steps.now))) least.old) }
{
    for step in steps {
        note_step(alloc, least, sight, unit, reached, *step)?;
    }
    Ok(())
}

/// Notes the actual arguments of the unit by which a call would reach a variable in two ways.
///
/// # Errors
/// `NoMemory` only where memory was refused.
pub fn note_unit_aliases(
    alloc: Global,
    least: &mut Least,
    sight: &Sight<'_>,
    unit: &Unit,
    reached: &Reached,
) -> Result<(), NoMemory>
    requires { IsReached (file_of sight.now) reached.now }
    ensures { OnOk result (least.new ≡ noted (found E38 (alias_in_unit (placed (file_of sight.now)) (means sight.now) (placed_unit unit.now))) least.old) }
{
    let steps = steps_of(alloc, unit)?;
    note_steps(alloc, least, sight, &unit.name, reached, steps.as_slice())?;
    Ok(())
}
