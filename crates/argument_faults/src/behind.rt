//! Module variables that a call reaches by an actual argument and by their names.
ghost use Rattle.std.specs.Prelude.{◌≡◌, ◌&&◌};
ghost use Rattle.std.specs.Option.{option_copied, option_map, option_to_list};
ghost use Rattle.fort_tree.specs.declared.fault.Code.TheVariants.{E38};
ghost use Rattle.sound_programs.specs.Faults.{found};
ghost use Rattle.sound_programs.specs.Placing.{placed_expr};
ghost use Rattle.fort_names.specs.Leasts.{noted};
ghost use Rattle.fort_names.specs.Sights.{means};
ghost use Rattle.argument_faults.specs.Actuals.{placed_actual, placed_actuals};
ghost use Rattle.argument_faults.specs.Behind.{named_variable, named_expr, is_behind as behind_test, behind_actuals};
ghost use Rattle.argument_faults.specs.Reaching.{HasUnit, is_marked_for};

use crate::actuals::{Actual, is_written};
use crate::module_names::ModuleVariable;
use crate::reached::Reached;
use fort_names::{Least, Sight};
use fort_tree::{Code, Expr, Name, Named};
use unit_steps::name_in;

fn names_variable(
    sight: &Sight<'_>,
    unit: &Name,
    reached: &Reached,
    callee: usize,
    named: Option<Named>,
) -> bool
    requires { HasUnit reached.now callee }
    ensures { result ≡ named_variable (is_marked_for reached.now callee) (means sight.now) unit.now (option_to_list named) }
{
    match named {
        None => false,
        Some(one) => match sight.module_of(unit, &one.name) {
            None => false,
            Some(home) => {
                let variable = ModuleVariable {
                    home,
                    name: one.name,
                };
                reached.is_marked(callee, &variable)
            }
        },
    }
}

fn names_expr(
    sight: &Sight<'_>,
    unit: &Name,
    reached: &Reached,
    callee: usize,
    expr: Option<&Expr>,
) -> bool
    requires { HasUnit reached.now callee }
    ensures { result ≡ named_expr (is_marked_for reached.now callee) (means sight.now) unit.now (option_map placed_expr (option_copied expr.entry)) }
{
    match expr {
        None => false,
        Some(one) => names_variable(sight, unit, reached, callee, name_in(one)),
    }
}

fn is_behind(
    sight: &Sight<'_>,
    unit: &Name,
    reached: &Reached,
    callee: usize,
    actual: &Actual<'_>,
) -> bool
    requires { HasUnit reached.now callee }
    ensures { result ≡ behind_test (is_marked_for reached.now callee) (means sight.now) unit.now (placed_actual actual.now) }
{
    is_written(actual) && names_expr(sight, unit, reached, callee, actual.expr)
}

/// Notes the actual arguments for OUT or INOUT that refer to a module variable which the called unit, or one that
/// it reaches, names.
pub fn note_behind(
    least: &mut Least,
    sight: &Sight<'_>,
    unit: &Name,
    reached: &Reached,
    callee: usize,
    actuals: &[Actual<'_>],
)
    requires { HasUnit reached.now callee }
    ensures { least.new ≡ noted (found E38 (behind_actuals (is_marked_for reached.now callee) (means sight.now) unit.now (placed_actuals actuals.now))) least.old }
{
    for one in actuals {
        least.note_if(
            is_behind(sight, unit, reached, callee, one),
            Code::E38,
            one.at,
        );
    }
}
