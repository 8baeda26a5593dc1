//! Actual arguments that refer to one variable.
ghost use Rattle.std.specs.Prelude.{◌≡◌, ◌&&◌, ◌||◌, map, flat_map, IfOk, OnOk};
ghost use Rattle.std.specs.Option.{option_and_then, option_copied, option_map, option_to_list};
ghost use Rattle.fort_tree.specs.declared.fault.Code.TheVariants.{E38};
ghost use Rattle.sound_programs.specs.ArgumentFaults.{shared_actuals};
ghost use Rattle.sound_programs.specs.Faults.{found};
ghost use Rattle.sound_programs.specs.Placing.{placed_expr};
ghost use Rattle.sound_programs.specs.Walks as walks;
ghost use Rattle.fort_names.specs.Leasts.{noted};
ghost use Rattle.fort_names.specs.Sights.{means};
ghost use Rattle.argument_faults.specs.Actuals.{placed_actual, placed_actuals};
ghost use Rattle.argument_faults.specs.Sharing.{variable_among, variable_in, passed_as, is_same as same_test, share as share_test, shares_of, all_shares};

use crate::actuals::{Actual, is_written};
use fort_names::{Least, Sight};
use fort_tree::{Code, Expr, Name, Named, NoMemory, Place};
use std::alloc::Global;
use unit_steps::name_in;

/// What counts of an actual argument: the variable to which it refers, and whether its dummy is OUT or INOUT.
#[derive(Clone, Copy)]
struct Passed {
    variable: Option<Name>,
    written: bool,
    at: Place,
}

fn variable(sight: &Sight<'_>, named: Option<Named>) -> Option<Name>
    ensures { result ≡ variable_among (means sight.now) (option_to_list named) }
{
    match named {
        None => None,
        Some(one) => {
            if sight.is_variable(&one.name) {
                Some(one.name)
            } else {
                None
            }
        }
    }
}

/// The variable that the expression is or refers to.
fn variable_of(sight: &Sight<'_>, expr: Option<&Expr>) -> Option<Name>
    ensures { result ≡ option_and_then (variable_in (means sight.now)) (option_map placed_expr (option_copied expr.entry)) }
{
    match expr {
        None => None,
        Some(one) => variable(sight, name_in(one)),
    }
}

fn what_counts(sight: &Sight<'_>, actual: &Actual<'_>) -> Passed
    ensures { result ≡ passed_as (means sight.now) (placed_actual actual.now) }
{
    Passed {
        variable: variable_of(sight, actual.expr),
        written: is_written(actual),
        at: actual.at,
    }
}

fn all_passed(
    alloc: Global,
    sight: &Sight<'_>,
    actuals: &[Actual<'_>],
) -> Result<Vec<Passed>, NoMemory>
    ensures { IfOk result (λ list. list.items ≡ map (passed_as (means sight.now)) (placed_actuals actuals.now)) }
{
    let mut list = Vec::new(alloc);
    for actual in actuals {
        list.push(what_counts(sight, actual))?;
    }
    Ok(list)
}

fn is_same(variable: Option<Name>, other: Option<Name>) -> bool
    ensures { result ≡ same_test variable other }
{
    match variable {
        None => false,
        Some(name) => match other {
            None => false,
            Some(other_name) => name == other_name,
        },
    }
}

/// Whether both refer to one variable, and one of them is written.
fn share(one: &Passed, other: &Passed) -> bool
    ensures { result ≡ share_test one.now other.now }
{
    is_same(one.variable, other.variable) && (one.written || other.written)
}

fn note_shares_of(least: &mut Least, one: &Passed, others: &[Passed])
    ensures { least.new ≡ noted (found E38 (shares_of one.now others.now)) least.old }
{
    for other in others {
        least.note_if(share(one, other), Code::E38, other.at);
    }
}

fn note_all_shares(least: &mut Least, list: &[Passed])
    ensures { least.new ≡ noted (found E38 (all_shares list.now)) least.old }
{
    for (i, one) in list.iter().enumerate() {
        note_shares_of(least, one, &list[i + 1..]);
    }
}

/// Notes of each two actual arguments of one reference that refer to one variable, one of them for OUT or INOUT, the later.
/// The time is quadratic in their number.
///
/// # Errors
/// `NoMemory` only where memory was refused.
pub fn note_shared_actuals(
    alloc: Global,
    least: &mut Least,
    sight: &Sight<'_>,
    actuals: &[Actual<'_>],
) -> Result<(), NoMemory>
    ensures { OnOk result (least.new ≡ noted (found E38 (shared_actuals (means sight.now) (placed_actuals actuals.now))) least.old) }
{
    let list = all_passed(alloc, sight, actuals)?;
    note_all_shares(least, list.as_slice());
    Ok(())
}
