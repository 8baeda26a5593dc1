//! The actual arguments of references to units.
ghost use Rattle.std.specs.Prelude.{◌≡◌, [], ◌∷◌, ◌++◌, map, IfOk};
ghost use Rattle.std.specs.Option.{option_copied, option_map};
ghost use Rattle.claw_meaning.specs.Plain.{plain_decl, plain_unit};
ghost use Rattle.sound_programs.specs.Placing.{placed_expr, placed_sub, placed_subs};
ghost use Rattle.sound_programs.specs.Scopes.{is_written_intent};
ghost use Rattle.sound_programs.specs.Walks as walks;
ghost use Rattle.fort_names.specs.Sights.{means};
ghost use Rattle.fort_kinds.specs.Sites.{placed_sites};
ghost use Rattle.unit_steps.specs.Behind.{placed_step};
ghost use Rattle.argument_faults.specs.Actuals.{actual_alone, placed_actual, placed_actuals};

use fort_kinds::{Site, first, sites_of};
use fort_names::{Callee, Sight};
use fort_tree::{Decl, Expr, Intent, Named, NoMemory, Place, Sub};
use std::alloc::Global;
use unit_steps::{Step, parts_read};

/// An actual argument and its dummy's declaration, by position. A range by itself is no expression.
#[derive(Clone, Copy, Drop)]
pub struct Actual<'a> {
    pub expr: Option<&'a Expr>,
    /// The place of its first token.
    pub at: Place,
    pub dummy: Option<&'a Decl>,
}

/// The references to units in a step: its CALL, and those to functions.
///
/// # Errors
/// `NoMemory` only where memory was refused.
pub fn sites_in<'a>(
    alloc: Global,
    sight: &Sight<'_>,
    step: Step<'a>,
) -> Result<Vec<Site<'a>>, NoMemory>
    ensures { IfOk result (λ list. placed_sites list.items ≡ walks.sites (means sight.now) (placed_step step.entry)) }
{
    let parts = parts_read(alloc, step)?;
    let list = sites_of(alloc, sight, step, parts.as_slice())?;
    Ok(list)
}

/// Whether it is OUT or INOUT.
pub(crate) fn is_written_as(intent: Option<Intent>) -> bool
    ensures { result ≡ is_written_intent intent }
{
    match intent {
        None => false,
        Some(Intent::In) => false,
        Some(Intent::Out) => true,
        Some(Intent::InOut) => true,
    }
}

/// Whether its dummy is OUT or INOUT.
pub fn is_written(actual: &Actual) -> bool
    ensures { result ≡ walks.is_written (placed_actual actual.now) }
{
    match actual.dummy {
        None => false,
        Some(decl) => is_written_as(decl.intent),
    }
}

fn argument<'a>(dummy: Option<&'a Decl>, arg: &'a Sub) -> Actual<'a>
    ensures { placed_actual result ∷ [] ≡ actual_alone (option_map plain_decl (option_copied dummy.entry)) (placed_sub arg.now) }
{
    match arg {
        Sub::One(expr) => Actual {
            expr: Some(expr),
            at: first(expr),
            dummy,
        },
        Sub::Range(_, _, at) => Actual {
            expr: None,
            at: *at,
            dummy,
        },
    }
}

/// The arguments for these dummies, as far as there is one for each.
fn matched<'a>(
    alloc: Global,
    dummies: &[Named],
    callee: &Callee<'a>,
    args: &'a [Sub],
) -> Result<Vec<Actual<'a>>, NoMemory>
    ensures { IfOk result (λ list. placed_actuals list.items ≡ walks.matched (map (λ d. d.name) dummies.now) (plain_unit callee.now).decls (placed_subs args.now)) }
{
    let mut list = Vec::new(alloc);
    for (i, dummy) in dummies.iter().enumerate() {
        match args.get(i) {
            None => return Ok(list),
            Some(arg) => {
                list.push(argument(callee.declaration(&dummy.name), arg))?;
            }
        }
    }
    Ok(list)
}

/// The actual arguments of a reference to the unit, as far as there is a dummy for each.
///
/// # Errors
/// `NoMemory` only where memory was refused.
pub fn actuals_of<'a>(
    alloc: Global,
    callee: Option<Callee<'a>>,
    args: &'a [Sub],
) -> Result<Vec<Actual<'a>>, NoMemory>
    ensures { IfOk result (λ list. placed_actuals list.items ≡ walks.actuals_of (option_map plain_unit callee.entry) (placed_subs args.now)) }
{
    match callee {
        None => Ok(Vec::new(alloc)),
        Some(callee) => matched(alloc, callee.unit().dummies.items(), &callee, args),
    }
}
