//! References to units.
ghost use Rattle.std.specs.Prelude.{◌≡◌, ◌∷◌, ◌++◌, List, flat_map, OnOk, IfOk};
ghost use Rattle.std.specs.List.{filter};
ghost use Rattle.sound_programs.specs.Placed.{Expr as Placed};
ghost use Rattle.sound_programs.specs.Placing.{placed_expr, placed_subs};
ghost use Rattle.sound_programs.specs.Walks.{call_site, reference, is_function_site};
ghost use Rattle.unit_steps.specs.Behind.{exprs, placed_step};
ghost use Rattle.fort_names.specs.Sights.{means};
ghost use Rattle.fort_kinds.specs.Sites.{placed_site, placed_sites};

use fort_names::Sight;
use fort_tree::{ByName, Expr, Intrinsic, Name, Named, NoMemory, Place, Sub};
use std::alloc::Global;
use unit_steps::Step;

/// A CALL, or a reference to a function.
#[derive(Clone, Copy, Drop)]
pub struct Site<'a> {
    pub name: &'a Name,
    /// The place of the name.
    pub at: Place,
    pub args: &'a [Sub],
}

fn is_function(sight: &Sight, site: &Site) -> bool
    ensures { result ≡ is_function_site (means sight.now) (placed_site site.now) }
{
    Intrinsic::named(site.name).is_none() && sight.is_function(site.name)
}

fn note_function<'a>(
    sight: &Sight,
    part: &'a Expr,
    into: &mut Vec<Site<'a>>,
) -> Result<(), NoMemory>
    ensures { OnOk result ((rest : List Placed) → placed_sites into.new.items ++ filter (is_function_site (means sight.now)) (flat_map reference rest) ≡ placed_sites into.old.items ++ filter (is_function_site (means sight.now)) (flat_map reference (placed_expr part.now ∷ rest))) }
{
    match part {
        Expr::Ref(name, Some(subs), at) => {
            let site = Site {
                name,
                at: *at,
                args: subs.items(),
            };
            if is_function(sight, &site) {
                into.push(site)?;
            }
            Ok(())
        }
        Expr::Ref(_, None, _)
        | Expr::Number(..)
        | Expr::Truth(..)
        | Expr::One(..)
        | Expr::Two(..)
        | Expr::Paren(..) => Ok(()),
    }
}

fn site_of_call<'a>(name: &'a Named, args: &'a [Sub]) -> Site<'a>
    ensures { placed_site result ≡ record { name = name.now; args = placed_subs args.now } }
{
    Site {
        name: &name.name,
        at: name.at,
        args,
    }
}

fn note_call<'a>(step: Step<'a>, into: &mut Vec<Site<'a>>) -> Result<(), NoMemory>
    ensures { OnOk result (placed_sites into.new.items ≡ placed_sites into.old.items ++ call_site (placed_step step.entry)) }
{
    match step {
        Step::Calls(name, args) => Ok(into.push(site_of_call(name, args))?),
        Step::Assigns(..) | Step::Tests(..) | Step::Chooses(..) | Step::Repeats(..) => Ok(()),
    }
}

/// The references to units in a step: its CALL, and those to functions among the parts that it reads.
///
/// # Errors
/// `NoMemory` only where memory was refused.
pub fn sites_of<'a>(
    alloc: Global,
    sight: &Sight,
    step: Step<'a>,
    parts: &[&'a Expr],
) -> Result<Vec<Site<'a>>, NoMemory>
    ensures { IfOk result (λ list. placed_sites list.items ≡ call_site (placed_step step.entry) ++ filter (is_function_site (means sight.now)) (flat_map reference (exprs parts.now))) }
{
    let mut list = Vec::new(alloc);
    note_call(step, &mut list)?;
    for part in parts {
        note_function(sight, part, &mut list)?;
    }
    Ok(list)
}
