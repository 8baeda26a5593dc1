//! The names of a step, and which of them are variables of DO loops.
ghost use Rattle.std.specs.Prelude.{◌≡◌, ◌++◌, ◌∷◌, ◌&&◌, [], map, flat_map, not, is_none, IfOk, OnOk};
ghost use Rattle.std.specs.List.{list_any};
ghost use Rattle.std.specs.Option.{option_to_list};
ghost use Rattle.claw_meaning.specs.Units.{is_listed};
ghost use Rattle.sound_programs.specs.LoopFaults as faults;
ghost use Rattle.sound_programs.specs.NameFaults.{places_where};
ghost use Rattle.sound_programs.specs.Placing.{placed_bound, placed_decl, placed_expr, placed_option, placed_unit};
ghost use Rattle.sound_programs.specs.Walks as walks;
ghost use Rattle.fort_names.specs.NameLists.{has};
ghost use Rattle.unit_steps.specs.Behind.{exprs, placed_step};

use fort_names::{NameSet, is_named};
use fort_tree::{Bound, Decl, Expr, Name, Named, NoMemory, Place, Unit};
use std::alloc::Global;
use unit_steps::{Step, parts_read};

fn has_no_dimensions(shape: &[Bound]) -> bool
    ensures { result ≡ faults.has_no_dimensions (map placed_bound shape.now) }
{
    match shape {
        [] => true,
        _ => false,
    }
}

fn has_no_value(value: &Option<Expr>) -> bool
    ensures { result ≡ is_none (placed_option value.now) }
{
    match value {
        None => true,
        Some(_) => false,
    }
}

/// Whether it declares the name as an INTEGER scalar variable.
fn declares_integer(decl: &Decl, name: &Name) -> bool
    ensures { result ≡ faults.declares_integer_scalar name.now (placed_decl decl.now) }
{
    decl.name == *name
        && (decl.kind.is_whole()
            && (has_no_dimensions(decl.shape.items()) && has_no_value(&decl.value)))
}

fn is_declared_integer(decls: &[Decl], name: &Name) -> bool
    ensures { result ≡ list_any (faults.declares_integer_scalar name.now) (map placed_decl decls.now) }
{
    for decl in decls {
        if declares_integer(decl, name) {
            return true;
        }
    }
    false
}

/// Whether the unit declares the name as an INTEGER scalar variable that is no dummy.
fn is_local_integer(unit: &Unit, name: &Name) -> bool
    ensures { result ≡ faults.is_local_integer (placed_unit unit.now) name.now }
{
    !is_named(unit.dummies.items(), name) && is_declared_integer(unit.decls.items(), name)
}

fn is_among(names: &[Name], name: &Name) -> bool
    ensures { result ≡ is_listed names.now name.now }
{
    names.iter().any(|one| *one == *name)
}

/// The name that an expression is or refers to.
pub fn name_in(expr: &Expr) -> Option<Named>
    ensures { option_to_list result ≡ walks.name_in (placed_expr expr.now) }
{
    match expr {
        Expr::Ref(name, _, at) => Some(Named {
            name: *name,
            at: *at,
        }),
        Expr::Number(..) | Expr::Truth(..) | Expr::One(..) | Expr::Two(..) | Expr::Paren(..) =>
            None,
    }
}

/// Adds the names that the expressions are or refer to.
pub fn note_names_in(list: &[&Expr], into: &mut Vec<Named>) -> Result<(), NoMemory>
    ensures { OnOk result (into.new.items ≡ into.old.items ++ flat_map walks.name_in (exprs list.now)) }
{
    for expr in list {
        if let Some(named) = name_in(expr) {
            into.push(named)?;
        }
    }
    Ok(())
}

/// The name of the left side of an assignment.
pub fn left_name(step: Step<'_>) -> Option<Named>
    ensures { option_to_list result ≡ flat_map walks.name_in (walks.left_of (placed_step step.entry)) }
{
    match step {
        Step::Assigns(left, _) => name_in(left),
        Step::Calls(..) | Step::Tests(..) | Step::Chooses(..) | Step::Repeats(..) => None,
    }
}

/// The variable of a DO.
pub fn loop_variable(step: Step<'_>) -> Option<Named>
    ensures { option_to_list result ≡ walks.loop_variable (placed_step step.entry) }
{
    match step {
        Step::Repeats(head, _) => Some(Named {
            name: head.var,
            at: head.at,
        }),
        Step::Assigns(..) | Step::Calls(..) | Step::Tests(..) | Step::Chooses(..) => None,
    }
}

fn call_name(step: Step<'_>) -> Option<Named>
    ensures { option_to_list result ≡ walks.call_name (placed_step step.entry) }
{
    match step {
        Step::Calls(name, _) => Some(*name),
        Step::Assigns(..) | Step::Tests(..) | Step::Chooses(..) | Step::Repeats(..) => None,
    }
}

fn note_if_any(named: Option<Named>, into: &mut Vec<Named>) -> Result<(), NoMemory>
    ensures { OnOk result (into.new.items ≡ into.old.items ++ option_to_list named) }
{
    match named {
        None => Ok(()),
        Some(one) => Ok(into.push(one)?),
    }
}

/// The names in a step but for a DO's variable at its head and private lists.
///
/// # Errors
/// `NoMemory` only where memory was refused.
pub fn names_in<'a>(
    alloc: Global,
    step: Step<'a>,
    parts: &[&'a Expr],
) -> Result<Vec<Named>, NoMemory>
    requires { exprs parts.now ≡ walks.parts_read (placed_step step) }
    ensures { IfOk result (λ names. names.items ≡ walks.names_in (placed_step step.entry)) }
{
    let mut names = Vec::new(alloc);
    note_if_any(call_name(step), &mut names)?;
    note_if_any(left_name(step), &mut names)?;
    note_names_in(parts, &mut names)?;
    Ok(names)
}

/// Adds the place of a DO variable that isn't a local INTEGER scalar.
pub fn note_not_local(
    unit: &Unit,
    named: Option<Named>,
    into: &mut Vec<Place>,
) -> Result<(), NoMemory>
    ensures { OnOk result (into.new.items ≡ into.old.items ++ places_where (λ n. not (faults.is_local_integer (placed_unit unit.now) n.name)) (option_to_list named)) }
{
    if let Some(one) = named {
        if !is_local_integer(unit, &one.name) {
            into.push(one.at)?;
        }
    }
    Ok(())
}

/// Adds the place of the name where it is one of these.
pub fn note_if_among(
    loops: &[Name],
    named: Option<Named>,
    into: &mut Vec<Place>,
) -> Result<(), NoMemory>
    ensures { OnOk result (into.new.items ≡ into.old.items ++ places_where (λ n. is_listed loops.now n.name) (option_to_list named)) }
{
    if let Some(one) = named {
        if is_among(loops, &one.name) {
            into.push(one.at)?;
        }
    }
    Ok(())
}

/// Adds the places of the names that are among these.
pub fn note_among(loops: &[Name], names: &[Named], into: &mut Vec<Place>) -> Result<(), NoMemory>
    ensures { OnOk result (into.new.items ≡ into.old.items ++ places_where (λ n. is_listed loops.now n.name) names.now) }
{
    for one in names {
        if is_among(loops, &one.name) {
            into.push(one.at)?;
        }
    }
    Ok(())
}

/// Adds the places of the names that are DO variables of the unit, but of none of these loops.
pub fn note_outside(
    variables: &NameSet,
    loops: &[Name],
    names: &[Named],
    into: &mut Vec<Place>,
) -> Result<(), NoMemory>
    ensures { OnOk result (into.new.items ≡ into.old.items ++ places_where (λ n. has variables.now n.name && not (is_listed loops.now n.name)) names.now) }
{
    for one in names {
        if variables.has(&one.name) && !is_among(loops, &one.name) {
            into.push(one.at)?;
        }
    }
    Ok(())
}
