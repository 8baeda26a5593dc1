//! The statements of a unit, with the DO loops around each.
ghost use Rattle.std.specs.Prelude.{◌≡◌, ◌++◌, ◌∷◌, IfOk, OnOk};
ghost use Rattle.sound_programs.specs.Placing.{placed_stmt, placed_stmts, placed_unit};
ghost use Rattle.fort_names.specs.Sights.{means};
ghost use Rattle.unit_steps.specs.Acts.{arms_placed, cases_placed};
ghost use Rattle.unit_steps.specs.Behind.{placed_step};
ghost use Rattle.name_faults.specs.LoopSteps.{faults_of_step, step_faults, in_stmt, in_stmts, in_arms, in_cases};

use crate::loop_names::{
    left_name, loop_variable, names_in, note_among, note_if_among, note_not_local, note_outside,
};
use crate::passed::passed_in;
use fort_names::{NameSet, Sight};
use fort_tree::{Arm, Case, Name, NoMemory, Place, Stmt, Unit};
use std::alloc::Global;
use unit_steps::{Step, parts_read};

/// A unit, what its names mean, and all variables of its DO loops.
#[derive(Clone, Copy)]
pub struct Ground<'a> {
    pub unit: &'a Unit,
    pub sight: &'a Sight<'a>,
    pub variables: &'a NameSet,
}

/// Adds the places of the faults of one step.
fn note_all(
    alloc: Global,
    ground: &Ground<'_>,
    loops: &[Name],
    step: Step<'_>,
    into: &mut Vec<Place>,
) -> Result<(), NoMemory>
    ensures { OnOk result (into.new.items ≡ into.old.items ++ faults_of_step (means ground.now.sight.now) (placed_unit ground.now.unit.now) ground.now.variables.now loops.now (placed_step step.entry)) }
{
    let parts = parts_read(alloc, step)?;
    let names = names_in(alloc, step, parts.as_slice())?;
    let passed = passed_in(alloc, ground.sight, step, parts.as_slice())?;
    note_not_local(ground.unit, loop_variable(step), into)?;
    note_outside(ground.variables, loops, names.as_slice(), into)?;
    note_if_among(loops, left_name(step), into)?;
    note_among(loops, passed.as_slice(), into)?;
    note_if_among(loops, loop_variable(step), into)
}

fn note_step(
    alloc: Global,
    ground: &Ground<'_>,
    loops: &[Name],
    step: Step<'_>,
    into: &mut Vec<Place>,
) -> Result<(), NoMemory>
    ensures { OnOk result (into.new.items ≡ into.old.items ++ step_faults (means ground.now.sight.now) (placed_unit ground.now.unit.now) ground.now.variables.now loops.now (placed_step step.entry)) }
{
    note_all(alloc, ground, loops, step, into)
}

/// The loops with one more inside them.
fn with_loop(alloc: Global, variable: Name, loops: &[Name]) -> Result<Vec<Name>, NoMemory>
    ensures { IfOk result (λ all. all.items ≡ variable ∷ loops.now) }
{
    let mut all = Vec::new(alloc);
    all.push(variable)?;
    all.extend_from_slice(loops)?;
    Ok(all)
}

#[cycle(loops)]
fn note_stmt(
    alloc: Global,
    ground: &Ground<'_>,
    loops: &[Name],
    stmt: &Stmt,
    into: &mut Vec<Place>,
) -> Result<(), NoMemory>
    ensures { OnOk result (into.new.items ≡ into.old.items ++ in_stmt (step_faults (means ground.now.sight.now) (placed_unit ground.now.unit.now) ground.now.variables.now) loops.now (placed_stmt stmt.now)) }
{
    match stmt {
        Stmt::Assign { left, right, .. } => note_step(
            alloc,
            ground,
            loops,
            Step::Assigns(left, right),
            into,
        ),
        Stmt::Call { name, args, .. } => note_step(
            alloc,
            ground,
            loops,
            Step::Calls(name, args.items()),
            into,
        ),
        Stmt::If {
            arms,
            other: None,
            ..
        } => note_arms(alloc, ground, loops, arms.items(), into),
        Stmt::If {
            arms,
            other: Some(body),
            ..
        } => {
            note_arms(alloc, ground, loops, arms.items(), into)?;
            note_body(alloc, ground, loops, body.items(), into)
        }
        Stmt::Select {
            on,
            arms,
            other: None,
            ..
        } => {
            note_step(alloc, ground, loops, Step::Chooses(on, arms.items()), into)?;
            note_cases(alloc, ground, loops, arms.items(), into)
        }
        Stmt::Select {
            on,
            arms,
            other: Some(body),
            ..
        } => {
            note_step(alloc, ground, loops, Step::Chooses(on, arms.items()), into)?;
            note_cases(alloc, ground, loops, arms.items(), into)?;
            note_body(alloc, ground, loops, body.items(), into)
        }
        Stmt::Loop {
            head,
            body,
            mark,
            ..
        } => {
            note_step(alloc, ground, loops, Step::Repeats(head, mark), into)?;
            let inside = with_loop(alloc, head.var, loops)?;
            note_body(alloc, ground, inside.as_slice(), body.items(), into)
        }
        Stmt::Block { body, .. } | Stmt::Piece(body) => note_body(
            alloc,
            ground,
            loops,
            body.items(),
            into,
        ),
        Stmt::Exit(_) | Stmt::Cycle(_) | Stmt::Return(_) => Ok(()),
    }
}

/// Adds the places of the faults of DO variables in statements inside these loops.
///
/// # Errors
/// `NoMemory` only where memory was refused.
#[cycle(loops)]
pub fn note_body(
    alloc: Global,
    ground: &Ground<'_>,
    loops: &[Name],
    body: &[Stmt],
    into: &mut Vec<Place>,
) -> Result<(), NoMemory>
    ensures { OnOk result (into.new.items ≡ into.old.items ++ in_stmts (step_faults (means ground.now.sight.now) (placed_unit ground.now.unit.now) ground.now.variables.now) loops.now (placed_stmts body.now)) }
{
    for stmt in body {
        note_stmt(alloc, ground, loops, stmt, into)?;
    }
    Ok(())
}

#[cycle(loops)]
fn note_arms(
    alloc: Global,
    ground: &Ground<'_>,
    loops: &[Name],
    arms: &[Arm],
    into: &mut Vec<Place>,
) -> Result<(), NoMemory>
    ensures { OnOk result (into.new.items ≡ into.old.items ++ in_arms (step_faults (means ground.now.sight.now) (placed_unit ground.now.unit.now) ground.now.variables.now) loops.now (arms_placed arms.now)) }
{
    for arm in arms {
        note_step(alloc, ground, loops, Step::Tests(&arm.test), into)?;
        note_body(alloc, ground, loops, arm.body.items(), into)?;
    }
    Ok(())
}

#[cycle(loops)]
fn note_cases(
    alloc: Global,
    ground: &Ground<'_>,
    loops: &[Name],
    cases: &[Case],
    into: &mut Vec<Place>,
) -> Result<(), NoMemory>
    ensures { OnOk result (into.new.items ≡ into.old.items ++ in_cases (step_faults (means ground.now.sight.now) (placed_unit ground.now.unit.now) ground.now.variables.now) loops.now (cases_placed cases.now)) }
{
    for case in cases {
        note_body(alloc, ground, loops, case.body.items(), into)?;
    }
    Ok(())
}
