//! The steps of a unit.
ghost use Rattle.std.specs.Prelude.{◌≡◌, ◌++◌, map, IfOk, OnOk};
ghost use Rattle.sound_programs.specs.Placing.{cases_of, placed_stmt, placed_stmts, placed_unit};
ghost use Rattle.sound_programs.specs.Walks.{steps_of as steps_in_unit};
ghost use Rattle.unit_steps.specs.Acts.{acts, acts_in, acts_in_arms, acts_in_cases, arms_placed, cases_placed};
ghost use Rattle.unit_steps.specs.Behind.{placed_steps};

use crate::step::Step;
use fort_tree::{Arm, Case, NoMemory, Stmt, Unit};
use std::alloc::Global;

#[cycle(steps)]
fn note_stmt<'a>(stmt: &'a Stmt, into: &mut Vec<Step<'a>>) -> Result<(), NoMemory>
    ensures { OnOk result (placed_steps into.new.items ≡ placed_steps into.old.items ++ acts (placed_stmt stmt.now)) }
{
    match stmt {
        Stmt::Assign { left, right, .. } => Ok(into.push(Step::Assigns(left, right))?),
        Stmt::Call { name, args, .. } => Ok(into.push(Step::Calls(name, args.items()))?),
        Stmt::If {
            arms,
            other: None,
            ..
        } => note_arms(arms.items(), into),
        Stmt::If {
            arms,
            other: Some(body),
            ..
        } => {
            note_arms(arms.items(), into)?;
            note_body(body.items(), into)
        }
        Stmt::Select {
            on,
            arms,
            other: None,
            ..
        } => {
            into.push(Step::Chooses(on, arms.items()))?;
            note_cases(arms.items(), into)
        }
        Stmt::Select {
            on,
            arms,
            other: Some(body),
            ..
        } => {
            into.push(Step::Chooses(on, arms.items()))?;
            note_cases(arms.items(), into)?;
            note_body(body.items(), into)
        }
        Stmt::Loop {
            head,
            body,
            mark,
            ..
        } => {
            into.push(Step::Repeats(head, mark))?;
            note_body(body.items(), into)
        }
        Stmt::Block { body, .. } | Stmt::Piece(body) => note_body(body.items(), into),
        Stmt::Exit(_) | Stmt::Cycle(_) | Stmt::Return(_) => Ok(()),
    }
}

#[cycle(steps)]
fn note_body<'a>(body: &'a [Stmt], into: &mut Vec<Step<'a>>) -> Result<(), NoMemory>
    ensures { OnOk result (placed_steps into.new.items ≡ placed_steps into.old.items ++ acts_in (placed_stmts body.now)) }
{
    for stmt in body {
        note_stmt(stmt, into)?;
    }
    Ok(())
}

#[cycle(steps)]
fn note_arms<'a>(arms: &'a [Arm], into: &mut Vec<Step<'a>>) -> Result<(), NoMemory>
    ensures { OnOk result (placed_steps into.new.items ≡ placed_steps into.old.items ++ acts_in_arms (arms_placed arms.now)) }
{
    for arm in arms {
        into.push(Step::Tests(&arm.test))?;
        note_body(arm.body.items(), into)?;
    }
    Ok(())
}

#[cycle(steps)]
fn note_cases<'a>(cases: &'a [Case], into: &mut Vec<Step<'a>>) -> Result<(), NoMemory>
    ensures { OnOk result (placed_steps into.new.items ≡ placed_steps into.old.items ++ acts_in_cases (cases_placed cases.now)) }
{
    for case in cases {
        note_body(case.body.items(), into)?;
    }
    Ok(())
}

/// The steps of the unit, in the order of the text.
///
/// # Errors
/// `NoMemory` only where memory was refused.
#[tactic(auto, using(crate::proofs::Acting::steps_are))]
pub fn steps_of<'a>(alloc: Global, unit: &'a Unit) -> Result<Vec<Step<'a>>, NoMemory>
    ensures { IfOk result (λ list. placed_steps list.items ≡ map (λ s. s.step) (steps_in_unit (placed_unit unit.now))) }
{
    let mut list = Vec::new(alloc);
    note_body(unit.body.items(), &mut list)?;
    Ok(list)
}
