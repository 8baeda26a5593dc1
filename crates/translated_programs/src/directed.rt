//! Directives on statements, and calls of column units.
ghost use Rattle.std.specs.Prelude.{◌≡◌, ◌++◌, OnOk, not, ◌||◌};
ghost use Rattle.std.specs.Option.{option_map};
ghost use Rattle.fort_names.specs.NameLists.{has};
ghost use Rattle.scalar_units.specs.Unbuilt.{unless as unless_at};
ghost use Rattle.sound_programs.specs.Placing.{placed_directive, placed_stmt, placed_stmts};
ghost use Rattle.translated_programs.specs.Directed.{directed, directed_in, directed_in_arms, directed_in_cases, place_of_mark};
ghost use Rattle.unit_steps.specs.Acts.{arms_placed, cases_placed};

use fort_names::NameSet;
use fort_tree::{Arm, Case, Directive, NoMemory, Place, Stmt};

const NOWHERE: Place = Place {
    file: 0,
    line: 0,
    column: 0,
};

fn push_mark(mark: &Option<Directive>, into: &mut Vec<Place>) -> Result<(), NoMemory>
    ensures { OnOk result (into.new.items ≡ into.old.items ++ place_of_mark (option_map placed_directive mark.now)) }
{
    match mark {
        None => Ok(()),
        Some(mark) => Ok(into.push(mark.at)?),
    }
}

fn push_unless(holds: bool, at: Place, into: &mut Vec<Place>) -> Result<(), NoMemory>
    ensures { OnOk result (into.new.items ≡ into.old.items ++ unless_at holds at) }
{
    if holds {
        return Ok(());
    }
    Ok(into.push(at)?)
}

#[cycle(directed)]
fn note_stmt(stmt: &Stmt, columns: &NameSet, into: &mut Vec<Place>) -> Result<(), NoMemory>
    ensures { OnOk result (into.new.items ≡ into.old.items ++ directed (has columns.now) (placed_stmt stmt.now)) }
{
    match stmt {
        Stmt::Call {
            at,
            name,
            forward,
            ..
        } => push_unless(!(*forward || columns.has(&name.name)), *at, into),
        Stmt::If {
            arms,
            other: None,
            ..
        } => note_arms(arms.items(), columns, into),
        Stmt::If {
            arms,
            other: Some(body),
            ..
        } => {
            note_arms(arms.items(), columns, into)?;
            note_directed(body.items(), columns, into)
        }
        Stmt::Select {
            arms,
            other: None,
            ..
        } => note_cases(arms.items(), columns, into),
        Stmt::Select {
            arms,
            other: Some(body),
            ..
        } => {
            note_cases(arms.items(), columns, into)?;
            note_directed(body.items(), columns, into)
        }
        Stmt::Loop { body, mark, .. } => {
            push_mark(mark, into)?;
            note_directed(body.items(), columns, into)
        }
        Stmt::Block { at, body, .. } => {
            into.push(*at)?;
            note_directed(body.items(), columns, into)
        }
        Stmt::Piece(body) => {
            into.push(NOWHERE)?;
            note_directed(body.items(), columns, into)
        }
        Stmt::Assign { .. } | Stmt::Exit(_) | Stmt::Cycle(_) | Stmt::Return(_) => Ok(()),
    }
}

/// Appends the places of directives on these statements and of calls of column units, whose names these are.
///
/// # Errors
/// `NoMemory` only where memory was refused.
#[cycle(directed)]
pub fn note_directed(
    body: &[Stmt],
    columns: &NameSet,
    into: &mut Vec<Place>,
) -> Result<(), NoMemory>
    ensures { OnOk result (into.new.items ≡ into.old.items ++ directed_in (has columns.now) (placed_stmts body.now)) }
{
    for stmt in body {
        note_stmt(stmt, columns, into)?;
    }
    Ok(())
}

#[cycle(directed)]
fn note_arms(arms: &[Arm], columns: &NameSet, into: &mut Vec<Place>) -> Result<(), NoMemory>
    ensures { OnOk result (into.new.items ≡ into.old.items ++ directed_in_arms (has columns.now) (arms_placed arms.now)) }
{
    for arm in arms {
        note_directed(arm.body.items(), columns, into)?;
    }
    Ok(())
}

#[cycle(directed)]
fn note_cases(cases: &[Case], columns: &NameSet, into: &mut Vec<Place>) -> Result<(), NoMemory>
    ensures { OnOk result (into.new.items ≡ into.old.items ++ directed_in_cases (has columns.now) (cases_placed cases.now)) }
{
    for case in cases {
        note_directed(case.body.items(), columns, into)?;
    }
    Ok(())
}
