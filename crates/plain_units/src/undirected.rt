//! Units without directives.

ghost use Rattle.std.specs.Prelude.{◌≡◌, ◌↔◌, IsTrue, is_none, option_map};
ghost use Rattle.claw_meaning.specs.Plain.{plain_directive, plain_stmt, plain_stmts, plain_unit};
ghost use Rattle.plain_units.specs.PlainArms.{plain_arms, plain_cases};
ghost use Rattle.plain_units.specs.Undirected.{is_undirected as undirected_test, are_undirected as all_undirected, arms_undirected as arms_test, cases_undirected as cases_test, IsUndirected};

use fort_tree::{Arm, Case, Stmt, Unit};

/// Whether no directive stands in the unit, neither before its first statement nor in its body.
pub fn is_undirected(unit: &Unit) -> bool
    ensures { IsTrue result ↔ IsUndirected (plain_unit unit.now) }
{
    unit.marks.is_empty() && are_undirected(unit.body.items())
}

#[cycle(undirected)]
fn are_undirected(body: &[Stmt]) -> bool
    ensures { result ≡ all_undirected (plain_stmts body.now) }
{
    for stmt in body {
        if !is_free(stmt) {
            return false;
        }
    }
    true
}

/// Whether the statement is under no directive and holds none.
#[cycle(undirected)]
fn is_free(stmt: &Stmt) -> bool
    ensures { result ≡ undirected_test (plain_stmt stmt.now) }
{
    match stmt {
        Stmt::Assign { .. } | Stmt::Exit(_) | Stmt::Cycle(_) | Stmt::Return(_) => true,
        Stmt::Call { forward, .. } => !*forward,
        Stmt::If {
            arms,
            other: None,
            ..
        } => arms_are_free(arms.items()),
        Stmt::If {
            arms,
            other: Some(body),
            ..
        } => arms_are_free(arms.items()) && are_undirected(body.items()),
        Stmt::Select {
            arms,
            other: None,
            ..
        } => cases_are_free(arms.items()),
        Stmt::Select {
            arms,
            other: Some(body),
            ..
        } => cases_are_free(arms.items()) && are_undirected(body.items()),
        Stmt::Loop {
            body,
            mark: None,
            ..
        } => are_undirected(body.items()),
        Stmt::Loop { mark: Some(_), .. } | Stmt::Block { .. } | Stmt::Piece(_) => false,
    }
}

#[cycle(undirected)]
fn arms_are_free(arms: &[Arm]) -> bool
    ensures { result ≡ arms_test (plain_arms arms.now) }
{
    for arm in arms {
        if !are_undirected(arm.body.items()) {
            return false;
        }
    }
    true
}

#[cycle(undirected)]
fn cases_are_free(cases: &[Case]) -> bool
    ensures { result ≡ cases_test (plain_cases cases.now) }
{
    for case in cases {
        if !are_undirected(case.body.items()) {
            return false;
        }
    }
    true
}
