//! RETURN statements.
ghost use Rattle.std.specs.Prelude.{◌≡◌};
ghost use Rattle.claw_meaning.specs.Plain.{plain_stmt, plain_stmts};
ghost use Rattle.plain_units.specs.PlainArms.{plain_arms, plain_cases};
ghost use Rattle.column_rules.specs.Rules as rules;

use fort_tree::{Arm, Case, Stmt};

/// Whether no RETURN stands in the statements.
#[cycle(returns)]
pub fn never_return(body: &[Stmt]) -> bool
    ensures { result ≡ rules.never_return (plain_stmts body.now) }
{
    for stmt in body {
        if !never_returns(stmt) {
            return false;
        }
    }
    true
}

#[cycle(returns)]
fn never_returns(stmt: &Stmt) -> bool
    ensures { result ≡ rules.never_returns (plain_stmt stmt.now) }
{
    match stmt {
        Stmt::Assign { .. } | Stmt::Call { .. } | Stmt::Exit(_) | Stmt::Cycle(_) => true,
        Stmt::If {
            arms,
            other: None,
            ..
        } => arms_never_return(arms.items()),
        Stmt::If {
            arms,
            other: Some(body),
            ..
        } => arms_never_return(arms.items()) && never_return(body.items()),
        Stmt::Select {
            arms,
            other: None,
            ..
        } => cases_never_return(arms.items()),
        Stmt::Select {
            arms,
            other: Some(body),
            ..
        } => cases_never_return(arms.items()) && never_return(body.items()),
        Stmt::Loop { body, .. } | Stmt::Block { body, .. } => never_return(body.items()),
        Stmt::Piece(body) => never_return(body.items()),
        Stmt::Return(_) => false,
    }
}

#[cycle(returns)]
fn arms_never_return(arms: &[Arm]) -> bool
    ensures { result ≡ rules.arms_never_return (plain_arms arms.now) }
{
    for arm in arms {
        if !never_return(arm.body.items()) {
            return false;
        }
    }
    true
}

#[cycle(returns)]
fn cases_never_return(cases: &[Case]) -> bool
    ensures { result ≡ rules.cases_never_return (plain_cases cases.now) }
{
    for case in cases {
        if !never_return(case.body.items()) {
            return false;
        }
    }
    true
}
