//! Sums of products, and the assignments of them.
ghost use Rattle.std.specs.Prelude.{◌≡◌, ◌&&◌, map};
ghost use Rattle.std.specs.List.{list_any};
ghost use Rattle.std.specs.Str.{bytes_eq};
ghost use Rattle.claw_meaning.specs.Plain.{plain_expr, plain_decl, plain_unit, plain_stmt};
ghost use Rattle.scalar_units.specs.Units.{is_sum as sum_test, is_term_op as op_test, is_term_sign as sign_test, is_in as in_test, is_input as input_test, is_target as target_test, is_assignment as assignment_test};

use crate::names::is_among;
use fort_tree::{Boxed, Decl, Expr, Intent, Name, Named, Op, Stmt, Unary, Unit};

fn is_term_op(op: Op) -> bool
    ensures { result ≡ op_test op }
{
    matches!(op, Op::Add | Op::Sub | Op::Mul)
}

fn is_term_sign(sign: Unary) -> bool
    ensures { result ≡ sign_test sign }
{
    matches!(sign, Unary::Plus | Unary::Minus)
}

/// Whether the expression is a sum of products of dummies and of numbers of kind 4.
#[cycle(sum)]
fn is_sum(dummies: &[Named], expr: &Expr) -> bool
    ensures { result ≡ sum_test (map (λ d. d.name) dummies.now) (plain_expr expr.now) }
{
    match expr {
        Expr::Number(value, None, _) => *value <= 2147483647,
        Expr::Ref(name, None, _) => is_among(dummies, name),
        Expr::One(sign, part, _) => is_term_sign(*sign) && is_part_sum(dummies, part),
        Expr::Two(op, left, right) => {
            is_term_op(*op) && is_part_sum(dummies, left) && is_part_sum(dummies, right)
        }
        Expr::Number(_, Some(_), _)
        | Expr::Ref(_, Some(_), _)
        | Expr::Truth(..)
        | Expr::Paren(..) => false,
    }
}

#[cycle(sum)]
fn is_part_sum(dummies: &[Named], part: &Boxed<Expr>) -> bool
    ensures { result ≡ sum_test (map (λ d. d.name) dummies.now) (plain_expr part.now) }
{
    is_sum(dummies, part.get())
}

fn is_in(intent: Option<Intent>) -> bool
    ensures { result ≡ in_test intent }
{
    matches!(intent, Some(Intent::In))
}

fn is_input_of(decl: &Decl, name: &Name) -> bool
    ensures { result ≡ (in_test (plain_decl decl.now).intent && bytes_eq (plain_decl decl.now).name name.now) }
{
    is_in(decl.intent) && decl.name == *name
}

fn has_input(decls: &[Decl], name: &Name) -> bool
    ensures { result ≡ list_any (λ d. in_test (plain_decl d).intent && bytes_eq (plain_decl d).name name.now) decls.now }
{
    decls.iter().any(|decl| is_input_of(decl, name))
}

/// Whether a declaration of the name has INTENT(IN).
fn is_input(decls: &[Decl], name: &Name) -> bool
    ensures { result ≡ input_test (map plain_decl decls.now) name.now }
{
    has_input(decls, name)
}

/// Whether it is the bare name of a dummy that isn't INTENT(IN).
fn is_target(unit: &Unit, expr: &Expr) -> bool
    ensures { result ≡ target_test (plain_unit unit.now) (plain_expr expr.now) }
{
    match expr {
        Expr::Ref(name, None, _) => {
            is_among(unit.dummies.items(), name) && !is_input(unit.decls.items(), name)
        }
        Expr::Ref(_, Some(_), _)
        | Expr::Number(..)
        | Expr::Truth(..)
        | Expr::One(..)
        | Expr::Two(..)
        | Expr::Paren(..) => false,
    }
}

/// Whether the statement assigns a sum of dummies to a dummy.
pub fn is_assignment(unit: &Unit, stmt: &Stmt) -> bool
    ensures { result ≡ assignment_test (plain_unit unit.now) (plain_stmt stmt.now) }
{
    match stmt {
        Stmt::Assign { left, right, .. } => {
            is_target(unit, left) && is_sum(unit.dummies.items(), right)
        }
        Stmt::Call { .. }
        | Stmt::If { .. }
        | Stmt::Select { .. }
        | Stmt::Loop { .. }
        | Stmt::Block { .. }
        | Stmt::Piece(..)
        | Stmt::Exit(..)
        | Stmt::Cycle(..)
        | Stmt::Return(..) => false,
    }
}
