//! Expressions (ISO/IEC 1539-1:2018 10.1.2).
ghost use Rattle.std.specs.Prelude.{◌≡◌, ◌≤◌, false, map};
ghost use Rattle.fort_spell.specs.Expressions.{bound_pieces, expr_pieces, loose, op_mark, sub_pieces, unary_loose, unary_mark};
ghost use Rattle.fort_spell.specs.Pieces.{bracketed, items, lower, or_none, sign};
ghost use Rattle.fort_spell.specs.Rows.{laid};
ghost use Rattle.fort_spell.specs.Stream.{Put};

use crate::line::Margin;
use crate::mark::{Mark, is_loose, is_word_like, op_token, truth_token, unary_token};
use crate::put::{Reached, put_mark, put_number, put_word};
use fort_arith::Op;
use fort_tree::{Boxed, Expr, Sub, Unary};
use outside::Sink;

/// Puts an expression.
#[cycle(expressions)]
pub fn put_expr<S: Sink>(
    expr: &Expr,
    spaced: bool,
    margin: Margin,
    reached: Reached,
    sink: &mut S,
) -> Reached
    requires { margin.indent ≤ 40 }
    ensures { Put (laid margin) reached result (S.taken sink.old) (S.taken sink.new) (S.faults sink.old) (S.faults sink.new) (expr_pieces expr.now spaced) }
{
    match expr {
        Expr::Number(value, kind, _) => put_number(*value, *kind, spaced, margin, reached, sink),
        Expr::Truth(value, _) => put_mark(truth_token(*value), spaced, margin, reached, sink),
        Expr::Ref(name, subs, _) => {
            let reached = put_word(name.text(), spaced, margin, reached, sink);
            match subs {
                None => reached,
                Some(subs) => put_subs(subs.items(), false, false, margin, reached, sink),
            }
        }
        Expr::One(op, part, _) => {
            let reached = put_unary(*op, spaced, margin, reached, sink);
            put_operand(*op, part, margin, reached, sink)
        }
        Expr::Two(op, left, right) => {
            let reached = put_part(left, spaced, margin, reached, sink);
            let reached = put_op(*op, margin, reached, sink);
            put_right(*op, right, margin, reached, sink)
        }
        Expr::Paren(part, _) => {
            let reached = put_mark(Mark::Open, spaced, margin, reached, sink);
            let reached = put_part(part, false, margin, reached, sink);
            put_mark(Mark::Close, false, margin, reached, sink)
        }
    }
}

/// Puts a subscript or an argument.
#[cycle(expressions)]
pub fn put_sub<S: Sink>(
    sub: &Sub,
    spaced: bool,
    margin: Margin,
    reached: Reached,
    sink: &mut S,
) -> Reached
    requires { margin.indent ≤ 40 }
    ensures { Put (laid margin) reached result (S.taken sink.old) (S.taken sink.new) (S.faults sink.old) (S.faults sink.new) (sub_pieces sub.now spaced) }
{
    match sub {
        Sub::One(expr) => put_expr(expr, spaced, margin, reached, sink),
        Sub::Range(from, to, _) => {
            let reached = put_lower(from, spaced, margin, reached, sink);
            put_bound(to, margin, reached, sink)
        }
    }
}

/// Puts a lower bound, where it is given, and the colon behind it.
#[cycle(expressions)]
pub fn put_lower<S: Sink>(
    bound: &Option<Expr>,
    spaced: bool,
    margin: Margin,
    reached: Reached,
    sink: &mut S,
) -> Reached
    requires { margin.indent ≤ 40 }
    ensures { Put (laid margin) reached result (S.taken sink.old) (S.taken sink.new) (S.faults sink.old) (S.faults sink.new) (lower (bound_pieces bound.now) spaced) }
{
    match bound {
        None => put_mark(Mark::Colon, spaced, margin, reached, sink),
        Some(expr) => {
            let reached = put_expr(expr, spaced, margin, reached, sink);
            put_mark(Mark::Colon, false, margin, reached, sink)
        }
    }
}

/// Puts a bound, where it is given.
#[cycle(expressions)]
pub fn put_bound<S: Sink>(
    bound: &Option<Expr>,
    margin: Margin,
    reached: Reached,
    sink: &mut S,
) -> Reached
    requires { margin.indent ≤ 40 }
    ensures { Put (laid margin) reached result (S.taken sink.old) (S.taken sink.new) (S.faults sink.old) (S.faults sink.new) (or_none (bound_pieces bound.now) false) }
{
    match bound {
        None => reached,
        Some(expr) => put_expr(expr, false, margin, reached, sink),
    }
}

/// Puts subscripts or arguments in parentheses, with a blank behind each comma where there is a gap.
#[cycle(expressions)]
pub fn put_subs<S: Sink>(
    subs: &[Sub],
    gap: bool,
    spaced: bool,
    margin: Margin,
    reached: Reached,
    sink: &mut S,
) -> Reached
    requires { margin.indent ≤ 40 }
    ensures { Put (laid margin) reached result (S.taken sink.old) (S.taken sink.new) (S.faults sink.old) (S.faults sink.new) (bracketed gap (map sub_pieces subs.now) spaced) }
{
    let reached = put_mark(Mark::Open, spaced, margin, reached, sink);
    let reached = put_list(subs, gap, margin, reached, sink);
    put_mark(Mark::Close, false, margin, reached, sink)
}

#[cycle(expressions)]
fn put_list<S: Sink>(
    subs: &[Sub],
    gap: bool,
    margin: Margin,
    reached: Reached,
    sink: &mut S,
) -> Reached
    requires { margin.indent ≤ 40 }
    ensures { Put (laid margin) reached result (S.taken sink.old) (S.taken sink.new) (S.faults sink.old) (S.faults sink.new) (items gap (map sub_pieces subs.now) false) }
{
    let Some((first, rest)) = subs.split_first() else {
        return reached;
    };
    let mut reached = put_sub(first, false, margin, reached, sink);
    for sub in rest {
        reached = put_mark(Mark::Comma, false, margin, reached, sink);
        reached = put_sub(sub, gap, margin, reached, sink);
    }
    reached
}

#[cycle(expressions)]
fn put_part<S: Sink>(
    part: &Boxed<Expr>,
    spaced: bool,
    margin: Margin,
    reached: Reached,
    sink: &mut S,
) -> Reached
    requires { margin.indent ≤ 40 }
    ensures { Put (laid margin) reached result (S.taken sink.old) (S.taken sink.new) (S.faults sink.old) (S.faults sink.new) (expr_pieces part.now spaced) }
{
    put_expr(part.get(), spaced, margin, reached, sink)
}

/// Puts the right operand of an operator.
#[cycle(expressions)]
fn put_right<S: Sink>(
    op: Op,
    part: &Boxed<Expr>,
    margin: Margin,
    reached: Reached,
    sink: &mut S,
) -> Reached
    requires { margin.indent ≤ 40 }
    ensures { Put (laid margin) reached result (S.taken sink.old) (S.taken sink.new) (S.faults sink.old) (S.faults sink.new) (expr_pieces part.now (loose op)) }
{
    put_expr(part.get(), is_loose(op), margin, reached, sink)
}

/// Puts the operand of a unary operator.
#[cycle(expressions)]
fn put_operand<S: Sink>(
    op: Unary,
    part: &Boxed<Expr>,
    margin: Margin,
    reached: Reached,
    sink: &mut S,
) -> Reached
    requires { margin.indent ≤ 40 }
    ensures { Put (laid margin) reached result (S.taken sink.old) (S.taken sink.new) (S.faults sink.old) (S.faults sink.new) (expr_pieces part.now (unary_loose op)) }
{
    put_expr(part.get(), is_word_like(op), margin, reached, sink)
}

fn put_op<S: Sink>(op: Op, margin: Margin, reached: Reached, sink: &mut S) -> Reached
    requires { margin.indent ≤ 40 }
    ensures { Put (laid margin) reached result (S.taken sink.old) (S.taken sink.new) (S.faults sink.old) (S.faults sink.new) (sign (loose op) (op_mark op)) }
{
    put_mark(op_token(op), is_loose(op), margin, reached, sink)
}

fn put_unary<S: Sink>(
    op: Unary,
    spaced: bool,
    margin: Margin,
    reached: Reached,
    sink: &mut S,
) -> Reached
    requires { margin.indent ≤ 40 }
    ensures { Put (laid margin) reached result (S.taken sink.old) (S.taken sink.new) (S.faults sink.old) (S.faults sink.new) (sign spaced (unary_mark op)) }
{
    put_mark(unary_token(op), spaced, margin, reached, sink)
}
