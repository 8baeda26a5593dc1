//! Statements of one row.
ghost use Rattle.std.specs.Prelude.{◌≡◌, ◌≤◌};
ghost use Rattle.fort_spell.specs.Pieces.{or_none};
ghost use Rattle.fort_spell.specs.Rows.{laid, one_row};
ghost use Rattle.fort_spell.specs.Statements.{argument_pieces, assign_pieces, call_pieces, case_pieces, do_pieces, else_if_pieces, if_pieces, is_some, print, select_pieces, short_if, step_pieces, then_pieces};
ghost use Rattle.fort_spell.specs.Stream.{Put, rows_shown};

use crate::expressions::{put_expr, put_subs};
use crate::line::Margin;
use crate::lists::put_bracketed;
use crate::mark::Mark;
use crate::put::{Reached, close_row, open_row, put_mark, put_name, put_word};
use fort_tree::{Expr, Head, Name, Range, Stmt, Sub};
use outside::{Failed, Sink};

/// Puts an assignment.
pub fn put_assign<S: Sink>(
    left: &Expr,
    right: &Expr,
    spaced: bool,
    margin: Margin,
    reached: Reached,
    sink: &mut S,
) -> Reached
    requires { margin.indent ≤ 40 }
    ensures { Put (laid margin) reached result (S.taken sink.old) (S.taken sink.new) (S.faults sink.old) (S.faults sink.new) (assign_pieces left.now right.now spaced) }
{
    let reached = put_expr(left, spaced, margin, reached, sink);
    let reached = put_mark(Mark::Assign, true, margin, reached, sink);
    put_expr(right, true, margin, reached, sink)
}

/// Puts the arguments of a CALL, where there are any.
fn put_arguments<S: Sink>(args: &[Sub], margin: Margin, reached: Reached, sink: &mut S) -> Reached
    requires { margin.indent ≤ 40 }
    ensures { Put (laid margin) reached result (S.taken sink.old) (S.taken sink.new) (S.faults sink.old) (S.faults sink.new) (argument_pieces args.now) }
{
    if args.is_empty() {
        return reached;
    }
    put_subs(args, true, false, margin, reached, sink)
}

/// Puts a CALL.
pub fn put_call<S: Sink>(
    name: &Name,
    args: &[Sub],
    spaced: bool,
    margin: Margin,
    reached: Reached,
    sink: &mut S,
) -> Reached
    requires { margin.indent ≤ 40 }
    ensures { Put (laid margin) reached result (S.taken sink.old) (S.taken sink.new) (S.faults sink.old) (S.faults sink.new) (call_pieces name.now args.now spaced) }
{
    let reached = put_word(b"call", spaced, margin, reached, sink);
    let reached = put_name(name, true, margin, reached, sink);
    put_arguments(args, margin, reached, sink)
}

/// Whether the statement may stand in a one-line IF.
pub fn is_action(stmt: &Stmt) -> bool
    ensures { result ≡ is_some (print stmt.now).action }
{
    match stmt {
        Stmt::Assign { .. } | Stmt::Exit(_) | Stmt::Cycle(_) | Stmt::Return(_) => true,
        Stmt::Call { forward, .. } => !*forward,
        _ => false,
    }
}

/// Puts a statement that may stand in a one-line IF. Of another one nothing is put.
pub fn put_action<S: Sink>(
    stmt: &Stmt,
    spaced: bool,
    margin: Margin,
    reached: Reached,
    sink: &mut S,
) -> Reached
    requires { margin.indent ≤ 40 }
    ensures { Put (laid margin) reached result (S.taken sink.old) (S.taken sink.new) (S.faults sink.old) (S.faults sink.new) (or_none (print stmt.now).action spaced) }
{
    match stmt {
        Stmt::Assign { left, right, .. } => {
            put_assign(left, right, spaced, margin, reached, sink)
        }
        Stmt::Call {
            name,
            args,
            forward: false,
            ..
        } => put_call(&name.name, args.items(), spaced, margin, reached, sink),
        Stmt::Exit(_) => put_word(b"exit", spaced, margin, reached, sink),
        Stmt::Cycle(_) => put_word(b"cycle", spaced, margin, reached, sink),
        Stmt::Return(_) => put_word(b"return", spaced, margin, reached, sink),
        _ => reached,
    }
}

/// Puts `if` and its test.
pub fn put_if<S: Sink>(
    test: &Expr,
    spaced: bool,
    margin: Margin,
    reached: Reached,
    sink: &mut S,
) -> Reached
    requires { margin.indent ≤ 40 }
    ensures { Put (laid margin) reached result (S.taken sink.old) (S.taken sink.new) (S.faults sink.old) (S.faults sink.new) (if_pieces test.now spaced) }
{
    let reached = put_word(b"if", spaced, margin, reached, sink);
    let reached = put_mark(Mark::Open, true, margin, reached, sink);
    let reached = put_expr(test, false, margin, reached, sink);
    put_mark(Mark::Close, false, margin, reached, sink)
}

/// Puts the row that opens an IF.
pub fn put_then_row<S: Sink>(
    test: &Expr,
    indent: usize,
    so_far: Result<(), Failed>,
    sink: &mut S,
) -> Result<(), Failed>
    requires { indent ≤ 40 }
    ensures { Put rows_shown so_far result (S.taken sink.old) (S.taken sink.new) (S.faults sink.old) (S.faults sink.new) (one_row (then_pieces test.now) indent) }
{
    let margin = Margin::of_statement(indent);
    let reached = open_row(margin, so_far, sink);
    let reached = put_if(test, false, margin, reached, sink);
    let reached = put_word(b"then", true, margin, reached, sink);
    close_row(reached, sink)
}

/// Puts an ELSE IF row.
pub fn put_else_if_row<S: Sink>(
    test: &Expr,
    indent: usize,
    so_far: Result<(), Failed>,
    sink: &mut S,
) -> Result<(), Failed>
    requires { indent ≤ 40 }
    ensures { Put rows_shown so_far result (S.taken sink.old) (S.taken sink.new) (S.faults sink.old) (S.faults sink.new) (one_row (else_if_pieces test.now) indent) }
{
    let margin = Margin::of_statement(indent);
    let reached = open_row(margin, so_far, sink);
    let reached = put_word(b"else", false, margin, reached, sink);
    let reached = put_if(test, true, margin, reached, sink);
    let reached = put_word(b"then", true, margin, reached, sink);
    close_row(reached, sink)
}

/// Puts a one-line IF.
pub fn put_short_if<S: Sink>(
    test: &Expr,
    action: &Stmt,
    indent: usize,
    so_far: Result<(), Failed>,
    sink: &mut S,
) -> Result<(), Failed>
    requires { indent ≤ 40 }
    ensures { Put rows_shown so_far result (S.taken sink.old) (S.taken sink.new) (S.faults sink.old) (S.faults sink.new) (one_row (short_if test.now (print action.now).action) indent) }
{
    let margin = Margin::of_statement(indent);
    let reached = open_row(margin, so_far, sink);
    let reached = put_if(test, false, margin, reached, sink);
    let reached = put_action(action, true, margin, reached, sink);
    close_row(reached, sink)
}

/// Puts an assignment's row.
pub fn put_assign_row<S: Sink>(
    left: &Expr,
    right: &Expr,
    indent: usize,
    so_far: Result<(), Failed>,
    sink: &mut S,
) -> Result<(), Failed>
    requires { indent ≤ 40 }
    ensures { Put rows_shown so_far result (S.taken sink.old) (S.taken sink.new) (S.faults sink.old) (S.faults sink.new) (one_row (assign_pieces left.now right.now) indent) }
{
    let margin = Margin::of_statement(indent);
    let reached = open_row(margin, so_far, sink);
    let reached = put_assign(left, right, false, margin, reached, sink);
    close_row(reached, sink)
}

/// Puts a CALL's row.
pub fn put_call_row<S: Sink>(
    name: &Name,
    args: &[Sub],
    indent: usize,
    so_far: Result<(), Failed>,
    sink: &mut S,
) -> Result<(), Failed>
    requires { indent ≤ 40 }
    ensures { Put rows_shown so_far result (S.taken sink.old) (S.taken sink.new) (S.faults sink.old) (S.faults sink.new) (one_row (call_pieces name.now args.now) indent) }
{
    let margin = Margin::of_statement(indent);
    let reached = open_row(margin, so_far, sink);
    let reached = put_call(name, args, false, margin, reached, sink);
    close_row(reached, sink)
}

/// Puts the step of a DO, where one is given.
fn put_step<S: Sink>(step: &Option<Expr>, margin: Margin, reached: Reached, sink: &mut S) -> Reached
    requires { margin.indent ≤ 40 }
    ensures { Put (laid margin) reached result (S.taken sink.old) (S.taken sink.new) (S.faults sink.old) (S.faults sink.new) (step_pieces step.now) }
{
    match step {
        None => reached,
        Some(step) => {
            let reached = put_mark(Mark::Comma, false, margin, reached, sink);
            put_expr(step, true, margin, reached, sink)
        }
    }
}

/// Puts the row that opens a DO.
pub fn put_do_row<S: Sink>(
    head: &Head,
    indent: usize,
    so_far: Result<(), Failed>,
    sink: &mut S,
) -> Result<(), Failed>
    requires { indent ≤ 40 }
    ensures { Put rows_shown so_far result (S.taken sink.old) (S.taken sink.new) (S.faults sink.old) (S.faults sink.new) (one_row (do_pieces head.now) indent) }
{
    let margin = Margin::of_statement(indent);
    let reached = open_row(margin, so_far, sink);
    let reached = put_word(b"do", false, margin, reached, sink);
    let reached = put_name(&head.var, true, margin, reached, sink);
    let reached = put_mark(Mark::Assign, true, margin, reached, sink);
    let reached = put_expr(&head.from, true, margin, reached, sink);
    let reached = put_mark(Mark::Comma, false, margin, reached, sink);
    let reached = put_expr(&head.to, true, margin, reached, sink);
    let reached = put_step(&head.step, margin, reached, sink);
    close_row(reached, sink)
}

/// Puts the row that opens a SELECT.
pub fn put_select_row<S: Sink>(
    on: &Expr,
    indent: usize,
    so_far: Result<(), Failed>,
    sink: &mut S,
) -> Result<(), Failed>
    requires { indent ≤ 40 }
    ensures { Put rows_shown so_far result (S.taken sink.old) (S.taken sink.new) (S.faults sink.old) (S.faults sink.new) (one_row (select_pieces on.now) indent) }
{
    let margin = Margin::of_statement(indent);
    let reached = open_row(margin, so_far, sink);
    let reached = put_word(b"select", false, margin, reached, sink);
    let reached = put_word(b"case", true, margin, reached, sink);
    let reached = put_mark(Mark::Open, true, margin, reached, sink);
    let reached = put_expr(on, false, margin, reached, sink);
    let reached = put_mark(Mark::Close, false, margin, reached, sink);
    close_row(reached, sink)
}

/// Puts a CASE row.
pub fn put_case_row<S: Sink>(
    ranges: &[Range],
    indent: usize,
    so_far: Result<(), Failed>,
    sink: &mut S,
) -> Result<(), Failed>
    requires { indent ≤ 40 }
    ensures { Put rows_shown so_far result (S.taken sink.old) (S.taken sink.new) (S.faults sink.old) (S.faults sink.new) (one_row (case_pieces ranges.now) indent) }
{
    let margin = Margin::of_statement(indent);
    let reached = open_row(margin, so_far, sink);
    let reached = put_word(b"case", false, margin, reached, sink);
    let reached = put_bracketed(ranges, true, true, margin, reached, sink);
    close_row(reached, sink)
}
