//! Statements and their blocks (ISO/IEC 1539-1:2018 11.1).
ghost use Rattle.std.specs.Prelude.{◌≡◌, ◌≤◌, None, Some, map, true};
ghost use Rattle.fort_spell.specs.Rows.{Starts, deeper as deeper_than, laid};
ghost use Rattle.fort_spell.specs.Statements.{arm_rows, case_rows, default_rows, else_rows, is_one_line, is_some, lone, loop_mark_rows, mark_rows, one_line_rows, print, print_arm, print_case, private_list, private_pieces, stmts_rows};
ghost use Rattle.fort_spell.specs.Stream.{Put, rows_shown};

use crate::actions::{
    is_action, put_assign_row, put_call_row, put_case_row, put_do_row, put_else_if_row,
    put_select_row, put_short_if, put_then_row,
};
use crate::line::{Margin, Sentinel};
use crate::lists::{put_bracketed, put_pair_row, put_word_row};
use crate::put::{Reached, close_row, open_row, put_word};
use fort_tree::{Arm, Case, Directive, DirectiveWord, Name, Stmt};
use outside::{Failed, Sink};

/// The indentation of what stands in a part: two columns more, and at most 40.
pub fn deeper(indent: usize) -> usize
    requires { indent ≤ 40 }
    ensures value { result ≡ deeper_than indent }
    ensures most { result ≤ 40 }
{
    (indent + 2).min(40)
}

/// Puts the private list of a mark line, where it has names.
fn put_private<S: Sink>(names: &[Name], margin: Margin, reached: Reached, sink: &mut S) -> Reached
    requires { margin.indent ≤ 40 }
    ensures { Put (laid margin) reached result (S.taken sink.old) (S.taken sink.new) (S.faults sink.old) (S.faults sink.new) (private_pieces names.now) }
{
    if names.is_empty() {
        return reached;
    }
    put_private_names(names, margin, reached, sink)
}

fn put_private_names<S: Sink>(
    names: &[Name],
    margin: Margin,
    reached: Reached,
    sink: &mut S,
) -> Reached
    requires { margin.indent ≤ 40 }
    ensures { Put (laid margin) reached result (S.taken sink.old) (S.taken sink.new) (S.faults sink.old) (S.faults sink.new) (private_list names.now) }
{
    let reached = put_word(b"private", true, margin, reached, sink);
    put_bracketed(names, true, false, margin, reached, sink)
}

/// Puts the mark line of an OpenMP loop.
fn put_open_mp<S: Sink>(
    names: &[Name],
    indent: usize,
    so_far: Result<(), Failed>,
    sink: &mut S,
) -> Result<(), Failed>
    requires { indent ≤ 40 }
    ensures { Put rows_shown so_far result (S.taken sink.old) (S.taken sink.new) (S.faults sink.old) (S.faults sink.new) (loop_mark_rows DirectiveWord.OpenMpLoop names.now indent) }
{
    let margin = Margin {
        indent,
        sentinel: Sentinel::OpenMp,
    };
    let reached = open_row(margin, so_far, sink);
    let reached = put_word(b"parallel", false, margin, reached, sink);
    let reached = put_word(b"do", true, margin, reached, sink);
    let reached = put_private(names, margin, reached, sink);
    close_row(reached, sink)
}

/// Puts the mark line of an OpenACC loop.
fn put_open_acc<S: Sink>(
    names: &[Name],
    indent: usize,
    so_far: Result<(), Failed>,
    sink: &mut S,
) -> Result<(), Failed>
    requires { indent ≤ 40 }
    ensures { Put rows_shown so_far result (S.taken sink.old) (S.taken sink.new) (S.faults sink.old) (S.faults sink.new) (loop_mark_rows DirectiveWord.OpenAccLoop names.now indent) }
{
    let margin = Margin {
        indent,
        sentinel: Sentinel::OpenAcc,
    };
    let reached = open_row(margin, so_far, sink);
    let reached = put_word(b"parallel", false, margin, reached, sink);
    let reached = put_word(b"loop", true, margin, reached, sink);
    let reached = put_word(b"gang", true, margin, reached, sink);
    let reached = put_word(b"vector", true, margin, reached, sink);
    let reached = put_private(names, margin, reached, sink);
    close_row(reached, sink)
}

/// Puts the mark line of a loop. Another directive has none.
fn put_loop_mark<S: Sink>(
    mark: &Directive,
    indent: usize,
    so_far: Result<(), Failed>,
    sink: &mut S,
) -> Result<(), Failed>
    requires { indent ≤ 40 }
    ensures { Put rows_shown so_far result (S.taken sink.old) (S.taken sink.new) (S.faults sink.old) (S.faults sink.new) (loop_mark_rows mark.now.word mark.now.names indent) }
{
    match mark.word {
        DirectiveWord::OpenMpLoop => put_open_mp(mark.names.items(), indent, so_far, sink),
        DirectiveWord::OpenAccLoop => put_open_acc(mark.names.items(), indent, so_far, sink),
        _ => so_far,
    }
}

fn put_mark_row<S: Sink>(
    mark: &Option<Directive>,
    indent: usize,
    so_far: Result<(), Failed>,
    sink: &mut S,
) -> Result<(), Failed>
    requires { indent ≤ 40 }
    ensures { Put rows_shown so_far result (S.taken sink.old) (S.taken sink.new) (S.faults sink.old) (S.faults sink.new) (mark_rows mark.now indent) }
{
    match mark {
        None => so_far,
        Some(mark) => put_loop_mark(mark, indent, so_far, sink),
    }
}

/// Whether an IF of these arms and no ELSE is written in one line.
fn is_short(arms: &[Arm]) -> bool
    ensures { result ≡ is_one_line (map print_arm arms.now) None }
{
    let Some((arm, rest)) = arms.split_first() else {
        return false;
    };
    if !rest.is_empty() {
        return false;
    }
    is_lone(arm.body.items())
}

/// Whether a block is one statement that may stand in a one-line IF.
fn is_lone(body: &[Stmt]) -> bool
    ensures { result ≡ is_some (lone (map print body.now)) }
{
    let Some((first, rest)) = body.split_first() else {
        return false;
    };
    rest.is_empty() && is_action(first)
}

/// Puts an IF of one line.
fn put_one_line<S: Sink>(
    arms: &[Arm],
    indent: usize,
    so_far: Result<(), Failed>,
    sink: &mut S,
) -> Result<(), Failed>
    requires indent { indent ≤ 40 }
    requires short { is_one_line (map print_arm arms.now) None ≡ true }
    ensures { Put rows_shown so_far result (S.taken sink.old) (S.taken sink.new) (S.faults sink.old) (S.faults sink.new) (one_line_rows (map print_arm arms.now) indent) }
{
    let arm = &arms[0];
    put_short_if(&arm.test, &arm.body.items()[0], indent, so_far, sink)
}

/// Puts a statement.
#[cycle(statements)]
pub fn put_stmt<S: Sink>(
    stmt: &Stmt,
    indent: usize,
    so_far: Result<(), Failed>,
    sink: &mut S,
) -> Result<(), Failed>
    requires { indent ≤ 40 }
    ensures { Put rows_shown so_far result (S.taken sink.old) (S.taken sink.new) (S.faults sink.old) (S.faults sink.new) ((print stmt.now).rows indent) }
{
    match stmt {
        Stmt::Assign { left, right, .. } => put_assign_row(left, right, indent, so_far, sink),
        Stmt::Call { name, args, .. } => {
            put_call_row(&name.name, args.items(), indent, so_far, sink)
        }
        Stmt::If { arms, other, .. } => match other {
            None => {
                if is_short(arms.items()) {
                    put_one_line(arms.items(), indent, so_far, sink)
                } else {
                    let so_far = put_arms(arms.items(), indent, so_far, sink);
                    put_pair_row(b"end", b"if", indent, so_far, sink)
                }
            }
            Some(body) => {
                let so_far = put_arms(arms.items(), indent, so_far, sink);
                let so_far = put_else(body.items(), indent, so_far, sink);
                put_pair_row(b"end", b"if", indent, so_far, sink)
            }
        },
        Stmt::Select {
            on,
            arms,
            other,
            ..
        } => {
            let so_far = put_select_row(on, indent, so_far, sink);
            let so_far = put_cases(arms.items(), indent, so_far, sink);
            match other {
                None => put_pair_row(b"end", b"select", indent, so_far, sink),
                Some(body) => {
                    let so_far = put_default(body.items(), indent, so_far, sink);
                    put_pair_row(b"end", b"select", indent, so_far, sink)
                }
            }
        }
        Stmt::Loop {
            head,
            body,
            mark,
            ..
        } => {
            let so_far = put_mark_row(mark, indent, so_far, sink);
            let so_far = put_do_row(head, indent, so_far, sink);
            let so_far = put_inner(body.items(), indent, so_far, sink);
            put_pair_row(b"end", b"do", indent, so_far, sink)
        }
        Stmt::Block { body, .. } | Stmt::Piece(body) => {
            put_body(body.items(), indent, so_far, sink)
        }
        Stmt::Exit(_) => put_word_row(b"exit", indent, so_far, sink),
        Stmt::Cycle(_) => put_word_row(b"cycle", indent, so_far, sink),
        Stmt::Return(_) => put_word_row(b"return", indent, so_far, sink),
    }
}

/// Puts statements.
#[cycle(statements)]
pub fn put_body<S: Sink>(
    body: &[Stmt],
    indent: usize,
    so_far: Result<(), Failed>,
    sink: &mut S,
) -> Result<(), Failed>
    requires { indent ≤ 40 }
    ensures { Put rows_shown so_far result (S.taken sink.old) (S.taken sink.new) (S.faults sink.old) (S.faults sink.new) (stmts_rows body.now indent) }
{
    let mut so_far = so_far;
    for stmt in body {
        so_far = put_stmt(stmt, indent, so_far, sink);
    }
    so_far
}

/// Puts the statements of a block inside.
#[cycle(statements)]
fn put_inner<S: Sink>(
    body: &[Stmt],
    indent: usize,
    so_far: Result<(), Failed>,
    sink: &mut S,
) -> Result<(), Failed>
    requires { indent ≤ 40 }
    ensures { Put rows_shown so_far result (S.taken sink.old) (S.taken sink.new) (S.faults sink.old) (S.faults sink.new) (stmts_rows body.now (deeper_than indent)) }
{
    put_body(body, deeper(indent), so_far, sink)
}

/// Puts the arms of an IF.
#[cycle(statements)]
fn put_arms<S: Sink>(
    arms: &[Arm],
    indent: usize,
    so_far: Result<(), Failed>,
    sink: &mut S,
) -> Result<(), Failed>
    requires { indent ≤ 40 }
    ensures { Put rows_shown so_far result (S.taken sink.old) (S.taken sink.new) (S.faults sink.old) (S.faults sink.new) (arm_rows (map print_arm arms.now) indent) }
{
    let Some((first, rest)) = arms.split_first() else {
        return so_far;
    };
    let so_far = put_then_row(&first.test, indent, so_far, sink);
    let mut so_far = put_inner(first.body.items(), indent, so_far, sink);
    for arm in rest {
        so_far = put_else_if_row(&arm.test, indent, so_far, sink);
        so_far = put_inner(arm.body.items(), indent, so_far, sink);
    }
    so_far
}

/// Puts ELSE and its block.
#[cycle(statements)]
fn put_else<S: Sink>(
    body: &[Stmt],
    indent: usize,
    so_far: Result<(), Failed>,
    sink: &mut S,
) -> Result<(), Failed>
    requires { indent ≤ 40 }
    ensures { Put rows_shown so_far result (S.taken sink.old) (S.taken sink.new) (S.faults sink.old) (S.faults sink.new) (else_rows (Some (map print body.now)) indent) }
{
    let so_far = put_word_row(b"else", indent, so_far, sink);
    put_inner(body, indent, so_far, sink)
}

/// Puts the arms of a SELECT.
#[cycle(statements)]
fn put_cases<S: Sink>(
    cases: &[Case],
    indent: usize,
    so_far: Result<(), Failed>,
    sink: &mut S,
) -> Result<(), Failed>
    requires { indent ≤ 40 }
    ensures { Put rows_shown so_far result (S.taken sink.old) (S.taken sink.new) (S.faults sink.old) (S.faults sink.new) (case_rows (map print_case cases.now) indent) }
{
    let mut so_far = so_far;
    for case in cases {
        so_far = put_case_row(case.ranges.items(), indent, so_far, sink);
        so_far = put_inner(case.body.items(), indent, so_far, sink);
    }
    so_far
}

/// Puts CASE DEFAULT and its block.
#[cycle(statements)]
fn put_default<S: Sink>(
    body: &[Stmt],
    indent: usize,
    so_far: Result<(), Failed>,
    sink: &mut S,
) -> Result<(), Failed>
    requires { indent ≤ 40 }
    ensures { Put rows_shown so_far result (S.taken sink.old) (S.taken sink.new) (S.faults sink.old) (S.faults sink.new) (default_rows (Some (map print body.now)) indent) }
{
    let so_far = put_pair_row(b"case", b"default", indent, so_far, sink);
    put_inner(body, indent, so_far, sink)
}

/// Whether a statement has rows. A block has those of its statements alone.
#[cycle(written)]
fn is_written(stmt: &Stmt) -> bool
    ensures { Starts result (print stmt.now).rows }
{
    match stmt {
        Stmt::Block { body, .. } | Stmt::Piece(body) => are_written(body.items()),
        _ => true,
    }
}

/// Whether statements have rows.
#[cycle(written)]
pub fn are_written(body: &[Stmt]) -> bool
    ensures { Starts result (stmts_rows body.now) }
{
    for stmt in body {
        if is_written(stmt) {
            return true;
        }
    }
    false
}
