//! The expressions that a step reads.
ghost use Rattle.std.specs.Prelude.{◌≡◌, ◌++◌, map, flat_map, IfOk, OnOk};
ghost use Rattle.sound_programs.specs.Placing.{placed_expr, placed_head, placed_range, placed_subs};
ghost use Rattle.sound_programs.specs.Walks.{beside, in_head, in_range, in_subscripts, parts as parts_in, parts_read as read_parts, ranges_of, read_by as read_in};
ghost use Rattle.unit_steps.specs.Acts.{cases_placed};
ghost use Rattle.unit_steps.specs.Behind.{exprs, placed_step};

use crate::expressions::{note_if_any, note_parts, note_subscripts};
use crate::step::Step;
use fort_tree::{Case, Expr, Head, NoMemory, Range};
use std::alloc::Global;

/// Adds what stands in parentheses behind the name of a left side.
fn note_beside<'a>(left: &'a Expr, into: &mut Vec<&'a Expr>) -> Result<(), NoMemory>
    ensures { OnOk result (exprs into.new.items ≡ exprs into.old.items ++ beside (placed_expr left.now)) }
{
    match left {
        Expr::Ref(_, Some(subs), _) => note_subscripts(subs.items(), into),
        Expr::Ref(_, None, _)
        | Expr::Number(..)
        | Expr::Truth(..)
        | Expr::One(..)
        | Expr::Two(..)
        | Expr::Paren(..) => Ok(()),
    }
}

fn note_range<'a>(range: &'a Range, into: &mut Vec<&'a Expr>) -> Result<(), NoMemory>
    ensures { OnOk result (exprs into.new.items ≡ exprs into.old.items ++ in_range (placed_range range.now)) }
{
    match range {
        Range::One(expr) => Ok(into.push(expr)?),
        Range::Span(lower, upper) => {
            note_if_any(lower, into)?;
            note_if_any(upper, into)
        }
    }
}

fn note_ranges<'a>(ranges: &'a [Range], into: &mut Vec<&'a Expr>) -> Result<(), NoMemory>
    ensures { OnOk result (exprs into.new.items ≡ exprs into.old.items ++ flat_map in_range (map placed_range ranges.now)) }
{
    for range in ranges {
        note_range(range, into)?;
    }
    Ok(())
}

fn note_cases<'a>(cases: &'a [Case], into: &mut Vec<&'a Expr>) -> Result<(), NoMemory>
    ensures { OnOk result (exprs into.new.items ≡ exprs into.old.items ++ flat_map in_range (ranges_of (cases_placed cases.now))) }
{
    for case in cases {
        note_ranges(case.ranges.items(), into)?;
    }
    Ok(())
}

fn note_head<'a>(head: &'a Head, into: &mut Vec<&'a Expr>) -> Result<(), NoMemory>
    ensures { OnOk result (exprs into.new.items ≡ exprs into.old.items ++ in_head (placed_head head.now)) }
{
    into.push(&head.from)?;
    into.push(&head.to)?;
    note_if_any(&head.step, into)
}

/// Adds the whole expressions that the step reads, in the order of the text.
///
/// # Errors
/// `NoMemory` only where memory was refused.
pub fn note_read_by<'a>(step: Step<'a>, into: &mut Vec<&'a Expr>) -> Result<(), NoMemory>
    ensures { OnOk result (exprs into.new.items ≡ exprs into.old.items ++ read_in (placed_step step.entry)) }
{
    match step {
        Step::Assigns(left, right) => {
            note_beside(left, into)?;
            Ok(into.push(right)?)
        }
        Step::Calls(_, args) => note_subscripts(args, into),
        Step::Tests(test) => Ok(into.push(test)?),
        Step::Chooses(on, cases) => {
            into.push(on)?;
            note_cases(cases, into)
        }
        Step::Repeats(head, _) => note_head(head, into),
    }
}

/// The whole expressions that the step reads, in the order of the text.
///
/// # Errors
/// `NoMemory` only where memory was refused.
pub fn read_by<'a>(alloc: Global, step: Step<'a>) -> Result<Vec<&'a Expr>, NoMemory>
    ensures { IfOk result (λ list. exprs list.items ≡ read_in (placed_step step.entry)) }
{
    let mut list = Vec::new(alloc);
    note_read_by(step, &mut list)?;
    Ok(list)
}

/// All that the step reads, part by part, in the order of the text.
///
/// # Errors
/// `NoMemory` only where memory was refused.
pub fn parts_read<'a>(alloc: Global, step: Step<'a>) -> Result<Vec<&'a Expr>, NoMemory>
    ensures { IfOk result (λ list. exprs list.items ≡ read_parts (placed_step step.entry)) }
{
    let whole = read_by(alloc, step)?;
    let mut list = Vec::new(alloc);
    for expr in whole {
        note_parts(expr, &mut list)?;
    }
    Ok(list)
}
