//! The ranges of CASE.
ghost use Rattle.std.specs.Prelude.{◌≡◌, ◌∷◌, OnOk};
ghost use Rattle.fort_expr.specs.Values.{operand};
ghost use Rattle.fort_grammar.specs.declared.table.Action.TheVariants as act;
ghost use Rattle.fort_stmt.specs.Values.{range, range_on, range_rest, rest_two};

use crate::build::expressions::{push_both, push_bounds};
use crate::build::{actions, state};
use crate::value::Draft;
use fort_expr::{Value, pop_bound, pop_operand, pop_word};
use fort_grammar::{Action, Stack};
use fort_tree::{NoMemory, Range, Seq, Statement};
use std::alloc::Global;
use std::mem;

fn pop_range(values: &mut Stack<Value>) -> Range
    ensures value { result ≡ range values.old }
    ensures below { values.new ≡ range_rest values.old }
{
    match values.pop() {
        Some(Value::Operand(expr, _)) => Range::One(expr),
        Some(Value::Bound(upper)) => Range::Span(pop_bound(values), upper),
        _ => Range::Span(pop_bound(values), None),
    }
}

fn to_value(values: &mut Stack<Value>) -> Result<(), NoMemory>
    ensures { OnOk result (values.new ≡ Value.Bound (Some (operand values.old)) ∷ Value.Bound None ∷ rest_two values.old) }
{
    let (upper, _at) = pop_operand(values);
    let _colon = pop_word(values);
    push_bounds(values, None, Some(upper))
}

fn first_range(alloc: Global, draft: &mut Draft) -> Result<(), NoMemory>
    ensures { OnOk result (draft.new ≡ range_on act.FirstRange draft.old) }
{
    let range = pop_range(&mut draft.values);
    draft.ranges = Seq::new(alloc);
    draft.ranges.push(range)
}

fn next_range(draft: &mut Draft) -> Result<(), NoMemory>
    ensures { OnOk result (draft.new ≡ range_on act.NextRange draft.old) }
{
    let range = pop_range(&mut draft.values);
    let _comma = pop_word(&mut draft.values);
    draft.ranges.push(range)
}

fn case(alloc: Global, draft: &mut Draft)
    ensures { draft.new ≡ range_on act.CaseRanges draft.old }
{
    let ranges = mem::replace(&mut draft.ranges, Seq::new(alloc));
    state(draft, Statement::Case(ranges));
}

/// Does an action of a CASE, or what another action does.
pub fn build(alloc: Global, action: Action, draft: &mut Draft) -> Result<(), NoMemory>
    ensures { OnOk result (draft.new ≡ range_on action draft.old) }
{
    match action {
        Action::OneValue => Ok(()),
        Action::ToValue => to_value(&mut draft.values),
        Action::Span => push_both(&mut draft.values),
        Action::FirstRange => first_range(alloc, draft),
        Action::NextRange => next_range(draft),
        Action::CaseRanges => {
            case(alloc, draft);
            Ok(())
        }
        Action::CaseDefault => {
            state(draft, Statement::CaseDefault);
            Ok(())
        }
        _ => actions::build(alloc, action, draft),
    }
}
