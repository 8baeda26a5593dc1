//! What begins, divides and ends IF, DO and SELECT.
ghost use Rattle.std.specs.Prelude.{◌≡◌, ◌∷◌, OnOk};
ghost use Rattle.fort_expr.specs.Values.{operand, rest};
ghost use Rattle.fort_grammar.specs.declared.table.Action.TheVariants as act;
ghost use Rattle.fort_stmt.specs.Values.{block_on, head, rest_five, rest_two};

use crate::build::expressions::build_as;
use crate::build::pops::{pop_closed, pop_named};
use crate::build::state;
use crate::value::Draft;
use fort_expr::{Value, pop_bound, pop_operand, pop_word};
use fort_grammar::{Action, Stack};
use fort_tree::{Boxed, Head, Named, NoMemory, Statement};
use std::alloc::Global;
use std::mem;

fn if_then(draft: &mut Draft)
    ensures { draft.new ≡ block_on act.IfThen draft.old }
{
    let _then = pop_word(&mut draft.values);
    let test = pop_closed(&mut draft.values);
    state(draft, Statement::IfThen(test));
}

fn if_action(alloc: Global, draft: &mut Draft) -> Result<(), NoMemory>
    ensures { OnOk result (draft.new ≡ block_on act.IfAction draft.old) }
{
    let test = pop_closed(&mut draft.values);
    let action = mem::replace(&mut draft.statement, Statement::Contains);
    let action = Boxed::new(alloc, action)?;
    let at = draft.at;
    state(draft, Statement::IfAction { test, at, action });
    Ok(())
}

fn else_if(draft: &mut Draft)
    ensures { draft.new ≡ block_on act.ElseIf draft.old }
{
    let _then = pop_word(&mut draft.values);
    let test = pop_closed(&mut draft.values);
    state(draft, Statement::ElseIf(test));
}

/// Takes the head of a DO: its variable, `=`, the start, a comma, the end and the step.
fn pop_head(values: &mut Stack<Value>) -> Head
    ensures value { result ≡ head values.old }
    ensures below { values.new ≡ rest (rest_five values.old) }
{
    let step = pop_bound(values);
    let (to, _at) = pop_operand(values);
    let from = pop_closed(values);
    let _equals = pop_word(values);
    let Named { name, at } = pop_named(values);
    Head {
        var: name,
        at,
        from,
        to,
        step,
    }
}

fn a_do(draft: &mut Draft)
    ensures { draft.new ≡ block_on act.Do draft.old }
{
    let head = pop_head(&mut draft.values);
    state(draft, Statement::Do(head));
}

fn some_step(values: &mut Stack<Value>) -> Result<(), NoMemory>
    ensures { OnOk result (values.new ≡ Value.Bound (Some (operand values.old)) ∷ rest_two values.old) }
{
    let (step, _at) = pop_operand(values);
    let _comma = pop_word(values);
    values.push(Value::Bound(Some(step)))
}

fn select(draft: &mut Draft)
    ensures { draft.new ≡ block_on act.Select draft.old }
{
    let on = pop_closed(&mut draft.values);
    state(draft, Statement::Select(on));
}

/// Does an action of an IF, a DO or a SELECT, or what an action of an expression does.
pub fn build(alloc: Global, action: Action, draft: &mut Draft) -> Result<(), NoMemory>
    ensures { OnOk result (draft.new ≡ block_on action draft.old) }
{
    match action {
        Action::IfThen => {
            if_then(draft);
            Ok(())
        }
        Action::IfAction => if_action(alloc, draft),
        Action::ElseIf => {
            else_if(draft);
            Ok(())
        }
        Action::Else => {
            state(draft, Statement::Else);
            Ok(())
        }
        Action::EndIf => {
            state(draft, Statement::EndIf);
            Ok(())
        }
        Action::Do => {
            a_do(draft);
            Ok(())
        }
        Action::SomeStep => some_step(&mut draft.values),
        Action::NoStep => build_as(alloc, Action::Absent, draft),
        Action::EndDo => {
            state(draft, Statement::EndDo);
            Ok(())
        }
        Action::Select => {
            select(draft);
            Ok(())
        }
        Action::EndSelect => {
            state(draft, Statement::EndSelect);
            Ok(())
        }
        _ => build_as(alloc, action, draft),
    }
}
