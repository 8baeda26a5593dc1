//! Actions, which can stand behind IF.
ghost use Rattle.std.specs.Prelude.{◌≡◌, ◌∷◌, OnOk};
ghost use Rattle.fort_expr.specs.Values.{rest, subscripts, word, word_place};
ghost use Rattle.fort_grammar.specs.declared.table.Action.TheVariants as act;
ghost use Rattle.fort_stmt.specs.Values.{action_on, acts, rest_three};

use crate::build::expressions::build_as;
use crate::build::pops::pop_named;
use crate::build::{act, blocks};
use crate::value::Draft;
use fort_expr::{Value, place_of, pop_operand, pop_subscripts, pop_word};
use fort_grammar::{Action, Stack};
use fort_tree::{NoMemory, Statement};
use std::alloc::Global;

fn assign(draft: &mut Draft)
    ensures { draft.new ≡ action_on act.Assign draft.old }
{
    let (right, _right_at) = pop_operand(&mut draft.values);
    let _equals = pop_word(&mut draft.values);
    let (left, at) = pop_operand(&mut draft.values);
    act(draft, Statement::Assign { left, right }, at);
}

fn arguments(alloc: Global, values: &mut Stack<Value>) -> Result<(), NoMemory>
    ensures { OnOk result (values.new ≡ Value.Subscripts (subscripts (rest values.old)) ∷ rest_three values.old) }
{
    let _close = pop_word(values);
    let args = pop_subscripts(alloc, values);
    let _open = pop_word(values);
    values.push(Value::Subscripts(args))
}

fn call(alloc: Global, draft: &mut Draft)
    ensures { draft.new ≡ action_on act.Call draft.old }
{
    let args = pop_subscripts(alloc, &mut draft.values);
    let name = pop_named(&mut draft.values);
    let at = place_of(&pop_word(&mut draft.values));
    act(draft, Statement::Call { name, args }, at);
}

/// Makes the draft that of an action of one word.
fn word_alone(draft: &mut Draft, statement: Statement)
    ensures { draft.new ≡ acts statement (word_place (word draft.old.values)) (rest draft.old.values) draft.old }
{
    let at = place_of(&pop_word(&mut draft.values));
    act(draft, statement, at);
}

/// Does what builds an action, or what another action of the grammar does.
pub fn build(alloc: Global, action: Action, draft: &mut Draft) -> Result<(), NoMemory>
    ensures { OnOk result (draft.new ≡ action_on action draft.old) }
{
    match action {
        Action::Whole => Ok(()),
        Action::Assign => {
            assign(draft);
            Ok(())
        }
        Action::Arguments => arguments(alloc, &mut draft.values),
        Action::NoArguments => build_as(alloc, Action::NoSubs, draft),
        Action::Call => {
            call(alloc, draft);
            Ok(())
        }
        Action::Exit => {
            word_alone(draft, Statement::Exit);
            Ok(())
        }
        Action::Cycle => {
            word_alone(draft, Statement::Cycle);
            Ok(())
        }
        Action::Return => {
            word_alone(draft, Statement::Return);
            Ok(())
        }
        _ => blocks::build(alloc, action, draft),
    }
}
