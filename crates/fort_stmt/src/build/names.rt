//! Names in headers and ends.
ghost use Rattle.std.specs.Prelude.{◌≡◌, OnOk};
ghost use Rattle.fort_grammar.specs.declared.table.Action.TheVariants as act;
ghost use Rattle.fort_stmt.specs.Values.{name_on};

use crate::build::pops::{drop_three, drop_two, pop_named};
use crate::build::types;
use crate::value::Draft;
use fort_expr::pop_word;
use fort_grammar::Action;
use fort_tree::{NoMemory, Seq};
use std::alloc::Global;

fn some_name(draft: &mut Draft)
    ensures { draft.new ≡ name_on act.SomeName draft.old }
{
    draft.end_name = Some(pop_named(&mut draft.values).name);
}

fn no_names(alloc: Global, draft: &mut Draft)
    ensures { draft.new ≡ name_on act.NoNames draft.old }
{
    draft.names = Seq::new(alloc);
}

fn first_name(alloc: Global, draft: &mut Draft) -> Result<(), NoMemory>
    ensures { OnOk result (draft.new ≡ name_on act.FirstName draft.old) }
{
    let name = pop_named(&mut draft.values);
    no_names(alloc, draft);
    draft.names.push(name)
}

fn next_name(draft: &mut Draft) -> Result<(), NoMemory>
    ensures { OnOk result (draft.new ≡ name_on act.NextName draft.old) }
{
    let name = pop_named(&mut draft.values);
    let _comma = pop_word(&mut draft.values);
    draft.names.push(name)
}

fn some_result(draft: &mut Draft)
    ensures { draft.new ≡ name_on act.SomeResult draft.old }
{
    let _close = pop_word(&mut draft.values);
    draft.result = Some(pop_named(&mut draft.values));
    drop_two(&mut draft.values);
}

/// Does an action of names in headers and ends, or what another action does.
pub fn build(alloc: Global, action: Action, draft: &mut Draft) -> Result<(), NoMemory>
    ensures { OnOk result (draft.new ≡ name_on action draft.old) }
{
    match action {
        Action::SomeName => {
            some_name(draft);
            Ok(())
        }
        Action::NoName => {
            draft.end_name = None;
            Ok(())
        }
        Action::Dummies => {
            drop_two(&mut draft.values);
            Ok(())
        }
        Action::NoDummies => {
            no_names(alloc, draft);
            Ok(())
        }
        Action::NoNames => {
            no_names(alloc, draft);
            Ok(())
        }
        Action::FirstName => first_name(alloc, draft),
        Action::NextName => next_name(draft),
        Action::SomeResult => {
            some_result(draft);
            Ok(())
        }
        Action::NoResult => {
            draft.result = None;
            Ok(())
        }
        _ => types::build(alloc, action, draft),
    }
}
