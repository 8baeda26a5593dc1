//! Headers and ends of units, and what stands before their declarations.
ghost use Rattle.std.specs.Prelude.{◌≡◌, [], OnOk};
ghost use Rattle.fort_grammar.specs.declared.table.Action.TheVariants as act;
ghost use Rattle.fort_stmt.specs.Values.{unit_on};

use crate::build::pops::{drop_three, drop_two, pop_named};
use crate::build::{names, state};
use crate::value::Draft;
use fort_grammar::Action;
use fort_tree::{EndWord, Named, NoMemory, Seq, Statement, Use};
use std::alloc::Global;
use std::mem;

fn take_names(alloc: Global, draft: &mut Draft) -> Seq<Named>
    ensures value { result ≡ draft.old.names }
    ensures below { draft.new ≡ record draft.old { names = [] } }
{
    mem::replace(&mut draft.names, Seq::new(alloc))
}

fn module(draft: &mut Draft)
    ensures { draft.new ≡ unit_on act.Module draft.old }
{
    let name = pop_named(&mut draft.values);
    state(draft, Statement::Module(name));
}

fn end(draft: &mut Draft, word: EndWord)
    ensures { draft.new ≡ record draft.old { statement = Statement.End (Some word) draft.old.end_name } }
{
    let name = draft.end_name;
    state(draft, Statement::End(Some(word), name));
}

fn subroutine(alloc: Global, draft: &mut Draft)
    ensures { draft.new ≡ unit_on act.Subroutine draft.old }
{
    let name = pop_named(&mut draft.values);
    let dummies = take_names(alloc, draft);
    state(draft, Statement::Subroutine { name, dummies });
}

fn function(alloc: Global, draft: &mut Draft)
    ensures { draft.new ≡ unit_on act.Function draft.old }
{
    drop_two(&mut draft.values);
    let name = pop_named(&mut draft.values);
    let dummies = take_names(alloc, draft);
    let result = draft.result;
    let header = Statement::Function {
        prefix: None,
        name,
        dummies,
        result,
    };
    state(draft, header);
}

fn prefixed(draft: &mut Draft)
    ensures { draft.new ≡ unit_on act.Prefixed draft.old }
{
    if let Statement::Function { prefix, .. } = &mut draft.statement {
        *prefix = Some((draft.kind, draft.type_at));
    }
}

fn only(alloc: Global, draft: &mut Draft)
    ensures { draft.new ≡ unit_on act.Only draft.old }
{
    drop_three(&mut draft.values);
    let Named { name, at } = pop_named(&mut draft.values);
    let only = Some(take_names(alloc, draft));
    state(draft, Statement::Using(Use { name, only, at }));
}

fn all(draft: &mut Draft)
    ensures { draft.new ≡ unit_on act.All draft.old }
{
    let Named { name, at } = pop_named(&mut draft.values);
    let only = None;
    state(draft, Statement::Using(Use { name, only, at }));
}

/// Does an action of a unit's header or end, or what another action does.
pub fn build(alloc: Global, action: Action, draft: &mut Draft) -> Result<(), NoMemory>
    ensures { OnOk result (draft.new ≡ unit_on action draft.old) }
{
    match action {
        Action::Module => {
            module(draft);
            Ok(())
        }
        Action::Contains => {
            state(draft, Statement::Contains);
            Ok(())
        }
        Action::End => {
            state(draft, Statement::End(None, None));
            Ok(())
        }
        Action::EndModule => {
            end(draft, EndWord::Module);
            Ok(())
        }
        Action::EndSubroutine => {
            end(draft, EndWord::Subroutine);
            Ok(())
        }
        Action::EndFunction => {
            end(draft, EndWord::Function);
            Ok(())
        }
        Action::Subroutine => {
            subroutine(alloc, draft);
            Ok(())
        }
        Action::Function => {
            function(alloc, draft);
            Ok(())
        }
        Action::Prefixed => {
            prefixed(draft);
            Ok(())
        }
        Action::Only => {
            only(alloc, draft);
            Ok(())
        }
        Action::All => {
            all(draft);
            Ok(())
        }
        Action::ImplicitNone => {
            state(draft, Statement::ImplicitNone);
            Ok(())
        }
        _ => names::build(alloc, action, draft),
    }
}
