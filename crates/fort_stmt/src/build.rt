//! What the rows of a statement build.
//!
//! The actions stand in a file for each kind of statement, and each file goes on to the next where an action isn't one of its own.
ghost use Rattle.std.specs.Prelude.{◌≡◌};
ghost use Rattle.fort_stmt.specs.Values.{states, acts};

mod actions;
mod blocks;
mod declarations;
mod expressions;
mod names;
mod pops;
mod ranges;
mod shapes;
mod types;
mod units;
mod values;

use crate::value::Draft;
use fort_expr::{Value, Word};
use fort_grammar::{Action, Build};
use fort_tree::{NoMemory, Place, Statement, Token};
use std::alloc::Global;

impl Build for Draft {
    ghost use Rattle.fort_stmt.specs.Values.{take_in, act_on};

    ghost shifted = { λ t p. take_in t p };

    ghost applied = { λ x p. act_on x p };

    fn shift(&mut self, alloc: Global, token: &Token) -> Result<(), NoMemory> {
        let text = token.text.copied(alloc)?;
        self.values
            .push(Value::Written(Word { text, at: token.at }))
    }

    #[tactic(auto, unfolding(crate::specs::Values::act_on))]
    fn build(&mut self, alloc: Global, action: Action) -> Result<(), NoMemory> {
        units::build(alloc, action, self)
    }
}

/// Makes the draft that of the statement.
fn state(draft: &mut Draft, statement: Statement)
    ensures { draft.new ≡ states statement draft.old.values draft.old }
{
    draft.statement = statement;
}

/// Makes the draft that of the action whose first token stands there.
fn act(draft: &mut Draft, statement: Statement, at: Place)
    ensures { draft.new ≡ acts statement at draft.old.values draft.old }
{
    draft.at = at;
    draft.statement = statement;
}
