//! The statement that tokens are.
ghost use Rattle.std.specs.Prelude.{◌≡◌, IfOk};
ghost use Rattle.fort_tree.specs.declared.statement.Statement.{Statement};
ghost use Rattle.fort_stmt.specs.Faults.{Parses, Reads};
ghost use Rattle.fort_stmt.specs.Form.{IsStatement};
ghost use Rattle.fort_stmt.specs.Values.{blank, outcome};

use crate::parsing::Outcome;
use crate::value::Draft;
use fort_grammar::{Part, Stack, Step, Symbol, advance, finish};
use fort_tree::{NoMemory, Statement, Token};
use std::alloc::Global;

/// Reads the tokens into a draft before any token. Where they are no statement, gives how many of them can begin one.
fn read(alloc: Global, tokens: &[Token], draft: &mut Draft) -> Result<Option<usize>, NoMemory>
    requires { draft.old ≡ blank }
    ensures { IfOk result (λ stop. Parses (outcome stop draft.new) tokens.now) }
{
    let mut stack = Stack::new(alloc);
    stack.push(Symbol::Call(Part::Statement))?;
    for (i, token) in tokens.iter().enumerate() {
        match advance(alloc, &mut stack, draft, token)? {
            Step::Moved => {}
            Step::Whole => return Ok(Some(i)),
            Step::Stuck => return Ok(Some(i)),
        }
    }
    let whole = finish(alloc, &mut stack, draft)?;
    if whole {
        Ok(None)
    } else {
        Ok(Some(tokens.len()))
    }
}

/// What the tokens are by their form: the one statement that they are (ISO/IEC 1539-1:2018, cut down to this project's profile), or how many of them can begin one,
/// where with the next, if there is one, none goes on.
///
/// # Errors
/// `NoMemory` only where memory was refused.
pub fn parse(alloc: Global, tokens: &[Token]) -> Result<Outcome, NoMemory>
    ensures { IfOk result (λ o. Parses o tokens.now) }
{
    let mut draft = Draft::new(alloc);
    match read(alloc, tokens, &mut draft) {
        Ok(None) => Ok(Outcome::Form(draft.into_statement())),
        Ok(Some(count)) => {
            drop(draft);
            Ok(Outcome::Syntax(count))
        }
        Err(error) => {
            drop(draft);
            Err(error)
        }
    }
}

/// The one statement that the tokens are. That they are one is the caller's to know.
///
/// # Errors
/// `NoMemory` only where memory was refused.
pub fn built(alloc: Global, tokens: &[Token]) -> Result<Statement, NoMemory>
    requires { (s : Statement) × IsStatement tokens.now s }
    ensures { IfOk result (λ s. Reads tokens.now s) }
{
    match parse(alloc, tokens)? {
        Outcome::Form(statement) => Ok(statement),
        Outcome::Syntax(_) => unreachable!(),
    }
}
