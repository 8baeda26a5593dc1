//! The engine: a pushdown automaton that predicts rows by the next token.
ghost use Rattle.std.specs.Prelude.{◌≡◌, ◌++◌, reverse, MatchOption, OnOk, IfOk};
ghost use Rattle.fort_grammar.specs.Choose.{member, suits, chosen};
ghost use Rattle.fort_grammar.specs.Engine.{Opened, Advances, Finishes};
ghost use Rattle.fort_grammar.specs.First.{Good, all_first, any_empty, firsts};
ghost use Rattle.fort_grammar.specs.Table.{Choice, choice, table};

use crate::class::Class;
use crate::stack::Stack;
use crate::table::{Action, Part, Row, Symbol, rows};
use crate::token::class_of;
use fort_tree::{NoMemory, Token};
use std::alloc::Global;

/// What rows build: `shift` takes each token of a row, and `build` does each action.
pub trait Build {
    ghost use Rattle.fort_tree.specs.declared.statement.Token.{Token};
    ghost use Rattle.fort_grammar.specs.declared.table.Action.{Action};

    ghost shifted: { Token → Self → Self };

    ghost applied: { Action → Self → Self };

    /// Takes a token.
    ///
    /// # Errors
    /// `NoMemory` only where memory was refused.
    fn shift(&mut self, alloc: Global, token: &Token) -> Result<(), NoMemory>
        ensures { OnOk result (self.new ≡ shifted token.now self.old) };

    /// Does an action.
    ///
    /// # Errors
    /// `NoMemory` only where memory was refused.
    fn build(&mut self, alloc: Global, action: Action) -> Result<(), NoMemory>
        ensures { OnOk result (self.new ≡ applied action self.old) };
}

fn is_in(class: Class, set: &[Class]) -> bool
    ensures { result ≡ member class set.now }
{
    set.iter().any(|c| c.is(class))
}

fn suits_at(row: &Row, look: Option<Class>) -> bool
    ensures { result ≡ suits look (choice row.now) }
{
    match look {
        None => row.empty,
        Some(class) => is_in(class, row.first) || row.empty,
    }
}

/// The symbols of the row of the part that the class of the next token calls for: the first that it can begin or that can be empty; where no token follows, the
/// first that can be empty. `None` exactly where no row is so.
pub fn choose(part: Part, look: Option<Class>) -> Option<&'static [Symbol]>
    ensures { MatchOption result (chosen look (table part) ≡ None) (λ s. (r : Choice) × (chosen look (table part) ≡ Some r) × (r.symbols ≡ s.now)) }
{
    let all = rows(part);
    for row in all {
        if suits_at(row, look) {
            return Some(row.symbols);
        }
    }
    None
}

/// Puts the symbols of a row on the stack, the first on top.
///
/// # Errors
/// `NoMemory` only where memory was refused.
pub fn push_row(stack: &mut Stack<Symbol>, symbols: &[Symbol]) -> Result<(), NoMemory>
    ensures { OnOk result (stack.new ≡ symbols.now ++ stack.old) }
{
    for symbol in symbols.iter().rev() {
        stack.push(*symbol)?;
    }
    Ok(())
}

/// What stands on top of the symbols, once it is a token's class or nothing.
pub enum Top {
    Token(Class),
    End,
    /// No row begins with the next token.
    Stuck,
}

/// Takes rows until a token is wanted.
fn expand<B: Build>(
    alloc: Global,
    stack: &mut Stack<Symbol>,
    values: &mut B,
    look: Option<Class>,
) -> Result<Top, NoMemory>
    requires { Good stack.old }
    ensures { IfOk result (λ top. Opened B B.shifted B.applied top look stack.old values.old stack.new values.new) }
{
    while let Some(symbol) = stack.pop() {
        match symbol {
            Symbol::Take(class) => return Ok(Top::Token(class)),
            Symbol::Build(action) => values.build(alloc, action)?,
            Symbol::Call(part) => match choose(part, look) {
                None => return Ok(Top::Stuck),
                Some(symbols) => push_row(stack, symbols)?,
            },
        }
    }
    Ok(Top::End)
}

/// What a token does.
#[derive(Clone, Copy, Debug, PartialEq, Eq)]
pub enum Step {
    /// It was taken.
    Moved,
    /// The tokens before it are a whole sentence, and no sentence goes on with it.
    Whole,
    /// The tokens before it are no whole sentence, and no sentence goes on with it.
    Stuck,
}

/// Takes one token, where a sentence goes on with it, or says that none does. Where the answer is `Whole`, the values are those of the whole sentence; where it is
/// `Stuck`, nothing is promised of them.
///
/// # Errors
/// `NoMemory` only where memory was refused.
pub fn advance<B: Build>(
    alloc: Global,
    stack: &mut Stack<Symbol>,
    values: &mut B,
    token: &Token,
) -> Result<Step, NoMemory>
    requires { Good stack.old }
    ensures { IfOk result (λ s. Advances B B.shifted B.applied s token.now stack.old values.old stack.new values.new) }
{
    let wanted = class_of(token);
    match expand(alloc, stack, values, Some(wanted))? {
        Top::Token(class) => {
            let fits = class.is(wanted);
            if fits {
                values.shift(alloc, token)?;
                Ok(Step::Moved)
            } else {
                Ok(Step::Stuck)
            }
        }
        Top::End => Ok(Step::Whole),
        Top::Stuck => Ok(Step::Stuck),
    }
}

/// Ends: whether the tokens so far are a whole sentence. Where they are, the values are those of it; else nothing is promised of them.
///
/// # Errors
/// `NoMemory` only where memory was refused.
pub fn finish<B: Build>(
    alloc: Global,
    stack: &mut Stack<Symbol>,
    values: &mut B,
) -> Result<bool, NoMemory>
    requires { Good stack.old }
    ensures { IfOk result (λ b. Finishes B B.shifted B.applied b stack.old values.old values.new) }
{
    match expand(alloc, stack, values, None)? {
        Top::Token(_) => Ok(false),
        Top::End => Ok(true),
        Top::Stuck => Ok(false),
    }
}

fn begins(part: Part, class: Class) -> bool
    ensures { result ≡ member class (all_first (table part)) }
{
    let all = rows(part);
    for row in all {
        if is_in(class, row.first) {
            return true;
        }
    }
    false
}

fn can_be_empty(part: Part) -> bool
    ensures { result ≡ any_empty (table part) }
{
    let all = rows(part);
    for row in all {
        if row.empty {
            return true;
        }
    }
    false
}

/// Whether a token of the class can begin the symbols, which are given last first.
fn can_begin(symbols: &[Symbol], class: Class) -> bool
    ensures { result ≡ member class (firsts (reverse symbols.now)) }
{
    for symbol in symbols.iter().rev() {
        match symbol {
            Symbol::Take(wanted) => return wanted.is(class),
            Symbol::Build(_) => {}
            Symbol::Call(part) => {
                let first = begins(*part, class);
                if first {
                    return true;
                }
                let empty = can_be_empty(*part);
                if !empty {
                    return false;
                }
            }
        }
    }
    false
}

/// Whether a sentence goes on with a token of the class: whether the class is in FIRST of the symbols.
pub fn can_take(stack: &Stack<Symbol>, class: Class) -> bool
    ensures { result ≡ member class (firsts stack.now) }
{
    can_begin(stack.items(), class)
}
