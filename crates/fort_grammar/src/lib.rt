//! The grammar of expressions and statements as data, and the one engine that reads by it.
//!
//! The grammar is a table of rows over classes of tokens, left-factored so that the class of the next token says which row is taken (it is LL(1)). The engine
//! keeps a stack of symbols, what is wanted from here on, and reads a token at a time; it never goes back, and it stops at the first token with which the tokens so
//! far begin no sentence. What is built on the way is the caller's: a type with the trait `Build`.
#![tactic(auto)]

mod class;
mod engine;
mod stack;
mod table;
mod token;

pub use class::Class;
pub use engine::{Build, Step, advance, can_take, choose, finish, push_row};
pub use stack::Stack;
pub use table::{Action, Part, Row, Symbol, rows};
pub use token::class_of;

#[cfg(test)]
mod tests;
