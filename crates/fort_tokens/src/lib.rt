//! The characters of one logical line, and the tokens that they are read as.
#![tactic(auto)]

mod character;
mod laws;
mod reader;
mod shape;
mod words;

pub use character::Char;
pub use laws::{
    ampersand_is_bad, each_line_is_read, forms_are_the_automaton, lines_by_example,
    reading_is_unique, second_blank_changes_nothing, too_long_and_too_large,
};
pub use reader::{Reader, tokens};
pub use shape::Shape;

#[cfg(test)]
mod tests;
