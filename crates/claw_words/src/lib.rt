//! The words of a command line, and the request that they are.
//!
//! The command line is this project's own: the program's name, a command, the names of its files, and
//! options anywhere between them. `clap` takes the words apart, and this crate says what they ask for.
#![tactic(auto)]

mod fault;
mod matching;
mod reading;

pub use fault::WordsFault;
pub use reading::{Command, Request, read_words};

#[cfg(test)]
mod tests;
