//! The directives of a directive line, and the mark of a mark line.
#![tactic(auto)]

mod dimension;
mod given;
mod laws;
mod line;
mod lists;
mod numbers;
mod part;
mod taking;
mod unread;

pub use laws::{lines_by_example, reading_is_unique};
pub use line::directive;

#[cfg(test)]
mod tests;
