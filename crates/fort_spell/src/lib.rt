//! The text of a program's tree, in the layout of this project's own.
#![tactic(auto)]

mod actions;
mod expressions;
mod line;
mod lists;
mod mark;
mod put;
mod reporting;
mod statements;
mod text;
mod units;

pub use reporting::report;
pub use text::spell;

#[cfg(test)]
mod tests;
#[cfg(test)]
mod trees;
