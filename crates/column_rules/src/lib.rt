//! The rules that column units keep, before those of their calls.
#![tactic(auto)]

mod bounds;
mod broken;
mod dummies;
mod lists;
mod marks;
mod returns;
mod rows;
mod rules;
#[cfg(test)]
mod tests;

pub use broken::note_broken;
pub use rows::rules_by_example;
