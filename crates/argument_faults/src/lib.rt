//! Faults of actual arguments: variables that a call would reach by two ways, and writes to what may not be written.
#![tactic(auto)]

mod actuals;
mod behind;
mod file_faults;
mod marks;
mod module_names;
mod module_writes;
mod reached;
mod shared;
#[cfg(test)]
mod tests;
mod unit_faults;
mod variable_set;
mod writes;
mod written_from;

pub use file_faults::{note_aliases, note_writes};
pub use written_from::writes_reached;
