//! Programs for all columns: what keeps a program from being translated, and the program that is made.
//!
//! Column units are what `scalar_units` takes, and are made for all columns by `column_scalars`. Other units are written as they are by `plain_units`.
#![tactic(auto)]

mod columns;
mod directed;
mod laws;
mod translation;
mod unbuilt;
mod unit_names;

pub use columns::is_column_unit;
pub use laws::{sound_programs_are_translated, units_are_translated};
pub use translation::translated;
pub use unbuilt::first_unbuilt;

#[cfg(test)]
mod tests;
