//! Which units are units of column scalars, and where the others aren't.
//!
//! Such a unit is what `column_scalars` makes for all columns: a subroutine whose dummies are default INTEGER scalars, each a column's own, and whose statements assign
//! sums of products of dummies and numbers to dummies. This part of the language is this project's own step on the way to the whole.
#![tactic(auto)]

mod header;
mod laws;
mod marks;
mod names;
mod sums;
mod unbuilt;

pub use laws::built_units_are_column_scalars;
pub use unbuilt::{note, note_unit, note_unless};

#[cfg(test)]
mod tests;
