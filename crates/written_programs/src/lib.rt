//! That what is written of a program unit by unit can be read again.
//!
//! A unit without directives is written as it is, with its declarations one by one and in their groups, and a unit of column scalars for all columns. The functions here
//! run nothing. Each carries a law in its contract.
#![tactic(auto)]

mod laws;
#[cfg(test)]
mod tests;

pub use laws::{
    column_units_can_be_written, plain_units_can_be_written, programs_can_be_written,
    written_by_number,
};
