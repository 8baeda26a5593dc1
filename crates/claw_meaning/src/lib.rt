//! What a program means: the definitions on which every promise of the compiler stands, in `specs/`, over plain trees of programs.
//!
//! The functions here run nothing. Each carries a law or a computed row in its contract.
#![tactic(auto)]

mod laws;
mod rows;
#[cfg(test)]
mod tests;

pub use laws::{
    frames_are_stores, orderly_runs_agree, runs_are_apart, runs_are_local, runs_can_move,
};
pub use rows::{columns_of_small_units, lost_update, scalars_in_columns, small_runs};
