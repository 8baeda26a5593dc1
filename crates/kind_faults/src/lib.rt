//! Faults of kinds, of ranks and of numbers of arguments.
#![tactic(auto)]

mod actuals;
mod bounds;
mod cases;
mod counts;
mod files;
mod holder;
mod kind_decls;
mod kind_parts;
mod kind_steps;
mod needs;
mod rank_decls;
mod rank_parts;
mod rank_steps;
mod sought;
mod spans;
#[cfg(test)]
mod tests;

pub use files::{note_counts, note_kinds, note_ranks};
