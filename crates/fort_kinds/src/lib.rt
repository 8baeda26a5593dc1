//! The kinds and ranks of expressions, where faults leave them.
#![tactic(auto)]

mod differing;
mod kinding;
mod numbers;
mod ranking;
mod sites;
#[cfg(test)]
mod tests;

pub use differing::differing_kind;
pub use kinding::{is_integer, is_logical, kind_named_by, kind_of, or_default};
pub use numbers::{case_value, first, in_kind, is_value_of, written_number};
pub use ranking::{Ranks, first_differing, rank_of};
pub use sites::{Site, sites_of};
