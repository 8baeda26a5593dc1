//! Units of column scalars: the smallest units that are made for all columns, and what their programs keep.
#![tactic(auto)]

mod laws;
mod made;
mod units;
mod widening;

pub use laws::{does_as_modelled, keeps_columns, widened_is_wide_unit};
pub use made::made_for_all_columns;
pub use units::{
    keeps_columns_anywhere, runs_no_marked_loop, unit_made_for_all_columns, where_units_stand,
};
pub use widening::{has_dimension, widen};

#[cfg(test)]
mod tests;
