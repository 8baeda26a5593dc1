//! Units without columns: they are written as they are, but for the order of their declarations, and do what they did.
#![tactic(auto)]

mod columns;
mod laws;
mod regrouping;
mod undirected;

pub use columns::is_column_unit;
pub use laws::{
    calls_and_references, column_units_translated, plain_units_kept, plain_units_written,
    translated_unit_by_unit,
};
pub use regrouping::regrouped;
pub use undirected::is_undirected;

#[cfg(test)]
mod tests;
