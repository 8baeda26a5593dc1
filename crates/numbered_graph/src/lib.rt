//! Graphs whose points are numbers: an order in which each point stands behind those to which it has links, and ways.
#![tactic(auto)]

mod depth;
mod numbers;
mod peeled;
mod reverse;
mod row;
mod search;
#[cfg(test)]
mod tests;

pub use depth::{depth_of, depths};
pub use numbers::distinct;
pub use peeled::peel;
pub use reverse::reversed;
pub use row::Row;
pub use search::leads;
