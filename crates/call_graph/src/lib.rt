//! The calls of a program: which units each refers to, in which order they can be gone through, and the faults of calls.
#![tactic(auto)]

mod calls;
mod faults;
mod graphs;
mod groups;
mod reference;
mod references;
mod roots;
mod search;
#[cfg(test)]
mod tests;
mod walk;

pub use graphs::{Graph, graph_of};
