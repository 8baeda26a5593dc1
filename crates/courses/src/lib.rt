//! The theory of interaction trees on which the meaning of programs stands.
//!
//! A program's meaning is a *course* (specs/Course.antt): a tree that says what it does next, a read, a write, an
//! announcement, a marked loop or a call, and how it goes on after each reply of the store. A course has three
//! readings: in one line under a plan that orders its marked loops, as the touches of each iteration of its loops, and
//! with its loops woven access by access under a schedule. The functions of this crate do nothing: the contract of each
//! is a law of courses or of the interaction trees that they are read as, for all of them.
#![tactic(auto)]

pub mod columns;
pub mod elements;
pub mod frames;
pub mod orders;
pub mod readings;
pub mod samples;
#[cfg(test)]
mod tests;
pub mod trees;
