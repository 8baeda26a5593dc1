//! Exact arithmetic of whole-number Fortran.
//!
//! The four INTEGER kinds hold the signed numbers of 8, 16, 32 and 64 bits. Each operation is taken in the whole numbers;
//! it has a value exactly where the exact value exists and is in the kind, and else the run traps, which is `None` here.
//! Nothing takes memory.
//!
//! Each operation is taken in 64 bits and then fitted into the kind, so the kinds differ only in one table of limits, in
//! `range`, whose rule is proved once.
#![tactic(auto)]

pub mod intrinsics;
pub mod kind;
pub mod laws;
pub mod op;
pub mod operators;
mod power;
pub mod range;

pub use intrinsics::intrinsic;
pub use kind::Kind;
pub use op::{Intrinsic, Op};
pub use operators::{apply, compare};
pub use range::{Limits, fit, holds, limits_of};

#[cfg(test)]
mod tests;
