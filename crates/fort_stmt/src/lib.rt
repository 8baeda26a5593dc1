//! Statements: the statement that a line is, or its first fault.
//!
//! The relation of statement forms (specs/Form) has a constructor for each form, and the table of the grammar is shown to derive exactly it. The reader goes over the
//! tokens with the one engine of the grammar three times: for the first token past a limit, for the first fault of form or of the profile, and to build the statement, where
//! there is none of these; so nothing deep is ever built.
#![tactic(auto)]

mod build;
mod building;
mod judging;
mod laws;
mod limits;
mod outline;
mod outside;
mod parsing;
mod reading;
mod sort;
mod value;

pub use building::parse;
pub use judging::{Judgement, judged};
pub use laws::statements_are_derived;
pub use limits::{first_past_limit, parentheses_count};
pub use parsing::Outcome;
pub use reading::{sketch, statement};
pub use sort::{ActionSort, Sort};
pub use value::{Draft, Entity};

#[cfg(test)]
mod limit_tests;
#[cfg(test)]
mod reading_tests;
#[cfg(test)]
mod tests;
