//! The top call of the compiler: from the words of a command, a shelf of sources and two sinks to a
//! status, with all text that the program puts out.
//!
//! All that is done before the first put ends in one value, with a variant for each text that a run can
//! end with. So the whole result stands before a byte is put, and a refusal puts nothing on the output.
//!
//! The command line, the statuses and their texts are this project's own.
#![tactic(auto)]

mod compiling;
mod counting;
mod deciding;
mod end;
mod finishing;
mod loading;
mod placing;
mod reporting;
mod top;

pub use top::claw;

#[cfg(test)]
mod tests;
#[cfg(test)]
mod tests_compiling;
