//! The logical lines of a text: where statements, directive and mark lines begin and end, and the tokens of each.
#![tactic(auto)]

mod bytes;
mod directives;
mod faults;
mod laws;
mod merging;
mod part;
mod pass;
mod sentinel;
mod statements;
mod text;

pub use laws::{
    each_text_is_gone_over, faults_by_example, lines_are_few, lines_are_unique, lines_by_example,
    lines_or_a_fault, lines_stand_in_their_file,
};
pub use text::lines;

#[cfg(test)]
mod tests;
