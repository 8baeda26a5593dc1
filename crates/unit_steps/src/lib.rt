//! What stands in the statements of a unit, as flat lists: its steps, the expressions that a step reads, and the parts of an expression.
#![tactic(auto)]

mod expressions;
mod names;
mod reading;
mod step;
mod walking;

pub use expressions::{bounds, note_parts, note_subscripts};
pub use names::{
    name_before_parenthesis, name_in, note_bare_names, note_names, note_names_before_parenthesis,
};
pub use reading::{note_read_by, parts_read, read_by};
pub use step::Step;
pub use walking::steps_of;

#[cfg(test)]
mod tests;
