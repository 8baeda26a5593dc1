//! Sound programs: a program whose names, calls, kinds, ranks and arguments have no fault, and what each such program keeps.
#![tactic(auto)]

mod checked;
mod checking;
mod laws;
#[cfg(test)]
mod tests;

pub use checked::{Checked, Refused};
pub use checking::check;
pub use laws::{
    arguments_match, intents_are_kept, kinds_are_known, loop_variables_stay_inside, operands_fit,
    written_actuals_are_alone,
};
