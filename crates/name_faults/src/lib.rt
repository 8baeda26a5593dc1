//! The faults of names of a program: names that are used and not declared, names that are called or referred to and are no unit, variables of DOs; and all faults of
//! names, of which the first is told.
#![tactic(auto)]

mod calls;
mod loop_names;
mod loop_steps;
#[cfg(test)]
mod loop_tests;
mod loops;
mod naming;
mod passed;
#[cfg(test)]
mod tests;
mod values;

pub use calls::note_unit_faults;
pub use loops::note_loops;
pub use naming::names;
pub use values::note_undeclared;
