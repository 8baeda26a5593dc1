//! How lines nest into a program: the first fault of nesting and of the places of directives.
#![tactic(auto)]

mod around;
mod directing;
mod gathering;
mod item;
mod judging;
mod laws;
mod least;
mod opening;
mod reading;
mod standing;
mod walk;

pub use around::{Around, Block, Construct, Exits, Heading, Listing, Part, Waiting};
pub use item::Item;
pub use laws::{
    faults_stand_in_files, forms_that_nest_have_no_fault, forms_without_fault_nest,
    lines_that_nest_are_a_program, nesting_by_example, programs_stand_in_files,
};
pub use reading::file;
pub use walk::nesting_fault;

#[cfg(test)]
mod tests;
