//! That a program's text, as it is written, is read back as the program.
//!
//! The functions here run nothing. Each carries a law in its contract.
#![tactic(auto)]

mod laws;
#[cfg(test)]
mod tests;

pub use laws::{
    a_printable_program, bodies_nest_again, expressions_are_read, files_nest_again,
    layouts_are_programs, layouts_are_read, layouts_forget_places, layouts_spell_one_file,
    programs_are_unique, rows_are_read, statements_are_read, wide_units_are_printable,
};
