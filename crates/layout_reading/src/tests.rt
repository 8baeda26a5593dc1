//! Each law is called once.

use crate::laws::{
    a_printable_program, bodies_nest_again, expressions_are_read, files_nest_again,
    layouts_are_programs, layouts_are_read, layouts_forget_places, layouts_spell_one_file,
    programs_are_unique, rows_are_read, statements_are_read, wide_units_are_printable,
};

#[test]
fn laws_are_called(rt: HostRuntime) {
    rows_are_read();
    expressions_are_read();
    statements_are_read();
    bodies_nest_again();
    files_nest_again();
    layouts_are_read();
    layouts_spell_one_file();
    layouts_are_programs();
    wide_units_are_printable();
    programs_are_unique();
    layouts_forget_places();
    a_printable_program();
}
