//! Each law and each table of rows is called once.

use crate::laws::{
    chains_are_short, faults_stand_in_the_tree, forms_nest_into_one_file,
    known_kinds_are_those_of_the_meaning, names_of_sound_programs, placed_trees_are_of_files,
    placed_trees_are_plain_trees_with_places, sound_or_a_first_fault, sound_programs_have_no_cycle,
    what_modules_give_has_an_origin,
};
use crate::rows::{
    a_sound_program, faults_of_arguments_by_example, faults_of_calls_by_example,
    faults_of_kinds_by_example, faults_of_names_by_example, faults_of_ranks_by_example,
    faulty_files, first_faults, names_by_example,
};

#[test]
fn laws_are_called(rt: HostRuntime) {
    chains_are_short();
    faults_stand_in_the_tree();
    forms_nest_into_one_file();
    known_kinds_are_those_of_the_meaning();
    names_of_sound_programs();
    placed_trees_are_of_files();
    placed_trees_are_plain_trees_with_places();
    sound_or_a_first_fault();
    sound_programs_have_no_cycle();
    what_modules_give_has_an_origin();
}

#[test]
fn rows_are_called(rt: HostRuntime) {
    a_sound_program();
    faults_of_arguments_by_example();
    faults_of_calls_by_example();
    faults_of_kinds_by_example();
    faults_of_names_by_example();
    faults_of_ranks_by_example();
    faulty_files();
    first_faults();
    names_by_example();
}
