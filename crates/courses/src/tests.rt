//! Each law is a call that does nothing and returns.

use crate::columns::{
    column_calls, column_elements, column_loops, columns_in_sequence, columns_served,
    marked_columns, nothing_varying, shared_accesses, shared_parts,
};
use crate::elements::{element_equality, single_writes};
use crate::frames::{array_places, frames};
use crate::orders::{fair_plans, law_of_orders, next_accesses, private_orders, weaving};
use crate::readings::{
    calls_by_copy, course_line, course_monad, courses_in_sequence, loop_runs_apart, schedules,
    woven_lines,
};
use crate::samples::{columns_of_an_array, lost_update, lost_update_inside};
use crate::trees::{allowed_writes, kept_aside, locality, monad_laws, renaming, turns_add_up};

#[test]
fn laws_return(rt: HostRuntime) {
    element_equality();
    single_writes();
    monad_laws();
    turns_add_up();
    locality();
    renaming();
    kept_aside();
    allowed_writes();
    law_of_orders();
    private_orders();
    weaving();
    fair_plans();
    next_accesses();
    course_monad();
    course_line();
    courses_in_sequence();
    loop_runs_apart();
    schedules();
    woven_lines();
    calls_by_copy();
    column_elements();
    columns_in_sequence();
    shared_parts();
    shared_accesses();
    nothing_varying();
    column_loops();
    marked_columns();
    column_calls();
    columns_served();
    array_places();
    frames();
    lost_update();
    lost_update_inside();
    columns_of_an_array();
}
