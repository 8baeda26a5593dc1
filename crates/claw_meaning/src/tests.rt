//! Each law is called once.

use crate::laws::{
    frames_are_stores, orderly_runs_agree, runs_are_apart, runs_are_local, runs_can_move,
};
use crate::rows::{columns_of_small_units, lost_update, scalars_in_columns, small_runs};

#[test]
fn laws_are_called(rt: HostRuntime) {
    runs_are_local();
    runs_can_move();
    runs_are_apart();
    orderly_runs_agree();
    frames_are_stores();
    scalars_in_columns();
    lost_update();
    small_runs();
    columns_of_small_units();
}
