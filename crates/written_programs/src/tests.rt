//! Each law is called once.

use crate::laws::{
    column_units_can_be_written, plain_units_can_be_written, programs_can_be_written,
    written_by_number,
};

#[test]
fn laws_are_called(rt: HostRuntime) {
    plain_units_can_be_written();
    column_units_can_be_written();
    programs_can_be_written();
    written_by_number();
}
