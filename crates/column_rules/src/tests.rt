//! The rows are called once.

use crate::rows::rules_by_example;

#[test]
fn rows_are_called(rt: HostRuntime) {
    rules_by_example();
}
