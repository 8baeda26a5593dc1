//! Each law is called once.

use crate::laws::{
    arguments_match, intents_are_kept, kinds_are_known, loop_variables_stay_inside, operands_fit,
    written_actuals_are_alone,
};

#[test]
fn laws_are_called(rt: HostRuntime) {
    arguments_match();
    intents_are_kept();
    kinds_are_known();
    loop_variables_stay_inside();
    operands_fit();
    written_actuals_are_alone();
}
