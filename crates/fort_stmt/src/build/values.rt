//! Values of PARAMETERs and of CASE.
ghost use Rattle.std.specs.Prelude.{◌≡◌, OnOk};
ghost use Rattle.fort_stmt.specs.Values.{value_on};

use crate::build::expressions::build_as;
use crate::build::ranges;
use crate::value::Draft;
use fort_grammar::Action;
use fort_tree::NoMemory;
use std::alloc::Global;

/// Does an action of a value, or what another action does.
pub fn build(alloc: Global, action: Action, draft: &mut Draft) -> Result<(), NoMemory>
    ensures { OnOk result (draft.new ≡ value_on action draft.old) }
{
    match action {
        Action::NamedValue => build_as(alloc, Action::Bare, draft),
        Action::Digits => build_as(alloc, Action::Number, draft),
        Action::Negative => build_as(alloc, Action::Minus, draft),
        Action::Positive => Ok(()),
        Action::TruthValue => build_as(alloc, Action::Truth, draft),
        Action::SomeValue => build_as(alloc, Action::Present, draft),
        Action::NoValue => build_as(alloc, Action::Absent, draft),
        _ => ranges::build(alloc, action, draft),
    }
}
