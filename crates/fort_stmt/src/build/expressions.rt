//! Expressions, and the bounds that are built of them.
ghost use Rattle.std.specs.Prelude.{◌≡◌, ◌∷◌, OnOk};
ghost use Rattle.fort_expr.specs.Values.{apply, bound, operand};
ghost use Rattle.fort_stmt.specs.Values.{rest_two, rest_three, with_values};

use crate::value::Draft;
use fort_expr::{Value, built, pop_bound, pop_operand, pop_word};
use fort_grammar::{Action, Stack};
use fort_tree::{Expr, NoMemory};
use std::alloc::Global;

/// Puts two bounds on the values, the upper one last.
pub fn push_bounds(
    values: &mut Stack<Value>,
    lower: Option<Expr>,
    upper: Option<Expr>,
) -> Result<(), NoMemory>
    ensures { OnOk result (values.new ≡ Value.Bound upper ∷ Value.Bound lower ∷ values.old) }
{
    values.push(Value::Bound(lower))?;
    values.push(Value::Bound(upper))
}

/// Takes an expression, a colon and a bound, and puts the two bounds.
pub fn push_both(values: &mut Stack<Value>) -> Result<(), NoMemory>
    ensures { OnOk result (values.new ≡ Value.Bound (bound values.old) ∷ Value.Bound (Some (operand (rest_two values.old))) ∷ rest_three values.old) }
{
    let upper = pop_bound(values);
    let _colon = pop_word(values);
    let (lower, _at) = pop_operand(values);
    push_bounds(values, Some(lower), upper)
}

/// Does what an action of an expression does.
pub fn build_as(alloc: Global, action: Action, draft: &mut Draft) -> Result<(), NoMemory>
    ensures { OnOk result (draft.new ≡ with_values (apply action draft.old.values) draft.old) }
{
    let top = built(alloc, action, &mut draft.values)?;
    draft.values.push(top)
}
