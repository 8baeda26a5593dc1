//! Shapes and their bounds.
ghost use Rattle.std.specs.Prelude.{◌≡◌, ◌∷◌, IfOk, OnOk};
ghost use Rattle.fort_expr.specs.Values.{rest, word, operand, reference, word_place};
ghost use Rattle.fort_grammar.specs.declared.table.Action.TheVariants as act;
ghost use Rattle.fort_stmt.specs.Values.{below, dimension, rest_two, rest_three, shape_on, top_shape};

use crate::build::expressions::{build_as, push_both, push_bounds};
use crate::build::pops::drop_two;
use crate::build::values;
use crate::value::Draft;
use fort_expr::{Value, place_of, pop_bound, pop_operand, pop_word, reference_to};
use fort_grammar::{Action, Stack};
use fort_tree::{Bound, Boxed, Expr, NoMemory, Op, Seq};
use std::alloc::Global;

/// Takes the shape on top, none where there is no more.
pub fn pop_shape(alloc: Global, shapes: &mut Stack<Seq<Bound>>) -> Seq<Bound>
    ensures value { result ≡ top_shape shapes.old }
    ensures below { shapes.new ≡ below shapes.old }
{
    match shapes.pop() {
        Some(shape) => shape,
        None => Seq::new(alloc),
    }
}

fn pop_dimension(values: &mut Stack<Value>) -> Bound
    ensures value { result ≡ dimension values.old }
    ensures below { values.new ≡ rest_two values.old }
{
    let upper = pop_bound(values);
    let lower = pop_bound(values);
    Bound { lower, upper }
}

fn first_dimension(alloc: Global, draft: &mut Draft) -> Result<(), NoMemory>
    ensures { OnOk result (draft.new ≡ shape_on act.FirstDimension draft.old) }
{
    let mut shape = Seq::new(alloc);
    shape.push(pop_dimension(&mut draft.values))?;
    draft.shapes.push(shape)
}

fn next_dimension(alloc: Global, draft: &mut Draft) -> Result<(), NoMemory>
    ensures { OnOk result (draft.new ≡ shape_on act.NextDimension draft.old) }
{
    let dimension = pop_dimension(&mut draft.values);
    let _comma = pop_word(&mut draft.values);
    let mut shape = pop_shape(alloc, &mut draft.shapes);
    shape.push(dimension)?;
    draft.shapes.push(shape)
}

fn assumed(values: &mut Stack<Value>) -> Result<(), NoMemory>
    ensures { OnOk result (values.new ≡ Value.Bound None ∷ Value.Bound None ∷ rest values.old) }
{
    let _colon = pop_word(values);
    push_bounds(values, None, None)
}

fn upper_only(values: &mut Stack<Value>) -> Result<(), NoMemory>
    ensures { OnOk result (values.new ≡ Value.Bound (Some (operand values.old)) ∷ Value.Bound None ∷ rest values.old) }
{
    let (upper, _at) = pop_operand(values);
    push_bounds(values, None, Some(upper))
}

/// A name with a number added or taken away.
fn offset(alloc: Global, op: Op, values: &mut Stack<Value>) -> Result<(), NoMemory>
    ensures { OnOk result (values.new ≡ Value.Operand (Expr.Two op (reference (word (rest_two values.old)) None) (operand values.old)) (word_place (word (rest_two values.old))) ∷ rest_three values.old) }
{
    let (number, _at) = pop_operand(values);
    let _sign = pop_word(values);
    let name = pop_word(values);
    let left = Boxed::new(alloc, reference_to(&name, None))?;
    let right = Boxed::new(alloc, number)?;
    let at = place_of(&name);
    values.push(Value::Operand(Expr::Two(op, left, right), at))
}

/// Does an action of a shape or a bound, or what another action does.
pub fn build(alloc: Global, action: Action, draft: &mut Draft) -> Result<(), NoMemory>
    ensures { OnOk result (draft.new ≡ shape_on action draft.old) }
{
    match action {
        Action::SomeShape => {
            drop_two(&mut draft.values);
            Ok(())
        }
        Action::NoShape => draft.shapes.push(Seq::new(alloc)),
        Action::FirstDimension => first_dimension(alloc, draft),
        Action::NextDimension => next_dimension(alloc, draft),
        Action::Assumed => assumed(&mut draft.values),
        Action::UpperOnly => upper_only(&mut draft.values),
        Action::Bounds => push_both(&mut draft.values),
        Action::SomeBound => build_as(alloc, Action::Present, draft),
        Action::NoBound => build_as(alloc, Action::Absent, draft),
        Action::BoundPlus => offset(alloc, Op::Add, &mut draft.values),
        Action::BoundMinus => offset(alloc, Op::Sub, &mut draft.values),
        Action::BoundName => build_as(alloc, Action::Bare, draft),
        _ => values::build(alloc, action, draft),
    }
}
