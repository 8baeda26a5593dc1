//! How deep an expression is that is cut behind a token, its open parentheses closed.
ghost use Rattle.std.specs.Prelude.{◌≡◌, ◌∷◌, ◌+◌, max, IfOk};
ghost use Rattle.fort_expr.specs.Shapes.{cap, rest_shapes, operand_depth, top_depth, bound_shape, subscript_shape, subscripts_shape, apply_shape};
ghost use Rattle.fort_expr.specs.Closing.{Closes, Judges};
ghost use Rattle.fort_expr.specs.Faults.{is_leaf as leaf_test};
ghost use Rattle.fort_expr.specs.Machine.{JudgesAt};

use crate::value::Shape;
use fort_grammar::{Action, Class, Stack, Symbol, choose, push_row};
use fort_tree::NoMemory;
use std::alloc::Global;

fn pop_word(shapes: &mut Stack<Shape>)
    ensures { shapes.new ≡ rest_shapes shapes.old }
{
    let _ = shapes.pop();
}

fn pop_operand(shapes: &mut Stack<Shape>) -> u32
    ensures value { result ≡ operand_depth shapes.old }
    ensures below { shapes.new ≡ rest_shapes shapes.old }
{
    match shapes.pop() {
        Some(Shape::Operand(depth)) => depth,
        _ => 1,
    }
}

fn pop_depth(shapes: &mut Stack<Shape>) -> u32
    ensures { result ≡ top_depth shapes.old }
{
    match shapes.pop() {
        Some(Shape::Operand(depth)) => depth,
        Some(Shape::Subscript(depth)) => depth,
        _ => 1,
    }
}

fn pop_bound(shapes: &mut Stack<Shape>) -> u32
    ensures value { result ≡ bound_shape shapes.old }
    ensures below { shapes.new ≡ rest_shapes shapes.old }
{
    match shapes.pop() {
        Some(Shape::Bound(depth)) => depth,
        _ => 0,
    }
}

fn pop_subscript(shapes: &mut Stack<Shape>) -> u32
    ensures value { result ≡ subscript_shape shapes.old }
    ensures below { shapes.new ≡ rest_shapes shapes.old }
{
    match shapes.pop() {
        Some(Shape::Subscript(depth)) => depth,
        _ => 0,
    }
}

fn pop_subscripts(shapes: &mut Stack<Shape>) -> u32
    ensures value { result ≡ subscripts_shape shapes.old }
    ensures below { shapes.new ≡ rest_shapes shapes.old }
{
    match shapes.pop() {
        Some(Shape::Subscripts(depth)) => depth,
        _ => 0,
    }
}

fn one_more(depth: u32) -> u32
    ensures { result ≡ cap (depth + 1) }
{
    if depth == u32::MAX { depth } else { depth + 1 }
}

fn deeper(a: u32, b: u32) -> u32
    ensures { result ≡ max a b }
{
    if a < b { b } else { a }
}

/// The shape of what an action builds of values with these shapes, which it takes.
#[tactic(auto, unfolding(crate::specs::Shapes::apply_shape))]
pub fn shape_of(action: Action, shapes: &mut Stack<Shape>) -> Shape
    ensures { result ∷ shapes.new ≡ apply_shape action shapes.old }
{
    match action {
        Action::Number | Action::Truth | Action::Bare => {
            pop_word(shapes);
            Shape::Operand(1)
        }
        Action::Subscripted => {
            pop_word(shapes);
            let depth = pop_subscripts(shapes);
            pop_word(shapes);
            pop_word(shapes);
            Shape::Operand(one_more(depth))
        }
        Action::Paren => {
            pop_word(shapes);
            let depth = pop_operand(shapes);
            pop_word(shapes);
            Shape::Operand(one_more(depth))
        }
        Action::Not | Action::Plus | Action::Minus => {
            let depth = pop_operand(shapes);
            pop_word(shapes);
            Shape::Operand(one_more(depth))
        }
        Action::Two => {
            let right = pop_operand(shapes);
            pop_word(shapes);
            let left = pop_operand(shapes);
            Shape::Operand(one_more(deeper(left, right)))
        }
        Action::NoSubs => Shape::Subscripts(0),
        Action::FirstSub => Shape::Subscripts(pop_subscript(shapes)),
        Action::NextSub => {
            let last = pop_subscript(shapes);
            pop_word(shapes);
            let list = pop_subscripts(shapes);
            Shape::Subscripts(deeper(list, last))
        }
        Action::OneSub => Shape::Subscript(pop_operand(shapes)),
        Action::Section => {
            let upper = pop_bound(shapes);
            pop_word(shapes);
            let lower = pop_operand(shapes);
            Shape::Subscript(deeper(lower, upper))
        }
        Action::FromStart => {
            let upper = pop_bound(shapes);
            pop_word(shapes);
            Shape::Subscript(upper)
        }
        Action::Present => Shape::Bound(pop_operand(shapes)),
        _ => Shape::Bound(0),
    }
}

/// The depth of the expression or subscript that is cut here, its open parentheses closed, or nothing where more than these is wanted.
fn close(mut stack: Stack<Symbol>, mut shapes: Stack<Shape>) -> Result<Option<u32>, NoMemory>
    ensures { IfOk result (λ d. Closes d stack shapes) }
{
    while let Some(symbol) = stack.pop() {
        match symbol {
            Symbol::Take(class) => {
                let closes = class.is(Class::Close);
                if closes {
                    shapes.push(Shape::Written)?;
                } else {
                    return Ok(None);
                }
            }
            Symbol::Build(action) => {
                let top = shape_of(action, &mut shapes);
                shapes.push(top)?;
            }
            Symbol::Call(part) => match choose(part, None) {
                None => return Ok(None),
                Some(symbols) => push_row(&mut stack, symbols)?,
            },
        }
    }
    Ok(Some(pop_depth(&mut shapes)))
}

/// Whether the class is of names, numbers or truth values.
pub fn is_leaf(class: Class) -> bool
    ensures { result ≡ leaf_test class }
{
    let leaves = [
        Class::Name,
        Class::Intrinsic,
        Class::Number,
        Class::KindNumber,
        Class::Truth,
    ];
    leaves.iter().any(|leaf| leaf.is(class))
}

fn cut(alloc: Global, stack: &Stack<Symbol>, shapes: &Stack<Shape>) -> Result<Option<u32>, NoMemory>
    ensures { IfOk result (λ d. Closes d stack.now shapes.now) }
{
    let symbols = stack.copied(alloc)?;
    let copies = shapes.copied(alloc)?;
    close(symbols, copies)
}

/// Whether the expression or subscript that is cut here, its open parentheses closed, is deeper than the limit. It is not where more than closing parentheses is
/// wanted.
///
/// # Errors
/// `NoMemory` only where memory was refused.
pub fn is_too_deep(
    alloc: Global,
    stack: &Stack<Symbol>,
    shapes: &Stack<Shape>,
    limit: u32,
) -> Result<bool, NoMemory>
    ensures { IfOk result (λ b. Judges b limit stack.now shapes.now) }
{
    match cut(alloc, stack, shapes)? {
        Some(depth) => Ok(depth > limit),
        None => Ok(false),
    }
}

/// Whether a token of the class was a leaf, and the expression cut behind it is deeper than the limit.
///
/// # Errors
/// `NoMemory` only where memory was refused.
pub fn is_deep_at(
    alloc: Global,
    stack: &Stack<Symbol>,
    shapes: &Stack<Shape>,
    class: Class,
    limit: u32,
) -> Result<bool, NoMemory>
    ensures { IfOk result (λ b. JudgesAt b class limit stack.now shapes.now) }
{
    if is_leaf(class) {
        is_too_deep(alloc, stack, shapes, limit)
    } else {
        Ok(false)
    }
}
