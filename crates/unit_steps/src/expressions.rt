//! Expressions and their parts.
ghost use Rattle.std.specs.Prelude.{◌≡◌, ◌++◌, map, flat_map, IfOk, OnOk};
ghost use Rattle.std.specs.Option.{option_to_list};
ghost use Rattle.sound_programs.specs.Placing.{limit, placed_bound, placed_decl, placed_expr, placed_option, placed_sub, placed_subs};
ghost use Rattle.sound_programs.specs.Placed.{Subscripts};
ghost use Rattle.sound_programs.specs.Walks.{bounds_in, bounds_of, in_subscripts, parts, parts_in, parts_in_limit};
ghost use Rattle.unit_steps.specs.Behind.{exprs};

use fort_tree::{Bound, Boxed, Decl, Expr, NoMemory, Sub};
use std::alloc::Global;

/// Adds the expression and all its parts, in the order of the text.
///
/// # Errors
/// `NoMemory` only where memory was refused.
#[cycle(parts)]
pub fn note_parts<'a>(expr: &'a Expr, into: &mut Vec<&'a Expr>) -> Result<(), NoMemory>
    ensures { OnOk result (exprs into.new.items ≡ exprs into.old.items ++ parts (placed_expr expr.now)) }
{
    into.push(expr)?;
    match expr {
        Expr::Number(..) | Expr::Truth(..) | Expr::Ref(_, None, _) => Ok(()),
        Expr::Ref(_, Some(subs), _) => note_parts_in(subs.items(), into),
        Expr::One(_, part, _) | Expr::Paren(part, _) => note_parts_behind(part, into),
        Expr::Two(_, left, right) => {
            note_parts_behind(left, into)?;
            note_parts_behind(right, into)
        }
    }
}

#[cycle(parts)]
fn note_parts_behind<'a>(part: &'a Boxed<Expr>, into: &mut Vec<&'a Expr>) -> Result<(), NoMemory>
    ensures { OnOk result (exprs into.new.items ≡ exprs into.old.items ++ parts (placed_expr part.now)) }
{
    note_parts(part.get(), into)
}

#[cycle(parts)]
fn note_parts_in<'a>(subs: &'a [Sub], into: &mut Vec<&'a Expr>) -> Result<(), NoMemory>
    ensures { OnOk result (exprs into.new.items ≡ exprs into.old.items ++ parts_in (placed_subs subs.now)) }
{
    for sub in subs {
        note_parts_of_sub(sub, into)?;
    }
    Ok(())
}

#[cycle(parts)]
fn note_parts_of_sub<'a>(sub: &'a Sub, into: &mut Vec<&'a Expr>) -> Result<(), NoMemory>
    ensures { OnOk result ((rest : Subscripts) → exprs into.new.items ++ parts_in rest ≡ exprs into.old.items ++ parts_in (placed_sub sub.now rest)) }
{
    match sub {
        Sub::One(expr) => note_parts(expr, into),
        Sub::Range(from, to, _) => {
            note_parts_if_any(from, into)?;
            note_parts_if_any(to, into)
        }
    }
}

#[cycle(parts)]
fn note_parts_if_any<'a>(expr: &'a Option<Expr>, into: &mut Vec<&'a Expr>) -> Result<(), NoMemory>
    ensures { OnOk result (exprs into.new.items ≡ exprs into.old.items ++ parts_in_limit (limit (placed_option expr.now))) }
{
    match expr {
        None => Ok(()),
        Some(expr) => note_parts(expr, into),
    }
}

/// Adds the expression where there is one.
pub(crate) fn note_if_any<'a>(
    expr: &'a Option<Expr>,
    into: &mut Vec<&'a Expr>,
) -> Result<(), NoMemory>
    ensures { OnOk result (exprs into.new.items ≡ exprs into.old.items ++ option_to_list (placed_option expr.now)) }
{
    match expr {
        None => Ok(()),
        Some(expr) => Ok(into.push(expr)?),
    }
}

fn note_subscript<'a>(sub: &'a Sub, into: &mut Vec<&'a Expr>) -> Result<(), NoMemory>
    ensures { OnOk result ((rest : Subscripts) → exprs into.new.items ++ in_subscripts rest ≡ exprs into.old.items ++ in_subscripts (placed_sub sub.now rest)) }
{
    match sub {
        Sub::One(expr) => Ok(into.push(expr)?),
        Sub::Range(from, to, _) => {
            note_if_any(from, into)?;
            note_if_any(to, into)
        }
    }
}

/// Adds the whole expressions in subscripts or arguments, bounds of sections among them.
///
/// # Errors
/// `NoMemory` only where memory was refused.
pub fn note_subscripts<'a>(subs: &'a [Sub], into: &mut Vec<&'a Expr>) -> Result<(), NoMemory>
    ensures { OnOk result (exprs into.new.items ≡ exprs into.old.items ++ in_subscripts (placed_subs subs.now)) }
{
    for sub in subs {
        note_subscript(sub, into)?;
    }
    Ok(())
}

fn note_shape<'a>(shape: &'a [Bound], into: &mut Vec<&'a Expr>) -> Result<(), NoMemory>
    ensures { OnOk result (exprs into.new.items ≡ exprs into.old.items ++ flat_map bounds_of (map placed_bound shape.now)) }
{
    for bound in shape {
        note_if_any(&bound.lower, into)?;
        note_if_any(&bound.upper, into)?;
    }
    Ok(())
}

/// The bounds in declarations, in the order of the text.
///
/// # Errors
/// `NoMemory` only where memory was refused.
pub fn bounds<'a>(alloc: Global, decls: &'a [Decl]) -> Result<Vec<&'a Expr>, NoMemory>
    ensures { IfOk result (λ list. exprs list.items ≡ bounds_in (map placed_decl decls.now)) }
{
    let mut list = Vec::new(alloc);
    for decl in decls {
        note_shape(decl.shape.items(), &mut list)?;
    }
    Ok(list)
}
