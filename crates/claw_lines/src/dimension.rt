//! The directive `define dimension`.
ghost use Rattle.std.specs.Prelude.{◌≡◌, Some, None, IfOk, IsErrOf, option_map};
ghost use Rattle.claw_lines.specs.Forms.{dimension_of};
ghost use Rattle.claw_lines.specs.Steps.{lower_first, lower_bound, upper_bound, upper_of, named_front, dimension as dimension_front};

use crate::numbers::literal;
use crate::taking::{free_name, is_text};
use crate::unread::Unread;
use fort_tree::{Boxed, Directive, DirectiveWord, Expr, Name, NoMemory, Place, Seq, Token, Unary};
use std::alloc::Global;

/// The number in front, and the tokens behind it.
fn first_literal(tokens: &[Token]) -> Option<(Expr, &[Token])>
    ensures { option_map (λ front. (front.0, front.1.now)) result ≡ lower_first tokens.now }
{
    let (token, rest) = tokens.split_first()?;
    let bound = literal(token)?;
    Some((bound, rest))
}

/// The number in front, which may have a `-` before it, and the tokens behind it.
fn lower<'a>(alloc: Global, tokens: &'a [Token]) -> Result<(Expr, &'a [Token]), Unread>
    ensures some { IfOk result (λ read. lower_bound tokens.now ≡ Some (read.0, read.1.now)) }
    ensures none { IsErrOf result Unread.NoForm → lower_bound tokens.now ≡ None }
{
    let (token, others) = tokens.split_first().ok_or(Unread::NoForm)?;
    if is_text(token, b"-") {
        let (bound, rest) = first_literal(others).ok_or(Unread::NoForm)?;
        let bound = Expr::One(Unary::Minus, Boxed::new(alloc, bound)?, token.at);
        return Ok((bound, rest));
    }
    let (bound, rest) = first_literal(tokens).ok_or(Unread::NoForm)?;
    Ok((bound, rest))
}

/// The number or the name that the token is.
fn upper(token: &Token) -> Option<Expr>
    ensures { result ≡ upper_bound token.now }
{
    if let Some(bound) = literal(token) {
        return Some(bound);
    }
    let name = free_name(DirectiveWord::Define, token)?;
    Some(Expr::Ref(name, None, token.at))
}

/// The upper bound behind a colon and with a `)` behind it, and the tokens behind that.
fn upper_in_front(tokens: &[Token]) -> Option<(Expr, &[Token])>
    ensures { option_map (λ front. (front.0, front.1.now)) result ≡ upper_of tokens.now }
{
    let (colon, others) = tokens.split_first()?;
    if !is_text(colon, b":") {
        return None;
    }
    let (token, others) = others.split_first()?;
    let (close, rest) = others.split_first()?;
    if !is_text(close, b")") {
        return None;
    }
    let bound = upper(token)?;
    Some((bound, rest))
}

fn dimension_directive(
    alloc: Global,
    at: Place,
    name: Name,
    lower: Expr,
    upper: Expr,
) -> Result<Directive, NoMemory>
    ensures { IfOk result (λ directive. directive ≡ dimension_of at name lower upper) }
{
    let mut names = Seq::new(alloc);
    names.push(name)?;
    Ok(Directive {
        at,
        word: DirectiveWord::Define,
        names,
        over: None,
        number: None,
        group: None,
        init: false,
        lower: Some(lower),
        upper: Some(upper),
    })
}

/// The name in front with a `(` behind it, and the tokens behind that.
fn named_in_front(tokens: &[Token]) -> Option<(Name, &[Token])>
    ensures { option_map (λ front. (front.0, front.1.now)) result ≡ named_front tokens.now }
{
    let (token, others) = tokens.split_first()?;
    let (open, rest) = others.split_first()?;
    if !is_text(open, b"(") {
        return None;
    }
    let name = free_name(DirectiveWord::Define, token)?;
    Some((name, rest))
}

/// The directive whose words `define dimension` stand before the tokens, and the tokens behind it.
pub fn dimension<'a>(
    alloc: Global,
    at: Place,
    tokens: &'a [Token],
) -> Result<(Directive, &'a [Token]), Unread>
    ensures some { IfOk result (λ read. dimension_front at tokens.now ≡ Some (read.0, read.1.now)) }
    ensures none { IsErrOf result Unread.NoForm → dimension_front at tokens.now ≡ None }
{
    let Some((name, others)) = named_in_front(tokens) else {
        return Err(Unread::NoForm);
    };
    let (lower, others) = lower(alloc, others)?;
    let Some((upper, rest)) = upper_in_front(others) else {
        return Err(Unread::NoForm);
    };
    let directive = dimension_directive(alloc, at, name, lower, upper)?;
    Ok((directive, rest))
}
