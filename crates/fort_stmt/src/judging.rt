//! Whether tokens are a statement of the profile.
ghost use Rattle.std.specs.Prelude.{◌≡◌, ◌+◌, ◌<◌, ◌≤◌, length, take, drop, IfOk};
ghost use Rattle.fort_stmt.specs.declared.outline.Outline.{Outline};
ghost use Rattle.fort_stmt.specs.Faults.{Extends, Judges};

use crate::outline::{Outline, first_name, sort_with};
use crate::outside::item;
use crate::sort::Sort;
use fort_grammar::{Part, Stack, Step, Symbol, advance, finish};
use fort_tree::{Mode, NoMemory, Token};
use std::alloc::Global;

/// What some tokens are by their form and the profile.
#[derive(Clone, Copy, Debug)]
pub enum Judgement {
    /// A statement, of this sort.
    Form(Sort),
    /// No statement: with as many tokens one can begin, and with the next none. Where these are all, a statement begins with them and ends in none.
    Syntax(usize),
    /// The token behind as many is outside the profile, with the item.
    Outside(usize, u8),
}

/// How far some tokens are a statement of the profile.
#[derive(Clone, Copy, Debug)]
pub enum Extent {
    /// They are one.
    Whole,
    /// No statement: with as many tokens one can begin, and with the next none. Where these are all, a statement begins with them and ends in none.
    Syntax(usize),
    /// The token behind as many is outside the profile, with the item.
    Outside(usize, u8),
}

/// The tokens before the one with this number.
fn before(tokens: &[Token], i: usize) -> &[Token]
    requires { i ≤ length tokens.now }
    ensures { result.now ≡ take i tokens.now }
{
    &tokens[..i]
}

/// The tokens behind the one with this number.
fn behind(tokens: &[Token], i: usize) -> &[Token]
    requires { i < length tokens.now }
    ensures { result.now ≡ drop (i + 1) tokens.now }
{
    &tokens[i + 1..]
}

/// How far the tokens are a statement of the profile, and into `outline` the outline of the statement that they are.
///
/// # Errors
/// `NoMemory` only where memory was refused.
fn outlined(
    alloc: Global,
    mode: Mode,
    tokens: &[Token],
    outline: &mut Outline,
) -> Result<Extent, NoMemory>
    requires { outline.old ≡ Outline.Contains }
    ensures { IfOk result (λ extent. Extends extent mode tokens.now outline.new) }
{
    let mut stack = Stack::new(alloc);
    stack.push(Symbol::Call(Part::Statement))?;
    for (i, token) in tokens.iter().enumerate() {
        let outside = item(mode, before(tokens, i), &stack, token, behind(tokens, i));
        if let Some(item) = outside {
            return Ok(Extent::Outside(i, item));
        }
        match advance(alloc, &mut stack, outline, token)? {
            Step::Moved => {}
            Step::Whole => return Ok(Extent::Syntax(i)),
            Step::Stuck => return Ok(Extent::Syntax(i)),
        }
    }
    let whole = finish(alloc, &mut stack, outline)?;
    if whole {
        Ok(Extent::Whole)
    } else {
        Ok(Extent::Syntax(tokens.len()))
    }
}

/// How far the tokens are a statement of the profile.
///
/// # Errors
/// `NoMemory` only where memory was refused.
pub fn extent_of(alloc: Global, mode: Mode, tokens: &[Token]) -> Result<Extent, NoMemory>
    ensures { IfOk result (λ extent. (o : Outline) × Extends extent mode tokens.now o) }
{
    let mut outline = Outline::Contains;
    outlined(alloc, mode, tokens, &mut outline)
}

/// What the tokens are: the sort of the statement that they are, or the first fault of form or of the profile.
///
/// A fault of form is at the first token with which no statement can begin, or behind the last token where all of them begin one; a token outside the profile is
/// one that `item` gives an item. At one token the profile comes first, and of several items the least.
///
/// # Errors
/// `NoMemory` only where memory was refused.
pub fn judged(alloc: Global, mode: Mode, tokens: &[Token]) -> Result<Judgement, NoMemory>
    ensures { IfOk result (λ j. Judges j mode tokens.now) }
{
    let mut outline = Outline::Contains;
    match outlined(alloc, mode, tokens, &mut outline)? {
        Extent::Whole => match sort_with(outline, first_name(tokens)) {
            Some(sort) => Ok(Judgement::Form(sort)),
            None => unreachable!(),
        },
        Extent::Syntax(count) => Ok(Judgement::Syntax(count)),
        Extent::Outside(count, item) => Ok(Judgement::Outside(count, item)),
    }
}
