//! The expression at the front of tokens.
ghost use Rattle.std.specs.Prelude.{◌≡◌, ◌<◌, ◌≤◌, length, IfOk};
ghost use Rattle.fort_expr.specs.Faults.{Parses, Answers, depth_limit as depth_limit_of, token_limit as token_limit_of, place_at as place_of_number};
ghost use Rattle.fort_expr.specs.Machine.{JudgesPast};

use crate::build::{Tracked, pop_operand};
use crate::depth::is_deep_at;
use crate::outside::{class_behind, item};
use crate::value::Shape;
use fort_grammar::{Class, Part, Stack, Step, Symbol, advance, class_of, finish};
use fort_tree::{Code, Expr, Fault, Line, Mode, NoMemory, Place, Stop, Token};
use std::alloc::Global;

/// What the front of some tokens is. Each number counts tokens.
pub enum Outcome {
    /// An expression of the first tokens.
    Value(Expr, usize),
    /// No expression: with the first tokens one can begin, and with the next none.
    Syntax(usize),
    /// The token behind the first ones is outside the profile, with the item.
    Outside(usize, u8),
    /// The token behind the first ones is one too many, or the expression cut behind it is too deep; and it isn't the last of an unfinished expression.
    PastLimit(usize),
}

/// How deep an expression may be. The limit is this project's own.
pub fn depth_limit(mode: Mode) -> u32
    ensures { result ≡ depth_limit_of mode }
{
    match mode {
        Mode::Source => 64,
        Mode::Target => 96,
    }
}

/// How many tokens a statement may have. The limit is this project's own.
pub fn token_limit(mode: Mode) -> usize
    ensures { result ≡ token_limit_of mode }
{
    match mode {
        Mode::Source => 1000,
        Mode::Target => 16000,
    }
}

/// Whether a token of the class, with the number `i`, is past a limit.
fn is_past_limit(
    alloc: Global,
    mode: Mode,
    i: usize,
    stack: &Stack<Symbol>,
    shapes: &Stack<Shape>,
    class: Class,
) -> Result<bool, NoMemory>
    ensures { IfOk result (λ b. JudgesPast b mode i class stack.now shapes.now) }
{
    let past = i >= token_limit(mode);
    if past {
        return Ok(true);
    }
    is_deep_at(alloc, stack, shapes, class, depth_limit(mode))
}

fn parse(alloc: Global, mode: Mode, tokens: &[Token]) -> Result<Outcome, NoMemory>
    ensures { IfOk result (λ o. Parses o mode tokens.now) }
{
    let mut stack = Stack::new(alloc);
    let mut values = Tracked {
        values: Stack::new(alloc),
        shapes: Stack::new(alloc),
    };
    stack.push(Symbol::Call(Part::Expr))?;
    for (i, token) in tokens.iter().enumerate() {
        let outside = item(mode, &stack, token, class_behind(tokens, i));
        match advance(alloc, &mut stack, &mut values, token)? {
            Step::Moved => {}
            Step::Whole => return Ok(Outcome::Value(pop_operand(&mut values.values).0, i)),
            Step::Stuck => {
                if let Some(item) = outside {
                    return Ok(Outcome::Outside(i, item));
                }
                return Ok(Outcome::Syntax(i));
            }
        }
        if let Some(item) = outside {
            return Ok(Outcome::Outside(i, item));
        }
        let past = is_past_limit(alloc, mode, i, &stack, &values.shapes, class_of(token))?;
        if past {
            let last = i + 1 == tokens.len();
            if last {
                // What is unfinished at the last token comes before a limit there.
                let ends = finish(alloc, &mut stack, &mut values)?;
                if ends {
                    return Ok(Outcome::PastLimit(i));
                }
                return Ok(Outcome::Syntax(tokens.len()));
            }
            return Ok(Outcome::PastLimit(i));
        }
    }
    let whole = finish(alloc, &mut stack, &mut values)?;
    if whole {
        Ok(Outcome::Value(pop_operand(&mut values.values).0, tokens.len()))
    } else {
        Ok(Outcome::Syntax(tokens.len()))
    }
}

/// The place of the token with this number, or of the last one where there are no more.
fn place_at(tokens: &[Token], i: usize) -> Place
    requires { 0 < length tokens.now }
    ensures { Some result ≡ place_of_number tokens.now i }
{
    let last = tokens.len() - 1;
    tokens[i.min(last)].at
}

/// The expression that the tokens of the line are from the one with the number `at` on, and the number of the token behind it. It is that of the longest run of
/// tokens with which an expression can begin; what follows a whole expression isn't judged. The grammar is that of ISO/IEC 1539-1:2018 10.1.2, cut down to this
/// project's profile.
///
/// # Errors
/// The first fault in that run and the token behind it, where the run is no expression, or is one with a fault:
/// - `E10` at the first token with which no expression can begin, or at the line's last token where all of them can.
/// - `E20` at a token outside the profile. Item 10: a reserved word where a name could stand, or, in a source, a name that begins with `claw_`. Item 12: a second colon
///   in a section or a double one, an argument's name before `=`, or `(` before `/`.
/// - `E70` at the first name, number or truth value behind which the expression is deeper than 64, its open parentheses closed, or at the first of these tokens past 1000; in a
///   target text 96 and 16000.
///
/// At one token E20 comes before E10, and that before E70. `NoMemory` only where memory was refused.
pub fn expression(alloc: Global, line: &Line, at: usize) -> Result<(Expr, usize), Stop>
    requires token { 0 < length line.now.tokens }
    requires at { at ≤ length line.now.tokens }
    ensures { Answers result line.now.mode line.now.tokens at }
{
    let tokens = line.tokens.items();
    match parse(alloc, line.mode, &tokens[at..])? {
        Outcome::Value(expr, count) => Ok((expr, at + count)),
        Outcome::Syntax(count) => Err(Stop::Fault(Fault::new(
            Code::E10,
            place_at(tokens, at + count),
        ))),
        Outcome::Outside(count, item) => {
            Err(Stop::Fault(Fault::outside_profile(place_at(tokens, at + count), item)))
        }
        Outcome::PastLimit(count) => Err(Stop::Fault(Fault::new(
            Code::E70,
            place_at(tokens, at + count),
        ))),
    }
}
