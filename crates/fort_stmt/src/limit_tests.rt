//! The first token past each limit, at it and one before it, and long statements.
ghost use Rattle.std.specs.Prelude.{IsTrue};
ghost use Rattle.fort_tree.specs.Token.{is_token};

use crate::{first_past_limit, parentheses_count};
use fort_tree::{Mode, Place, Seq, Token};
use std::alloc::Global;
use std::test::Fail;

fn token(alloc: Global, text: &[u8]) -> Result<Token, Fail>
    requires { IsTrue (is_token text.now) }
{
    let text = Vec::from_slice(alloc, text)?;
    let place = Place {
        file: 0,
        line: 1,
        column: 1,
    };
    Ok(Token::new(Seq::from_vec(text), place))
}

/// `x = ` and a number behind open parentheses.
fn parentheses(alloc: Global, count: usize) -> Result<Seq<Token>, Fail> {
    let mut tokens = Seq::new(alloc);
    tokens.push(token(alloc, b"x")?)?;
    tokens.push(token(alloc, b"=")?)?;
    for _ in 0..count {
        tokens.push(token(alloc, b"(")?)?;
    }
    tokens.push(token(alloc, b"1")?)?;
    Ok(tokens)
}

/// `call f(` and as many numbers with commas between.
fn call(alloc: Global, count: usize) -> Result<Seq<Token>, Fail> {
    let mut tokens = Seq::new(alloc);
    tokens.push(token(alloc, b"call")?)?;
    tokens.push(token(alloc, b"f")?)?;
    tokens.push(token(alloc, b"(")?)?;
    for _ in 0..count {
        tokens.push(token(alloc, b"1")?)?;
        tokens.push(token(alloc, b",")?)?;
    }
    Ok(tokens)
}

/// Appends open parentheses and a number.
fn nested(alloc: Global, tokens: &mut Seq<Token>, count: usize) -> Result<(), Fail> {
    for _ in 0..count {
        tokens.push(token(alloc, b"(")?)?;
    }
    tokens.push(token(alloc, b"1")?)?;
    Ok(())
}

fn test_of_if(alloc: Global) -> Result<Seq<Token>, Fail> {
    let mut tokens = Seq::new(alloc);
    tokens.push(token(alloc, b"if")?)?;
    tokens.push(token(alloc, b"(")?)?;
    Ok(tokens)
}

fn test_of_else_if(alloc: Global) -> Result<Seq<Token>, Fail> {
    let mut tokens = Seq::new(alloc);
    tokens.push(token(alloc, b"else")?)?;
    tokens.push(token(alloc, b"if")?)?;
    tokens.push(token(alloc, b"(")?)?;
    Ok(tokens)
}

fn expression_of_select(alloc: Global) -> Result<Seq<Token>, Fail> {
    let mut tokens = Seq::new(alloc);
    tokens.push(token(alloc, b"selectcase")?)?;
    tokens.push(token(alloc, b"(")?)?;
    Ok(tokens)
}

fn first_of_do(alloc: Global) -> Result<Seq<Token>, Fail> {
    let mut tokens = Seq::new(alloc);
    tokens.push(token(alloc, b"do")?)?;
    tokens.push(token(alloc, b"i")?)?;
    tokens.push(token(alloc, b"=")?)?;
    Ok(tokens)
}

fn second_of_do(alloc: Global) -> Result<Seq<Token>, Fail> {
    let mut tokens = first_of_do(alloc)?;
    tokens.push(token(alloc, b"1")?)?;
    tokens.push(token(alloc, b",")?)?;
    Ok(tokens)
}

fn third_of_do(alloc: Global) -> Result<Seq<Token>, Fail> {
    let mut tokens = second_of_do(alloc)?;
    tokens.push(token(alloc, b"1")?)?;
    tokens.push(token(alloc, b",")?)?;
    Ok(tokens)
}

fn right_side_behind_if(alloc: Global) -> Result<Seq<Token>, Fail> {
    let mut tokens = test_of_if(alloc)?;
    tokens.push(token(alloc, b"x")?)?;
    tokens.push(token(alloc, b")")?)?;
    tokens.push(token(alloc, b"x")?)?;
    tokens.push(token(alloc, b"=")?)?;
    Ok(tokens)
}

/// Behind a name and `(` a subscript has one level less.
fn left_side(alloc: Global) -> Result<Seq<Token>, Fail> {
    let mut tokens = Seq::new(alloc);
    tokens.push(token(alloc, b"x")?)?;
    tokens.push(token(alloc, b"(")?)?;
    Ok(tokens)
}

fn past(alloc: Global, mode: Mode, tokens: &Seq<Token>) -> Option<usize> {
    match first_past_limit(alloc, mode, tokens.items()) {
        Ok(first) => first,
        Err(_) => None,
    }
}

#[test]
fn depth_of_a_right_side(rt: HostRuntime) -> Result<(), Fail> {
    let alloc = rt.alloc();
    let within = parentheses(alloc, 63)?;
    assert_eq!(rt; past(alloc, Mode::Source, &within), None);
    let deep = parentheses(alloc, 64)?;
    assert_eq!(rt; past(alloc, Mode::Source, &deep), Some(66));
    assert_eq!(rt; past(alloc, Mode::Target, &deep), None);
    let deeper = parentheses(alloc, 96)?;
    assert_eq!(rt; past(alloc, Mode::Target, &deeper), Some(98));
    Ok(())
}

#[test]
fn depth_of_an_argument(rt: HostRuntime) -> Result<(), Fail> {
    let alloc = rt.alloc();
    let mut within = call(alloc, 2)?;
    nested(alloc, &mut within, 63)?;
    assert_eq!(rt; past(alloc, Mode::Source, &within), None);
    let mut deep = call(alloc, 2)?;
    nested(alloc, &mut deep, 64)?;
    assert_eq!(rt; past(alloc, Mode::Source, &deep), Some(71));
    Ok(())
}

/// The first token past a limit behind so many open parentheses, counted from the number in them.
fn before_number(
    alloc: Global,
    tokens: &mut Seq<Token>,
    count: usize,
) -> Result<Option<usize>, Fail> {
    nested(alloc, tokens, count)?;
    let number = tokens.len().saturating_sub(1);
    Ok(past(alloc, Mode::Source, tokens).map(|first| number.saturating_sub(first)))
}

#[test]
fn depth_in_each_place(rt: HostRuntime) -> Result<(), Fail> {
    let alloc = rt.alloc();
    let heads: [fn(Global) -> Result<Seq<Token>, Fail>; 7] = [
        test_of_if,
        test_of_else_if,
        expression_of_select,
        first_of_do,
        second_of_do,
        third_of_do,
        right_side_behind_if,
    ];
    for head in heads {
        let mut within = head(alloc)?;
        assert_eq!(rt; before_number(alloc, &mut within, 63)?, None);
        let mut deep = head(alloc)?;
        assert_eq!(rt; before_number(alloc, &mut deep, 64)?, Some(0));
    }
    Ok(())
}

#[test]
fn depth_of_a_left_side(rt: HostRuntime) -> Result<(), Fail> {
    let alloc = rt.alloc();
    let mut within = left_side(alloc)?;
    assert_eq!(rt; before_number(alloc, &mut within, 62)?, None);
    let mut deep = left_side(alloc)?;
    assert_eq!(rt; before_number(alloc, &mut deep, 63)?, Some(0));
    Ok(())
}

#[test]
fn tokens_of_a_statement(rt: HostRuntime) -> Result<(), Fail> {
    let alloc = rt.alloc();
    let tokens = parentheses(alloc, 16000)?;
    assert_eq!(rt; past(alloc, Mode::Source, &tokens), Some(1000));
    assert_eq!(rt; past(alloc, Mode::Target, &tokens), Some(16000));
    Ok(())
}

#[test]
fn many_arguments(rt: HostRuntime) -> Result<(), Fail> {
    let alloc = rt.alloc();
    let tokens = call(alloc, 7998)?;
    assert_eq!(rt; past(alloc, Mode::Target, &tokens), None);
    let more = call(alloc, 9000)?;
    assert_eq!(rt; past(alloc, Mode::Target, &more), Some(16000));
    Ok(())
}

#[test]
fn law_returns(rt: HostRuntime) {
    parentheses_count();
}
