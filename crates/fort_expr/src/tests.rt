//! One expression and one fault of each code, from tokens on.
ghost use Rattle.std.specs.Prelude.{IsTrue};
ghost use Rattle.fort_tree.specs.Token.{is_token};

use crate::expression;
use fort_tree::{Code, Line, Mode, Place, Seq, Stop, Token};
use std::alloc::Global;
use std::test::Fail;

fn place(column: u32) -> Place {
    Place {
        file: 0,
        line: 1,
        column,
    }
}

fn token(alloc: Global, text: &[u8], column: u32) -> Result<Token, Fail>
    requires { IsTrue (is_token text.now) }
{
    let text = Vec::from_slice(alloc, text)?;
    Ok(Token::new(Seq::from_vec(text), place(column)))
}

fn line(tokens: Seq<Token>) -> Line {
    Line {
        at: place(1),
        mode: Mode::Source,
        directive: false,
        unfinished: None,
        within: false,
        tokens,
    }
}

/// Two words and a number behind them.
fn three(alloc: Global, first: Token, second: Token) -> Result<Line, Fail> {
    let mut tokens = Seq::new(alloc);
    tokens.push(first)?;
    tokens.push(second)?;
    tokens.push(token(alloc, b"2_8", 3)?)?;
    Ok(line(tokens))
}

fn code_at(stop: Stop) -> Option<(Code, u8, u32)> {
    match stop {
        Stop::Fault(fault) => Some((fault.code, fault.item, fault.place.column)),
        Stop::NoMemory => None,
    }
}

/// The depth of the tree, or the fault.
fn judged(alloc: Global, line: &Line) -> Result<u32, Option<(Code, u8, u32)>> {
    let count = line.tokens.len();
    if count > 0 {
        match expression(alloc, line, 0) {
            Ok((tree, _behind)) => Ok(tree.depth()),
            Err(stop) => Err(code_at(stop)),
        }
    } else {
        Ok(0)
    }
}

#[test]
fn reads_a_sum(rt: HostRuntime) -> Result<(), Fail> {
    let alloc = rt.alloc();
    let line = three(alloc, token(alloc, b"a", 1)?, token(alloc, b"+", 2)?)?;
    assert_eq!(rt; judged(alloc, &line).ok(), Some(2));
    Ok(())
}

#[test]
fn finds_no_form(rt: HostRuntime) -> Result<(), Fail> {
    let alloc = rt.alloc();
    let line = three(alloc, token(alloc, b"a", 1)?, token(alloc, b"(", 2)?)?;
    assert_eq!(rt; judged(alloc, &line).err(), Some(Some((Code::E10, 0, 3))));
    Ok(())
}

#[test]
fn finds_a_made_name(rt: HostRuntime) -> Result<(), Fail> {
    let alloc = rt.alloc();
    let line = three(alloc, token(alloc, b"claw_a", 1)?, token(alloc, b"*", 2)?)?;
    assert_eq!(rt; judged(alloc, &line).err(), Some(Some((Code::E20, 10, 1))));
    Ok(())
}

/// A 1 in 64 open parentheses, and closing ones from column 66 up to the column `end`.
fn nested(alloc: Global, end: u32) -> Result<Line, Fail> {
    let mut tokens = Seq::new(alloc);
    for column in 1..65 {
        tokens.push(token(alloc, b"(", column)?)?;
    }
    tokens.push(token(alloc, b"1", 65)?)?;
    for column in 66..end {
        tokens.push(token(alloc, b")", column)?)?;
    }
    Ok(line(tokens))
}

#[test]
fn finds_what_is_too_deep(rt: HostRuntime) -> Result<(), Fail> {
    let alloc = rt.alloc();
    let rows = [
        // What is unfinished at the last token comes before the limit there.
        (66, Code::E10),
        (67, Code::E70),
        (130, Code::E70),
    ];
    for (end, code) in rows {
        let line = nested(alloc, end)?;
        assert_eq!(rt; judged(alloc, &line).err(), Some(Some((code, 0, 65))));
    }
    Ok(())
}

#[test]
fn finds_that_the_last_is_too_deep(rt: HostRuntime) -> Result<(), Fail> {
    let alloc = rt.alloc();
    let mut tokens = Seq::new(alloc);
    for column in 1..65 {
        tokens.push(token(alloc, b"1", column)?)?;
        tokens.push(token(alloc, b"+", column)?)?;
    }
    tokens.push(token(alloc, b"1", 65)?)?;
    assert_eq!(rt;
        judged(alloc, &line(tokens)).err(),
        Some(Some((Code::E70, 0, 65)))
    );
    Ok(())
}
