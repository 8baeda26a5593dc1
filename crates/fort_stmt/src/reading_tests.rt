//! A statement and its sort, and one fault of each code, from tokens on.
ghost use Rattle.std.specs.Prelude.{IsTrue};
ghost use Rattle.fort_tree.specs.Token.{is_token};

use crate::{ActionSort, Sort, sketch, statement};
use fort_tree::{Code, Line, Mode, Place, Seq, Stop, Token};
use std::alloc::Global;
use std::test::Fail;

fn place(column: u32) -> Place {
    Place {
        file: 0,
        line: 1,
        column,
    }
}

fn token(alloc: Global, text: &[u8], column: u32) -> Result<Token, Fail>
    requires { IsTrue (is_token text.now) }
{
    let text = Vec::from_slice(alloc, text)?;
    Ok(Token::new(Seq::from_vec(text), place(column)))
}

/// A word, an equals sign and a number.
fn assignment(alloc: Global, first: Token) -> Result<Line, Fail> {
    let mut tokens = Seq::new(alloc);
    tokens.push(first)?;
    tokens.push(token(alloc, b"=", 2)?)?;
    tokens.push(token(alloc, b"1", 3)?)?;
    Ok(Line {
        at: place(1),
        mode: Mode::Source,
        directive: false,
        unfinished: None,
        within: false,
        tokens,
    })
}

/// The fault of the line, with its item and column.
fn fault_of(alloc: Global, line: &Line) -> Option<(Code, u8, u32)> {
    let count = line.tokens.len();
    if count == 0 {
        return None;
    }
    match statement(alloc, line) {
        Err(Stop::Fault(fault)) => Some((fault.code, fault.item, fault.place.column)),
        _ => None,
    }
}

#[test]
fn reads_an_assignment(rt: HostRuntime) -> Result<(), Fail> {
    let alloc = rt.alloc();
    let line = assignment(alloc, token(alloc, b"x", 1)?)?;
    assert!(rt; fault_of(alloc, &line).is_none());
    assert_eq!(rt; sketch(alloc, &line)?, Some(Sort::Act(ActionSort::Assign)));
    Ok(())
}

#[test]
fn a_reserved_word_is_outside(rt: HostRuntime) -> Result<(), Fail> {
    let alloc = rt.alloc();
    let line = assignment(alloc, token(alloc, b"then", 1)?)?;
    assert_eq!(rt; fault_of(alloc, &line), Some((Code::E20, 10, 1)));
    Ok(())
}

#[test]
fn a_keyword_is_that_keyword(rt: HostRuntime) -> Result<(), Fail> {
    let alloc = rt.alloc();
    let line = assignment(alloc, token(alloc, b"exit", 1)?)?;
    assert_eq!(rt; fault_of(alloc, &line), Some((Code::E10, 0, 2)));
    Ok(())
}

#[test]
fn a_word_of_other_statements_is_outside(rt: HostRuntime) -> Result<(), Fail> {
    let alloc = rt.alloc();
    let line = assignment(alloc, token(alloc, b"data", 1)?)?;
    assert_eq!(rt; fault_of(alloc, &line), Some((Code::E20, 6, 1)));
    Ok(())
}
