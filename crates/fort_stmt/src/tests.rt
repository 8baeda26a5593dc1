//! A few statements from tokens on.
ghost use Rattle.std.specs.Prelude.{IsTrue};
ghost use Rattle.fort_tree.specs.Token.{is_token};

use crate::{Outcome, parse, statements_are_derived};
use fort_tree::{Place, Seq, Statement, Token};
use std::alloc::Global;
use std::test::Fail;

fn token(alloc: Global, text: &[u8]) -> Result<Token, Fail>
    requires { IsTrue (is_token text.now) }
{
    let text = Vec::from_slice(alloc, text)?;
    let at = Place {
        file: 0,
        line: 1,
        column: 1,
    };
    Ok(Token::new(Seq::from_vec(text), at))
}

fn three(alloc: Global, first: Token, second: Token, third: Token) -> Result<Seq<Token>, Fail> {
    let mut tokens = Seq::new(alloc);
    tokens.push(first)?;
    tokens.push(second)?;
    tokens.push(third)?;
    Ok(tokens)
}

fn an_assignment(alloc: Global) -> Result<Seq<Token>, Fail> {
    three(
        alloc,
        token(alloc, b"x")?,
        token(alloc, b"=")?,
        token(alloc, b"1")?,
    )
}

fn a_declaration(alloc: Global) -> Result<Seq<Token>, Fail> {
    three(
        alloc,
        token(alloc, b"logical")?,
        token(alloc, b"::")?,
        token(alloc, b"x")?,
    )
}

fn an_end_too_long(alloc: Global) -> Result<Seq<Token>, Fail> {
    three(
        alloc,
        token(alloc, b"end")?,
        token(alloc, b"do")?,
        token(alloc, b"do")?,
    )
}

/// The statement that the tokens are, or how many of them can begin one.
fn read(alloc: Global, tokens: Seq<Token>) -> Result<Result<Statement, usize>, Fail> {
    match parse(alloc, tokens.items())? {
        Outcome::Form(statement) => Ok(Ok(statement)),
        Outcome::Syntax(count) => Ok(Err(count)),
    }
}

#[test]
fn reads_an_assignment(rt: HostRuntime) -> Result<(), Fail> {
    let alloc = rt.alloc();
    let statement = read(alloc, an_assignment(alloc)?)?;
    assert!(rt; matches!(statement, Ok(Statement::Assign { .. })));
    Ok(())
}

#[test]
fn reads_a_declaration(rt: HostRuntime) -> Result<(), Fail> {
    let alloc = rt.alloc();
    let statement = read(alloc, a_declaration(alloc)?)?;
    assert!(rt; matches!(statement, Ok(Statement::Declare(_))));
    Ok(())
}

#[test]
fn finds_no_statement(rt: HostRuntime) -> Result<(), Fail> {
    let alloc = rt.alloc();
    let statement = read(alloc, an_end_too_long(alloc)?)?;
    assert_eq!(rt; statement.err(), Some(2));
    Ok(())
}

#[test]
fn laws_return() {
    statements_are_derived();
}
