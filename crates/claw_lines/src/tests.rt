use crate::directive;
use fort_tokens::{Char, tokens};
use fort_tree::{Line, Mode, NoMemory, Place, Seq, Stop, Token};
use std::alloc::Global;
use std::test::Fail;

const START: Place = Place {
    file: 0,
    line: 1,
    column: 1,
};

fn characters(alloc: Global, text: &[u8]) -> Result<Vec<Char>, NoMemory> {
    let mut characters = Vec::new(alloc);
    for byte in text {
        characters.push(Char {
            byte: *byte,
            at: START,
        })?;
    }
    Ok(characters)
}

/// A line of `!$claw` with this text behind it.
fn line(alloc: Global, text: &[u8]) -> Result<Line, NoMemory> {
    let mut all = Seq::new(alloc);
    let sentinel = Seq::from_vec(Vec::from_slice(alloc, b"!$claw")?);
    all.push(Token::new(sentinel, START))?;
    for token in tokens(alloc, &characters(alloc, text)?)?
        .into_tokens()
        .into_vec()
    {
        all.push(token)?;
    }
    Ok(Line {
        at: START,
        mode: Mode::Source,
        directive: true,
        unfinished: None,
        within: false,
        tokens: all,
    })
}

/// Lines with the number of directives that they ask for, or none for E40.
#[test]
fn reads_lines(rt: HostRuntime) -> Result<(), Fail> {
    for (text, count) in [
        (
            b"DEFINE dimension j(-1:np_4) parallelize over(j, :) data(a, b)".as_slice(),
            Some(2),
        ),
        (b"loop - fusion collapse(2) group(g)", Some(1)),
        (b"kcache init data(q) offset(-1)", Some(1)),
        (b"parallelize forward", Some(1)),
        (b"parallelize forward data(a)", None),
        (b"parallelize data(a) data(b)", None),
        (b"parallelize define dimension j(1:n)", None),
        (b"define dimension j(1:-5)", None),
        (b"loop-hoist()", None),
        (b"loop-interchange(sum)", None),
    ] {
        let line = line(rt.alloc(), text)?;
        let answer = directive(rt.alloc(), &line);
        assert_eq!(rt; count_of(answer)?, count);
    }
    Ok(())
}

/// The number of directives, or `None` for a fault.
fn count_of(answer: Result<Seq<fort_tree::Directive>, Stop>) -> Result<Option<usize>, NoMemory> {
    match answer {
        Ok(directives) => Ok(Some(directives.len())),
        Err(Stop::Fault(_)) => Ok(None),
        Err(Stop::NoMemory) => Err(NoMemory),
    }
}
