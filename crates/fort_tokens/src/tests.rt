use crate::{Char, Reader, tokens};
use fort_tree::{NoMemory, Place};
use std::alloc::Global;
use std::test::Fail;

/// Reads a line 1.
fn read(alloc: Global, line: &[u8]) -> Result<Reader, NoMemory> {
    let mut characters = Vec::new(alloc);
    let mut column = 0u32;
    for byte in line {
        column = column.wrapping_add(1);
        let at = Place {
            file: 0,
            line: 1,
            column,
        };
        characters.push(Char { byte: *byte, at })?;
    }
    tokens(alloc, &characters)
}

/// Lines with the number of their tokens, the text of the last one, and the column of the first bad one.
#[test]
fn reads_lines(rt: HostRuntime) -> Result<(), Fail> {
    for (line, count, last, bad) in [
        (b"X = Y_1**2".as_slice(), 5, b"2".as_slice(), None),
        (b"a 5_16", 3, b"6", None),
        (b"if(i.EQ.1.or.l)", 8, b")", None),
        (b"t(:, 2::3) /= .TRUE.", 10, b".true.", None),
        (b"a=5.5", 2, b"=", Some(3)),
        (b"n=1_3", 3, b"1", Some(4)),
        (b"u 'b'", 1, b"u", Some(3)),
        (b"i=9223372036854775808", 2, b"=", Some(3)),
    ] {
        let reader = read(rt.alloc(), line)?;
        assert_eq!(rt; reader.bad().map(|at| at.column), bad);
        let tokens = reader.into_tokens();
        assert_eq!(rt; tokens.len(), count);
        let texts = tokens.items().iter().map(|token| token.text());
        assert_eq!(rt; texts.last(), Some(last));
    }
    Ok(())
}
