use crate::lines;
use fort_tree::{Code, Fault, Line, Mode, Place, Seq, Stop};
use std::alloc::Global;
use std::test::Fail;

/// Reads a short text with number 7.
fn read(alloc: Global, text: &[u8], into: &mut Seq<Line>) -> Result<(), Stop> {
    if text.len() > 1000 {
        return Err(Stop::NoMemory);
    }
    lines(alloc, 7, text, Mode::Source, into)
}

/// Texts with the number of their lines, and of the last line its place, the number of its tokens, the column where it is unfinished and whether it stands within
/// a statement.
#[test]
fn reads_lines(rt: HostRuntime) -> Result<(), Fail> {
    for (text, count, (line, column), tokens, unfinished, within) in [
        (b"a = b ! c\r\n\n; d".as_slice(), 2, (3, 3), 1, None, false),
        (b"x = a &\n! no\n  & + b", 1, (1, 1), 5, None, false),
        (b"ab&\n  &cd&\n&ef", 1, (1, 1), 1, None, false),
        (b"a &\n&\n b &", 1, (1, 1), 2, Some(4), false),
        (b"a &\n !$claw b &\n!$CLAW & c\nd", 2, (2, 2), 3, None, true),
        (b"a\n!$omp x &\n\n!$omp y", 3, (4, 1), 2, None, false),
        (b"\t!$acc\tend\n!$acc\n!$accx", 1, (1, 2), 2, None, false),
    ] {
        let alloc = rt.alloc();
        let mut into = Seq::new(alloc);
        assert_eq!(rt; read(alloc, text, &mut into), Ok(()));
        assert_eq!(rt; into.len(), count);
        let last = into.pop().ok_or("no line")?;
        assert_eq!(rt;
            (last.at.file, last.at.line, last.at.column),
            (7, line, column)
        );
        assert_eq!(rt; last.tokens.len(), tokens);
        assert_eq!(rt; last.unfinished.map(|at| at.column), unfinished);
        assert_eq!(rt; last.within, within);
    }
    Ok(())
}

/// Texts with their first fault.
#[test]
fn finds_faults(rt: HostRuntime) -> Result<(), Fail> {
    let blanks = [b' '; 133];
    for (text, code, line, column) in [
        (b"a = b\r".as_slice(), Code::E01, 1, 6),
        (b"! \xff\na\x00", Code::E01, 2, 2),
        (blanks.as_slice(), Code::E02, 1, 133),
        (b"a = 'b'", Code::E03, 1, 5),
        (b"a = .tru\r.", Code::E03, 1, 5),
        (b"!$claw a; b", Code::E03, 1, 9),
        (b"a &\n!$claw ?\n 5x", Code::E03, 2, 8),
    ] {
        let alloc = rt.alloc();
        let mut into = Seq::new(alloc);
        let place = Place {
            file: 7,
            line,
            column,
        };
        assert_eq!(rt;
            read(alloc, text, &mut into),
            Err(Stop::Fault(Fault::new(code, place)))
        );
        assert!(rt; into.is_empty());
    }
    Ok(())
}
