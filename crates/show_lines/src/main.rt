//! Prints the logical lines of small texts, or the first fault of each. Each line of `data/texts` is one text, in which `\n`, `\r`, `\t`, `\\` and `\xHH` stand for
//! a byte. What it has to print stands in `stdout`: `S` before a statement, `D` before a directive or mark line, `w` where it stands within a statement, then each
//! token with its line and column, and `&` with the place where a continuation is missing.
#![tactic(auto)]

ghost use Rattle.std.specs.Prelude.{◌≤◌, length};

use fort_lex::lines;
use fort_tree::{Line, Mode, Place, Seq, Stop, Token};
use outside::{DirShelf, Shelf};
use std::alloc::{AllocError, Global};
use std::io;

const MOST_BYTES: usize = 4194304;

fn digit(byte: u8) -> u8 {
    match byte {
        b'0'..=b'9' => byte - b'0',
        b'a'..=b'f' => byte - b'a' + 10,
        _ => 0,
    }
}

/// The byte that the letter behind a backslash stands for, and how many bytes of the text behind the letter belong to it.
fn escaped(letter: u8, behind: &[u8]) -> (u8, u8) {
    match (letter, behind) {
        (b'n', _) => (b'\n', 0),
        (b'r', _) => (b'\r', 0),
        (b't', _) => (b'\t', 0),
        (b'x', [high, low, ..]) => (digit(*high) % 16 * 16 + digit(*low) % 16, 2),
        _ => (letter, 0),
    }
}

/// The text without its escapes.
fn unescaped(alloc: Global, text: &[u8]) -> Result<Vec<u8>, AllocError> {
    let mut bytes = Vec::new(alloc);
    let mut rest = text;
    for _ in 0..text.len() {
        let Some((first, behind)) = rest.split_first() else {
            break;
        };
        rest = behind;
        let mut byte = *first;
        if byte == b'\\' {
            let Some((letter, behind)) = rest.split_first() else {
                break;
            };
            let (meant, more) = escaped(*letter, behind);
            byte = meant;
            rest = behind.get(more as usize..).unwrap_or(&[]);
        }
        bytes.push(byte)?;
    }
    Ok(bytes)
}

fn print_text(rt: &HostRuntime, text: &[u8]) -> io::Result<()> {
    for byte in text {
        print!(rt; "{}", *byte as char)?;
    }
    Ok(())
}

fn print_place(rt: &HostRuntime, at: Place) -> io::Result<()> {
    print!(rt; "@{}:{}", at.line, at.column)
}

fn print_token(rt: &HostRuntime, token: &Token) -> io::Result<()> {
    print!(rt; " ")?;
    print_text(rt, token.text())?;
    print_place(rt, token.at)
}

fn print_line(rt: &HostRuntime, line: &Line) -> io::Result<()> {
    let sort = if line.directive { "D" } else { "S" };
    let within = if line.within { "w" } else { "" };
    print!(rt; " {sort}{within}")?;
    for token in line.tokens.items() {
        print_token(rt, token)?;
    }
    if let Some(mark) = line.unfinished {
        print!(rt; " &")?;
        print_place(rt, mark)?;
    }
    Ok(())
}

fn print_lines(rt: &HostRuntime, text: &[u8]) -> io::Result<()>
    requires { length text.now ≤ 4194304 }
{
    let mut into = Seq::new(rt.alloc());
    match lines(rt.alloc(), 0, text, Mode::Source, &mut into) {
        Err(Stop::NoMemory) => return print!(rt; " no memory"),
        Err(Stop::Fault(fault)) => {
            print!(rt; " {}", fault.code.text())?;
            return print_place(rt, fault.place);
        }
        Ok(()) => {}
    }
    for line in into.items() {
        print_line(rt, line)?;
    }
    Ok(())
}

fn show(rt: &HostRuntime, line: &[u8]) -> io::Result<()> {
    print_text(rt, line)?;
    print!(rt; " =>")?;
    let text = unescaped(rt.alloc(), line)?;
    if text.len() <= MOST_BYTES {
        print_lines(rt, text.as_slice())?;
    }
    println!(rt; "")
}

fn main(rt: HostRuntime) -> io::Result<()> {
    let mut texts = Vec::new(rt.alloc());
    if DirShelf::new(&rt)
        .load("texts", &mut texts, MOST_BYTES as u64)
        .is_err()
    {
        return println!(rt; "cannot read");
    }
    for line in texts.as_slice().split(|byte| *byte == b'\n') {
        if !line.is_empty() {
            show(&rt, line)?;
        }
    }
    Ok(())
}
