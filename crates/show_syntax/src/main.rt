//! Prints how small texts are read: for each its number, and the report of its first fault of text or syntax, or the number of its units, a `|` and the text that the
//! printer writes for the program that was read, with `\n` for each line feed. Each line of `data/texts` is a `|` and one source, or a `>` and one made text, in which `\n`, `\r`,
//! `\t`, `\\` and `\xHH` stand for a byte. What it has to print stands in `stdout`; those lines come from models of the language's rules and of the layout that were
//! written apart from the compiler, and none from the compiler's own output.
#![tactic(auto)]

use fort_lex::lines;
use fort_spell::{report, spell};
use fort_tree::{Fault, File, Line, Mode, Seq, Stop};
use fort_units::file;
use outside::{DirShelf, FileList, MemSink, Numbers, Shelf};
use std::alloc::{AllocError, Global};
use std::io;

const MOST_BYTES: usize = 4194304;

// The most bytes that a run may put.
const ROOM: u64 = 100000;

const NAME: &str = "a.f90";

fn digit(byte: u8) -> u8 {
    match byte {
        b'0'..=b'9' => byte - b'0',
        b'a'..=b'f' => byte - b'a' + 10,
        _ => 0,
    }
}

/// The byte that the letter behind a backslash stands for, and how many bytes of the text behind the letter belong to it.
fn escaped(letter: u8, behind: &[u8]) -> (u8, u8) {
    match (letter, behind) {
        (b'n', _) => (b'\n', 0),
        (b'r', _) => (b'\r', 0),
        (b't', _) => (b'\t', 0),
        (b'x', [high, low, ..]) => (digit(*high) % 16 * 16 + digit(*low) % 16, 2),
        _ => (letter, 0),
    }
}

/// The text without its escapes.
fn unescaped(alloc: Global, text: &[u8]) -> Result<Vec<u8>, AllocError> {
    let mut bytes = Vec::new(alloc);
    let mut rest = text;
    for _ in 0..text.len() {
        let Some((first, behind)) = rest.split_first() else {
            break;
        };
        rest = behind;
        let mut byte = *first;
        if byte == b'\\' {
            let Some((letter, behind)) = rest.split_first() else {
                break;
            };
            let (meant, more) = escaped(*letter, behind);
            byte = meant;
            rest = behind.get(more as usize..).unwrap_or(&[]);
        }
        bytes.push(byte)?;
    }
    Ok(bytes)
}

/// A list of one file.
fn listed(alloc: Global) -> Result<FileList, AllocError> {
    let mut files = FileList::new(alloc);
    files.push(NAME, b"")?;
    Ok(files)
}

fn sink(alloc: Global) -> Result<MemSink, AllocError> {
    MemSink::new(alloc, ROOM, Numbers::new(alloc))
}

/// Prints a text without its line ends.
fn print_flat(rt: &HostRuntime, text: &[u8]) -> io::Result<()> {
    for byte in text {
        if *byte != b'\n' {
            print!(rt; "{}", *byte as char)?;
        }
    }
    Ok(())
}

/// Prints a text with `\n` for each line end.
fn print_escaped(rt: &HostRuntime, text: &[u8]) -> io::Result<()> {
    for byte in text {
        match *byte {
            b'\n' => print!(rt; "\\n")?,
            _ => print!(rt; "{}", *byte as char)?,
        }
    }
    Ok(())
}

fn print_fault(rt: &HostRuntime, fault: &Fault) -> io::Result<()> {
    let files = listed(rt.alloc())?;
    let mut put = sink(rt.alloc())?;
    let is_listed = (fault.place.file as usize) < files.len();
    if !is_listed || report(fault, &files, &mut put).is_err() {
        return print!(rt; "no report");
    }
    print_flat(rt, put.text())
}

fn print_stop(rt: &HostRuntime, stop: Stop) -> io::Result<()> {
    match stop {
        Stop::Fault(fault) => print_fault(rt, &fault),
        Stop::NoMemory => print!(rt; "no memory"),
    }
}

/// Prints the number of a program's units, a `|` and its text as the printer writes it.
fn print_spelling(rt: &HostRuntime, program: &File) -> io::Result<()> {
    let mut put = sink(rt.alloc())?;
    if spell(program, &mut put).is_err() {
        return print!(rt; "no room");
    }
    print!(rt; "units {}|", program.units.len())?;
    print_escaped(rt, put.text())
}

fn print_program(rt: &HostRuntime, all: &Seq<Line>) -> io::Result<()> {
    if all.len() > MOST_BYTES {
        return print!(rt; "too long");
    }
    match file(rt.alloc(), all) {
        Ok(program) => print_spelling(rt, &program),
        Err(stop) => print_stop(rt, stop),
    }
}

fn print_reading(rt: &HostRuntime, mode: Mode, text: &[u8]) -> io::Result<()> {
    if text.len() > MOST_BYTES {
        return print!(rt; "too long");
    }
    let mut all = Seq::new(rt.alloc());
    match lines(rt.alloc(), 0, text, mode, &mut all) {
        Ok(()) => print_program(rt, &all),
        Err(stop) => print_stop(rt, stop),
    }
}

/// The mode of the text behind a mark: made texts stand behind `>`.
fn mode_of(mark: u8) -> Mode {
    match mark {
        b'>' => Mode::Target,
        _ => Mode::Source,
    }
}

fn show(rt: &HostRuntime, number: u64, mark: u8, text: &[u8]) -> io::Result<()> {
    let text = unescaped(rt.alloc(), text)?;
    print!(rt; "{number} ")?;
    print_reading(rt, mode_of(mark), text.as_slice())?;
    println!(rt; "")
}

fn main(rt: HostRuntime) -> io::Result<()> {
    let mut texts = Vec::new(rt.alloc());
    if DirShelf::new(&rt)
        .load("texts", &mut texts, MOST_BYTES as u64)
        .is_err()
    {
        return println!(rt; "cannot read");
    }
    let mut number: u64 = 0;
    for line in texts.as_slice().split(|byte| *byte == b'\n') {
        if let Some((mark, text)) = line.split_first() {
            number = number.saturating_add(1);
            show(&rt, number, *mark, text)?;
        }
    }
    Ok(())
}
