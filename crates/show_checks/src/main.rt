//! Prints what `claw check` says of small sources: for each its number, the status and what was put, on one line. In `data/texts` each source stands behind a `|`.
//! What it has to print stands in `stdout`; it was written by hand from the rules of sound programs.
#![tactic(auto)]

use claw_top::claw;
use outside::{DirShelf, FileList, MemShelf, MemSink, Numbers, Shelf};
use std::alloc::{AllocError, Global};
use std::io;

const MOST_BYTES: u64 = 4194304;

// The most bytes that a run may put.
const ROOM: u64 = 1000;

const NAME: &str = "a.f90";

/// A shelf with one file.
fn shelf_of(alloc: Global, text: &[u8]) -> Result<MemShelf, AllocError> {
    let mut files = FileList::new(alloc);
    files.push(NAME, text)?;
    Ok(MemShelf::new(files, Numbers::new(alloc)))
}

fn sink(alloc: Global) -> Result<MemSink, AllocError> {
    MemSink::new(alloc, ROOM, Numbers::new(alloc))
}

/// Prints the bytes that come before a line end.
fn print_line(rt: &HostRuntime, text: &[u8]) -> io::Result<()> {
    for byte in text {
        if *byte != b'\n' {
            print!(rt; "{}", *byte as char)?;
        }
    }
    Ok(())
}

fn show(rt: &HostRuntime, number: u64, text: &[u8]) -> io::Result<()> {
    let mut shelf = shelf_of(rt.alloc(), text)?;
    let mut out = sink(rt.alloc())?;
    let mut err = sink(rt.alloc())?;
    let words = ["claw", "check", NAME];
    let status = claw(rt.alloc(), &words, &mut shelf, &mut out, &mut err);
    print!(rt; "{number} {status} ")?;
    print_line(rt, out.text())?;
    print_line(rt, err.text())?;
    println!(rt; "")
}

fn main(rt: HostRuntime) -> io::Result<()> {
    let mut texts = Vec::new(rt.alloc());
    if DirShelf::new(&rt)
        .load("texts", &mut texts, MOST_BYTES)
        .is_err()
    {
        return println!(rt; "cannot read");
    }
    let sources = texts.as_slice().split(|byte| *byte == b'|');
    for (number, source) in sources.enumerate() {
        if number > 0 {
            show(&rt, number as u64, source)?;
        }
    }
    Ok(())
}
