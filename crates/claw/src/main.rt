//! The program: it gives the top call the words of the command line, the files of the folder that it
//! runs in, the standard output and the standard error, and ends with the status that it gets.
#![tactic(auto)]

use claw_top::claw;
use outside::{DirShelf, StdSink};
use std::alloc::{AllocError, Global};
use std::env;
use std::io::ErrorKind;
use std::process::ExitCode;

// Memory for the words was refused.
const NO_MEMORY: u8 = 6;

fn main(rt: HostRuntime) -> ExitCode {
    let args = match env::args(&rt) {
        Ok(args) => args,
        Err(error) if error.kind() == ErrorKind::OutOfMemory => return ExitCode::from(NO_MEMORY),
        // A word that is not UTF-8: the program's name alone is no request.
        Err(_) => return run(&rt, &["claw"]),
    };
    let owned: Vec<String> = match args.collect(rt.alloc()) {
        Ok(owned) => owned,
        Err(_) => return ExitCode::from(NO_MEMORY),
    };
    match borrowed(rt.alloc(), &owned) {
        Ok(words) => run(&rt, words.as_slice()),
        Err(_) => ExitCode::from(NO_MEMORY),
    }
}

fn borrowed<'a>(alloc: Global, owned: &'a [String]) -> Result<Vec<&'a str>, AllocError> {
    let mut words = Vec::new(alloc);
    for word in owned {
        words.push(word.as_str())?;
    }
    Ok(words)
}

fn run(rt: &HostRuntime, words: &[&str]) -> ExitCode {
    let mut shelf = DirShelf::new(rt);
    let mut out = StdSink::new(rt.stdout());
    let mut err = StdSink::new(rt.stderr());
    ExitCode::from(claw(rt.alloc(), words, &mut shelf, &mut out, &mut err))
}
