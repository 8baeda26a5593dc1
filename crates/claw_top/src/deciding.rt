// All that is done before the first put.
ghost use Rattle.std.specs.Prelude.{◌≡◌, ◌≤◌, ◌<◌, length, IfOk};
ghost use Rattle.claw_words.specs.Command.{texts_of};
ghost use Rattle.claw_top.specs.Cause.{HasCause};
ghost use Rattle.claw_top.specs.Limits.{most_files};
ghost use Rattle.claw_top.specs.Outcome.{listed_of};

use crate::compiling::{Compiled, compile};
use crate::end::End;
use crate::loading::load_all;
use claw_words::Command;
use outside::{FileList, Shelf};
use std::alloc::{AllocError, Global};

// A request names at most so many files.
const MOST_FILES: usize = 64;

// Loads the named files and compiles them. It has no sink, so nothing is put. Too many files are refused before any load.
pub(crate) fn decide<'a, F: Shelf>(
    alloc: Global,
    command: Command,
    names: &'a [&'a str],
    shelf: &mut F,
) -> End<'a>
    ensures same_files { F.files shelf.new ≡ F.files shelf.old }
    ensures faults_later { F.faults shelf.old ≤ F.faults shelf.new }
    ensures read_later { F.bytes_read shelf.old ≤ F.bytes_read shelf.new }
    ensures untouched { most_files < length names.now → shelf.new ≡ shelf.old }
    ensures cause { HasCause command (F.files shelf.old) (F.faults shelf.old) (F.faults shelf.new)
        (F.bytes_read shelf.old) (F.bytes_read shelf.new) (texts_of names.now) result }
{
    if names.len() > MOST_FILES {
        return End::TooLong;
    }
    let sources = match load_all(alloc, names, shelf) {
        Ok(sources) => sources,
        Err(end) => return end,
    };
    match compile(alloc, command, &sources) {
        Ok(Compiled::Program(file)) => End::Program(file),
        Ok(Compiled::Counts(text)) => End::Counts(text),
        Ok(Compiled::Fault(fault)) => match listed(alloc, names) {
            Ok(files) => End::Fault(fault, files),
            Err(_) => End::NoMemory,
        },
        Err(_) => End::NoMemory,
    }
}

// The names as a list of files, without their bytes.
fn listed(alloc: Global, names: &[&str]) -> Result<FileList, AllocError>
    ensures { IfOk result (λ files. files ≡ listed_of (texts_of names.now)) }
{
    let mut files = FileList::new(alloc);
    for name in names {
        files.push(name, b"")?;
    }
    Ok(files)
}
