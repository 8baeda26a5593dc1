//! The program of all lines, or their first fault.
ghost use Rattle.std.specs.Prelude.{◌≡◌, ◌<◌, ◌^◌, length};
ghost use Rattle.fort_units.specs.Passing as passing;
ghost use Rattle.fort_units.specs.Program as program;

use crate::gathering::gather;
use crate::least::earlier;
use crate::walk::nesting_fault;
use form_nesting::nested;
use fort_tree::{Fault, File, Line, Mode, Seq, Stop};
use std::alloc::Global;

/// The mode of the texts, that of their first line.
fn mode_of(lines: &[Line]) -> Mode
    ensures { result ≡ program.mode_of lines.now }
{
    match lines.first() {
        None => Mode::Source,
        Some(line) => line.mode,
    }
}

/// The one of two faults that comes first.
fn first_of(first: Option<Fault>, other: Option<Fault>) -> Option<Fault>
    ensures { result ≡ passing.first_of first other }
{
    match other {
        None => first,
        Some(fault) => earlier(first, fault),
    }
}

fn read(alloc: Global, lines: &[Line]) -> Result<File, Stop>
    requires { length lines.now < 2 ^ 32 }
    ensures { program.Answers lines.now result }
{
    let gathered = gather(alloc, lines)?;
    let mode = mode_of(lines);
    let nesting = nesting_fault(alloc, mode, gathered.items.items())?;
    match first_of(gathered.least.first, nesting) {
        Some(fault) => Err(Stop::Fault(fault)),
        None => Ok(nested(alloc, mode, gathered.forms)?),
    }
}

/// The program that the lines of all files are, in the order of files and lines: each line is a statement, a directive or a mark of its own form, and they nest
/// (ISO/IEC 1539-1:2018 clauses 5, 8, 9, 11, 14 and 15, cut down to this project's profile; directives, marks, limits and codes are this project's own). The lines
/// are all of one mode, and fewer than 2 to the power of 32.
///
/// # Errors
/// - `Stop::Fault` with the first fault of syntax, exactly where there is one: of the faults of nesting and the first fault of each line by itself that with the
///   least file, line and column, and at one place with the smallest code.
/// - `Stop::NoMemory` only where memory was refused.
pub fn file(alloc: Global, lines: &Seq<Line>) -> Result<File, Stop>
    requires { length lines.now < 2 ^ 32 }
    ensures { program.Answers lines.now result }
{
    read(alloc, lines.items())
}
