// How a run ends.

use fort_tree::{Fault, File};
use outside::FileList;

/// How a run ends: what stands before the first put.
#[derive(Debug, Drop)]
pub(crate) enum End<'a> {
    /// The sources have no fault, and this is the program that is made of them.
    Program(File),
    /// The sources have no fault, and this line counts their units.
    Counts(Vec<u8>),
    /// The first fault of the sources, and the names of their files.
    Fault(Fault, FileList),
    /// The words are no request.
    Usage,
    /// The named file cannot be read.
    CannotRead(&'a str),
    /// There are too many files, or more bytes than the sources may have.
    TooLong,
    /// Memory was refused.
    NoMemory,
}
