// The runtime's files.
ghost use Rattle.std.specs.Prelude.{◌≡◌, ◌≢◌, ◌≤◌, None};
ghost use Rattle.outside.specs.Counts.{raised};

use crate::count::raise;
use crate::shelf::{LoadFault, Shelf};
use std::fs;
use std::io::{Error, ErrorKind, Read};
use std::marker::Model;
use std::rt::Files;

/// The runtime's files as a shelf; a name is a path. It tells nothing of them.
#[derive(Drop)]
pub struct DirShelf<'a, R> {
    rt: &'a R,
    faults: u64,
    bytes_read: u64,
}

impl<'a, R> Model for DirShelf<'a, R> {
    ghost use Rattle.outside.specs.Edge.{ReadCounts};

    ghost Value = { ReadCounts };

    ghost view = { λ shelf. record {
      faults = shelf.faults;
      bytes_read = shelf.bytes_read;
    } };
}

impl<'a, R: Files> DirShelf<'a, R> {
    /// A shelf over the files of the runtime, with no fault and nothing read.
    pub fn new(rt: &'a R) -> DirShelf<'a, R>
        ensures { result ≡ record { faults = 0; bytes_read = 0 } }
    {
        DirShelf {
            rt,
            faults: 0,
            bytes_read: 0,
        }
    }
}

impl<'a, R: Files> Shelf for DirShelf<'a, R> {
    ghost files = { λ _. None };

    ghost faults = { λ shelf. shelf.faults };

    ghost bytes_read = { λ shelf. shelf.bytes_read };

    fn load(&mut self, name: &str, into: &mut Vec<u8>, room: u64) -> Result<(), LoadFault> {
        let file = match fs::open(self.rt, name) {
            Ok(file) => file,
            Err(error) => return Err(fault_of(&error, &mut self.faults)),
        };
        let start = into.len();
        // One byte more than the room shows a longer file.
        let end = file.take(room.saturating_add(1)).read_to_end(into);
        let count = (into.len() - start) as u64;
        self.bytes_read = raise(self.bytes_read, count);
        match end {
            Err(error) => {
                into.truncate(start);
                Err(fault_of(&error, &mut self.faults))
            }
            Ok(_) if count > room => {
                into.truncate(start);
                Err(LoadFault::TooLong)
            }
            Ok(_) => Ok(()),
        }
    }
}

// What an error of the runtime is: want of memory, or a fault, which is counted.
fn fault_of(error: &Error, faults: &mut u64) -> LoadFault
    ensures later { faults.old ≤ faults.new }
    ensures counted { result ≡ LoadFault.Failed → faults.new ≡ raised faults.old 1 }
    ensures kind { result ≢ LoadFault.TooLong }
{
    if error.kind() == ErrorKind::OutOfMemory {
        return LoadFault::NoMemory;
    }
    *faults = raise(*faults, 1);
    LoadFault::Failed
}
