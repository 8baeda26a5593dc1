// Files in memory.
ghost use Rattle.std.specs.Prelude.{◌≡◌, ◌≤◌, ◌⊎◌, Some, OnOk, OnErr, IsErrOf, Contains};
ghost use Rattle.outside.specs.Counts.{raised};
ghost use Rattle.outside.specs.Files.{Lacks, IsLonger, MayBeTooLong, Loaded};
ghost use Rattle.outside.specs.Memory.{ShelfState};

use crate::count::raise;
use crate::file_list::FileList;
use crate::numbers::Numbers;
use crate::shelf::{LoadFault, Shelf};
use std::marker::Model;

/// A list of files as a shelf that tells them. Of two files of one name it has the first. The loads
/// whose numbers are listed fail; they are counted from 1. A load of an absent file, or of one that is
/// longer than the room, answers as without the number, and is no fault.
#[derive(Debug, Drop)]
pub struct MemShelf {
    files: FileList,
    failing: Numbers,
    calls: u64,
    faults: u64,
    bytes_read: u64,
}

impl Model for MemShelf {
    ghost use Rattle.outside.specs.Memory.{ShelfState};

    ghost Value = { ShelfState };

    ghost view = { λ shelf. record {
      files = shelf.files;
      failing = shelf.failing;
      calls = shelf.calls;
      faults = shelf.faults;
      bytes_read = shelf.bytes_read;
    } };
}

impl MemShelf {
    /// A shelf of these files, whose loads with the numbers `failing` fail.
    pub fn new(files: FileList, failing: Numbers) -> MemShelf
        ensures { result ≡ record {
          files = files;
          failing = failing;
          calls = 0;
          faults = 0;
          bytes_read = 0;
        } }
    {
        MemShelf {
            files,
            failing,
            calls: 0,
            faults: 0,
            bytes_read: 0,
        }
    }
}

impl Shelf for MemShelf {
    ghost files = { λ shelf. Some shelf.files };

    ghost faults = { λ shelf. shelf.faults };

    ghost bytes_read = { λ shelf. shelf.bytes_read };

    fn load(&mut self, name: &str, into: &mut Vec<u8>, room: u64) -> Result<(), LoadFault>
        ensures same_files { self.new.files ≡ self.old.files }
        ensures same_failing { self.new.failing ≡ self.old.failing }
        ensures call { self.new.calls ≡ raised self.old.calls 1 }
        ensures faults_later { self.old.faults ≤ self.new.faults }
        ensures read_later { self.old.bytes_read ≤ self.new.bytes_read }
        ensures loaded { OnOk result (Loaded (Some self.old.files) name.now room
            self.old.bytes_read self.new.bytes_read into.old.items into.new.items) }
        ensures kept { OnErr result ((into.new.items ≡ into.old.items)
            × (self.new.bytes_read ≡ self.old.bytes_read)) }

        // Only a listed load of a file that is there and fits is a fault.
        ensures listed { Contains self.old.failing self.new.calls
            → IsErrOf result LoadFault.Failed ⊎ IsErrOf result LoadFault.TooLong }
        ensures failed { IsErrOf result LoadFault.Failed
            → (Contains self.old.failing self.new.calls × (self.new.faults ≡ raised self.old.faults 1))
            ⊎ Lacks (Some self.old.files) name.now }
        ensures no_fault { (IsErrOf result LoadFault.Failed → ⊥) → self.new.faults ≡ self.old.faults }
        ensures absent { Lacks (Some self.old.files) name.now
            → IsErrOf result LoadFault.Failed × (self.new.faults ≡ self.old.faults) }
        ensures too_long { IsErrOf result LoadFault.TooLong
            → MayBeTooLong (Some self.old.files) name.now room self.old.bytes_read self.new.bytes_read }
        ensures longer { IsLonger (Some self.old.files) name.now room → IsErrOf result LoadFault.TooLong }
    {
        self.calls = raise(self.calls, 1);
        let Some(text) = self.files.text_of(name) else {
            return Err(LoadFault::Failed);
        };
        let length = text.len() as u64;
        if length > room {
            return Err(LoadFault::TooLong);
        }
        if self.failing.has(self.calls) {
            self.faults = raise(self.faults, 1);
            return Err(LoadFault::Failed);
        }
        if into.extend_from_slice(text).is_err() {
            return Err(LoadFault::NoMemory);
        }
        self.bytes_read = raise(self.bytes_read, length);
        Ok(())
    }
}
