// Files by name.
ghost use Rattle.std.specs.Prelude.{◌≡◌, ◌≤◌, ◌⊎◌, ℕ, OnOk, OnErr, IsErrOf};
ghost use Rattle.std.specs.declared.option.Option.{Option};
ghost use Rattle.outside.specs.Counts.{Rose};
ghost use Rattle.outside.specs.Files.{Files, Lacks, IsLonger, MayBeTooLong, Loaded};

use thiserror::Error;

/// Why a file was not loaded.
#[derive(Clone, Copy, Debug, PartialEq, Eq, Drop, Error)]
pub enum LoadFault {
    /// The shelf failed, or it tells its files and has none of that name.
    #[error("the file cannot be read")]
    Failed,
    /// The file has more bytes than there is room for.
    #[error("the file is too long")]
    TooLong,
    /// Memory for the bytes was refused.
    #[error("no memory is left")]
    NoMemory,
}

/// Files by name. A shelf may tell which files it has. It counts its faults and the bytes that it has
/// read; neither count falls, and one that stands at the greatest u64 counts as risen.
pub trait Shelf {
    ghost files: { Self → Option Files };

    ghost faults: { Self → ℕ };

    ghost bytes_read: { Self → ℕ };

    /// Appends all bytes of the file of that name, of which there may be at most `room`.
    ///
    /// - `Failed`: the shelf's faults rose, or the shelf tells its files and has none of that name,
    ///   which is no fault.
    /// - `TooLong`: the told file has more than `room` bytes; where files are not told, more than
    ///   `room` bytes were read.
    /// - `NoMemory`: memory was refused. This may come at any file.
    fn load(&mut self, name: &str, into: &mut Vec<u8>, room: u64) -> Result<(), LoadFault>
        ensures same_files { files self.new ≡ files self.old }
        ensures faults_later { faults self.old ≤ faults self.new }
        ensures read_later { bytes_read self.old ≤ bytes_read self.new }
        ensures loaded { OnOk result (Loaded (files self.old) name.now room
            (bytes_read self.old) (bytes_read self.new) into.old.items into.new.items) }
        ensures kept { OnErr result (into.new.items ≡ into.old.items) }
        ensures failed { IsErrOf result LoadFault.Failed
            → Rose (faults self.old) (faults self.new) ⊎ Lacks (files self.old) name.now }
        // To ask for an absent name is no fault.
        ensures absent { Lacks (files self.old) name.now → faults self.new ≡ faults self.old }
        ensures too_long { IsErrOf result LoadFault.TooLong
            → MayBeTooLong (files self.old) name.now room (bytes_read self.old) (bytes_read self.new) }
        // A told file that is too long is refused as such, unless memory is refused.
        ensures longer { IsLonger (files self.old) name.now room
            → IsErrOf result LoadFault.TooLong ⊎ IsErrOf result LoadFault.NoMemory };
}
