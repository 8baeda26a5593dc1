// A list of files.
ghost use Rattle.std.specs.Prelude.{◌≡◌, ◌↔◌, ◌++◌, ℕ, List, [], ◌∷◌, length, OnOk, OnErr, IsTrue, slice_get};
ghost use Rattle.std.specs.Option.{option_copied, option_map};
ghost use Rattle.std.specs.String.{string_bytes};
ghost use Rattle.outside.specs.Files.{Files, file_at};

use std::alloc::{AllocError, Global};
use std::marker::Model;

// A file: its name and its bytes.
#[derive(Debug, Drop)]
struct NamedFile {
    name: String,
    text: Vec<u8>,
}

impl Model for NamedFile {
    ghost Value = { List ℕ × List ℕ };

    ghost view = { λ file. (string_bytes file.name, file.text.items) };
}

/// A list of files, each a name and its bytes. Two files may have one name.
#[derive(Debug, Drop)]
pub struct FileList {
    alloc: Global,
    items: Vec<NamedFile>,
}

impl Model for FileList {
    ghost Value = { Files };

    ghost view = { λ list. list.items.items };
}

impl FileList {
    /// An empty list. It takes no memory; what is added later is kept by `alloc`.
    pub fn new(alloc: Global) -> Self
        ensures { result ≡ [] }
    {
        FileList {
            alloc,
            items: Vec::new(alloc),
        }
    }

    /// How many files are listed.
    pub fn len(&self) -> usize
        ensures { result ≡ length self.now }
    {
        self.items.len()
    }

    /// Whether no file is listed.
    pub fn is_empty(&self) -> bool
        ensures { IsTrue result ↔ (self.now ≡ []) }
    {
        self.items.is_empty()
    }

    /// Adds a copy of a file as the last one. `AllocError` only where memory was refused.
    pub fn push(&mut self, name: &str, text: &[u8]) -> Result<(), AllocError>
        ensures ok { OnOk result (self.new ≡ self.old ++ (name.now, text.now) ∷ []) }
        ensures err { OnErr result (self.new ≡ self.old) }
    {
        let name = String::from_str(self.alloc, name)?;
        let text = Vec::from_slice(self.alloc, text)?;
        self.items.push(NamedFile { name, text })?;
        Ok(())
    }

    /// The name of the file at an index from 0: `None` exactly where `i` is not below the length.
    pub fn name(&self, i: usize) -> Option<&str>
        ensures { option_copied result ≡ option_map (λ file. file.0) (slice_get self.now i) }
    {
        match self.items.get(i) {
            Some(file) => Some(file.name.as_str()),
            None => None,
        }
    }

    // The bytes of the first file of that name, if there is one.
    pub(crate) fn text_of(&self, name: &str) -> Option<&[u8]>
        ensures { option_copied result ≡ file_at self.now name.now }
    {
        match self.items.iter().find(|file| file.name.as_str() == name) {
            Some(file) => Some(file.text.as_slice()),
            None => None,
        }
    }
}
