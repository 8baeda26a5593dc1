//! Lists of different names.
ghost use Rattle.std.specs.Prelude.{◌≡◌, [], OnOk, OnErr, slice_get, position};
ghost use Rattle.std.specs.Str.{bytes_eq};
ghost use Rattle.fort_names.specs.NameLists.{has as has_name, with_name, AllDiffer};

use fort_tree::{Name, NoMemory};
use indexmap::IndexSet;
use std::alloc::Global;
use std::marker::Model;

/// Names in the order in which they came, each once. Contracts see the list of the names.
#[derive(Drop)]
pub struct NameSet {
    names: IndexSet<Name>,
}

impl Model for NameSet {
    ghost use Rattle.std.specs.Prelude.{List, ℕ};
    ghost use Rattle.fort_names.specs.NameLists.{AllDiffer};

    ghost Value = { List (List ℕ) };

    ghost view = { λ s. s.names.keys };

    ghost invariant = { λ s. AllDiffer s.names.keys };
}

impl NameSet {
    /// The empty list. It takes no memory.
    pub fn new(alloc: Global) -> NameSet
        ensures { result ≡ [] }
    {
        NameSet {
            names: IndexSet::new(alloc),
        }
    }

    /// Puts the name last if it isn't there. A name that is there changes nothing.
    ///
    /// # Errors
    /// `NoMemory` only where memory for it was refused. The list stays as it was.
    pub fn insert(&mut self, name: Name) -> Result<(), NoMemory>
        ensures ok { OnOk result (self.new ≡ with_name self.old name) }
        ensures err { OnErr result (self.new ≡ self.old) }
    {
        self.names.insert(name)?;
        Ok(())
    }

    /// Whether the name is there.
    pub fn has(&self, name: &Name) -> bool
        ensures there { result ≡ has_name self.now name.now }
        ensures different { AllDiffer self.now }
    {
        self.names.contains(name)
    }

    /// The name at the index, or `None` exactly past the end.
    pub fn at(&self, i: usize) -> Option<Name>
        ensures there { result ≡ slice_get self.now i }
        ensures different { AllDiffer self.now }
    {
        self.names.get_index(i).copied()
    }

    /// The place of the name, or `None` exactly where it isn't there.
    pub fn place(&self, name: &Name) -> Option<usize>
        ensures { result ≡ position (bytes_eq name.now) self.now }
    {
        self.names.get_index_of(name)
    }

    /// The names, in their order.
    pub fn names(&self) -> &[Name]
        ensures { result.now ≡ self.now }
    {
        self.names.as_slice()
    }
}
