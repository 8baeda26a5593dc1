//! The first place of each key in a list.
ghost use Rattle.std.specs.Prelude.{◌≡◌, ℕ, ◌<◌, IfOk, position, slice_get};
ghost use Rattle.indexmap.specs.IndexMap.{get};
ghost use Rattle.fort_names.specs.NameLists.{IsFirstOfEach};

use fort_tree::NoMemory;
use indexmap::IndexMap;
use std::alloc::Global;
use std::hash::Hash;
use std::marker::Model;

/// A list of keys, in which the first place of a key is found without going through it. Contracts see the list.
#[derive(Drop)]
pub struct Firsts<K: Eq + Hash + Copy> {
    keys: Vec<K>,
    first: IndexMap<K, usize>,
}

impl<K: Eq + Hash + Copy> Model for Firsts<K> {
    ghost use Rattle.std.specs.Prelude.{List};
    ghost use Rattle.std.specs.Coded.{coded_list};
    ghost use Rattle.fort_names.specs.NameLists.{IsFirstOfEach};

    ghost Value = { List K };

    ghost coded = { coded_list K.code };

    ghost view = { λ s. s.keys.items };

    ghost invariant = { λ s. IsFirstOfEach K.eq s.keys.items s.first };
}

fn first_of_each<K: Eq + Hash + Copy>(
    alloc: Global,
    keys: &[K],
) -> Result<IndexMap<K, usize>, NoMemory>
    ensures { IfOk result (λ first. IsFirstOfEach K.eq keys.now first) }
{
    let mut first = IndexMap::new(alloc);
    for (i, key) in keys.iter().enumerate() {
        if !first.contains_key(key) {
            first.insert(*key, i)?;
        }
    }
    Ok(first)
}

impl<K: Eq + Hash + Copy> Firsts<K> {
    /// The list of these keys.
    ///
    /// # Errors
    /// `NoMemory` only where memory was refused.
    pub fn of(alloc: Global, keys: Vec<K>) -> Result<Firsts<K>, NoMemory>
        ensures { IfOk result (λ list. list ≡ keys.items) }
    {
        let first = first_of_each(alloc, keys.as_slice())?;
        Ok(Firsts { keys, first })
    }

    /// The first place of the key, or `None` exactly where it isn't in the list.
    pub fn place(&self, key: &K) -> Option<usize>
        ensures { result ≡ position (K.eq key.now) self.now }
    {
        self.first.get(key).copied()
    }

    /// The key at the place.
    pub fn at(&self, i: usize) -> Option<K>
        ensures { result ≡ slice_get self.now i }
    {
        self.keys.get(i).copied()
    }
}
