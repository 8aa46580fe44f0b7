//! Indexes of names.
ghost use Rattle.std.specs.Prelude.{◌≡◌, OnOk};
ghost use Rattle.std.specs.Option.{option_copied};
ghost use Rattle.brisk_types.specs.Indexes as spec;

use brisk_values::{Name, NoMemory};
use indexmap::IndexMap;
use std::alloc::Global;
use std::hash::{Hash, Hasher};

/// A name as the key of an index.
#[derive(Clone, Copy, PartialEq, Eq)]
pub struct Key {
    pub name: Name,
}

impl Hash for Key {
    ghost use Rattle.std.specs.Hash as fed;
    ghost use Rattle.std.specs.Cmp.Rules.{hashing};
    ghost use Rattle.std.proofs.Common.{rules};

    ghost hash_input = { λ k. fed.slice fed.u8 k.name };

    ghost respects_eq = { Prim.search (hashing, rules) };

    fn hash<H: Hasher>(&self, state: &mut H) {
        self.name.bytes().hash(state);
    }
}

/// A tag and its enumeration as the key of an index.
#[derive(Clone, Copy, PartialEq, Eq, Hash)]
pub struct TagKey {
    pub of: Key,
    pub tag: Key,
}

/// Values by key: the first that was added for each.
#[derive(Drop)]
pub struct Index<K: Eq + Hash, V> {
    entries: IndexMap<K, V>,
}

impl<K: Eq + Hash + Copy, V: Copy> Index<K, V> {
    pub fn new(alloc: Global) -> Index<K, V>
        ensures { (q : K) → spec.found K.eq result q ≡ spec.nothing q }
    {
        Index {
            entries: IndexMap::new(alloc),
        }
    }

    pub fn get(&self, key: &K) -> Option<V>
        ensures { result ≡ spec.found K.eq self.now key.now }
    {
        self.entries.get(key).copied()
    }

    /// Adds the value, unless there is one for the key.
    pub fn add(&mut self, key: &K, value: V) -> Result<(), NoMemory>
        ensures { OnOk result ((q : K) → spec.found K.eq self.new q ≡ spec.added K.eq (spec.found K.eq self.old) key.now value q) }
    {
        if self.entries.get(key).is_some() {
            return Ok(());
        }
        self.entries.insert(*key, value)?;
        Ok(())
    }
}
