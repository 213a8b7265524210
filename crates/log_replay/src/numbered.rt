// The entries' ids, each with the number of its entry's record.

ghost use Rattle.std.specs.Prelude.{◌≡◌, ℕ, ◌≤◌, ◌<◌, ◌++◌, ◌∷◌, [], None, Some, length, OnOk, IfSome, slice_get};
ghost use Rattle.log_replay.specs.KeptRows.{place_in};

use indexmap::IndexMap;
use statement::Hash;
use std::alloc::{AllocError, Global};
use std::marker::Model;

/// The entries' ids in their order, no two the same, each with the number of its entry's record.
#[derive(Drop)]
pub struct Numbered {
    homes: IndexMap<Hash, u64>,
}

impl Model for Numbered {
    ghost use Rattle.std.specs.Map.{keys_of, values_of};
    ghost use Rattle.indexmap.specs.IndexMap.{spare};
    ghost use Rattle.log_replay.specs.Lists.{Numbers};

    ghost Value = { Numbers };

    ghost view = { λ n. record { ids = keys_of n.homes.entries; homes = values_of n.homes.entries; spare = spare n.homes } };
}

impl Numbered {
    /// No entries.
    pub fn new(alloc: Global) -> Numbered
        ensures ids { result.ids ≡ [] }
        ensures homes { result.homes ≡ [] }
    {
        Numbered {
            homes: IndexMap::new(alloc),
        }
    }

    /// How many entries there are.
    pub fn len(&self) -> usize
        ensures ids { result ≡ length self.now.ids }
        ensures homes { result ≡ length self.now.homes }
    {
        self.homes.len()
    }

    /// The place of the entry with this id.
    pub fn place(&self, id: &Hash) -> Option<usize>
        ensures at { result ≡ place_in self.now.ids id.now }
        ensures within { IfSome result (λ i. i < length self.now.ids) }
    {
        self.homes.get_index_of(id)
    }

    /// The number of an entry's record.
    pub fn home(&self, index: usize) -> u64
        requires { index < length self.now.homes }
        ensures { slice_get self.now.homes index ≡ Some result }
    {
        self.homes[index]
    }

    /// Makes room for an entry more.
    pub fn reserve(&mut self) -> Result<(), AllocError>
        ensures ids { self.new.ids ≡ self.old.ids }
        ensures homes { self.new.homes ≡ self.old.homes }
        ensures room { self.old.spare ≤ self.new.spare }
        ensures ok { OnOk result (0 < self.new.spare) }
    {
        self.homes.reserve(1)
    }

    /// Adds an entry with a new id. It takes no memory.
    pub fn push(&mut self, id: Hash, home: u64)
        requires room { 0 < self.old.spare }
        requires new { place_in self.old.ids id ≡ None }
        ensures ids { self.new.ids ≡ self.old.ids ++ id ∷ [] }
        ensures homes { self.new.homes ≡ self.old.homes ++ home ∷ [] }
    {
        self.homes.insert(id, home).unwrap();
    }
}
