// What is kept of each entry.

ghost use Rattle.std.specs.Prelude.{◌≡◌, ℕ, ◌≤◌, ◌<◌, ◌++◌, ◌∷◌, [], None, Some, length, OnOk, OnErr, slice_get};
ghost use Rattle.log_replay.specs.KeptRows.{place_in};

use crate::numbered::Numbered;
use merkle_tree::NodeTable;
use policy_eval::History;
use policy_rules::Facts;
use statement::Hash;
use std::alloc::{AllocError, Global};
use std::marker::Model;

/// The entries' ids, the numbers of their records, their facts and their leaf hashes, with room for one entry more.
#[derive(Drop)]
pub struct Tables {
    numbered: Numbered,
    history: History,
    table: NodeTable,
}

impl Model for Tables {
    ghost use Rattle.std.specs.Prelude.{◌≡◌, ℕ, ◌<◌, ◌≤◌, List, length, IfSome};
    ghost use Rattle.log_replay.specs.Lists.{Lists};

    ghost Value = { Lists };

    ghost view = { λ t. record { ids = t.numbered.ids; homes = t.numbered.homes; facts = t.history.entries; leaves = t.table.leaves; room = t.history.room } };

    ghost invariant = { λ t. (length t.numbered.ids ≤ 65536) × (length t.numbered.homes ≡ length t.numbered.ids)
        × (length t.history.entries ≡ length t.numbered.ids) × (length t.table.leaves ≡ length t.numbered.ids)
        × (IfSome t.history.room (λ _. (0 < t.numbered.spare) × (0 < t.table.spare))) };
}

impl Tables {
    /// No entries.
    pub fn new(alloc: Global) -> Tables
        ensures ids { result.ids ≡ [] }
        ensures homes { result.homes ≡ [] }
        ensures facts { result.facts ≡ [] }
        ensures leaves { result.leaves ≡ [] }
        ensures room { result.room ≡ None }
    {
        Tables {
            numbered: Numbered::new(alloc),
            history: History::new(alloc),
            table: NodeTable::new(alloc),
        }
    }

    /// How many entries there are.
    pub fn len(&self) -> u32
        ensures ids { result ≡ length self.now.ids }
        ensures homes { result ≡ length self.now.homes }
        ensures leaves { result ≡ length self.now.leaves }
        ensures few { result ≤ 65536 }
    {
        self.numbered.len() as u32
    }

    /// The place of the entry with this id.
    pub fn place(&self, id: &Hash) -> Option<u32>
        ensures { result ≡ place_in self.now.ids id.now }
    {
        let index = self.numbered.place(id)?;
        Some(index as u32)
    }

    /// The number of an entry's record.
    pub fn home(&self, index: u32) -> u64
        requires { index < length self.now.homes }
        ensures { slice_get self.now.homes index ≡ Some result }
    {
        self.numbered.home(index as usize)
    }

    /// The entries' facts.
    pub fn history(&self) -> &History
        ensures { result.now.entries ≡ self.now.facts }
    {
        &self.history
    }

    /// The entries' leaf hashes.
    pub fn table(&self) -> &NodeTable
        ensures leaves { result.now.leaves ≡ self.now.leaves }
        ensures few { length self.now.leaves ≤ 65536 }
    {
        &self.table
    }

    /// Makes room for an entry with these facts. Without memory what there was room for stays.
    pub fn reserve(&mut self, facts: &Facts) -> Result<(), AllocError>
        requires few { length self.old.ids < 65536 }
        ensures ids { self.new.ids ≡ self.old.ids }
        ensures homes { self.new.homes ≡ self.old.homes }
        ensures facts { self.new.facts ≡ self.old.facts }
        ensures leaves { self.new.leaves ≡ self.old.leaves }
        ensures ok { OnOk result (self.new.room ≡ Some facts.now) }
        ensures err { OnErr result (self.new.room ≡ self.old.room) }
    {
        self.numbered.reserve()?;
        self.table.reserve()?;
        self.history.reserve(facts)?;
        Ok(())
    }

    /// Adds an entry with a new id. It takes no memory.
    pub fn push(&mut self, id: Hash, home: u64, facts: &Facts, hash: Hash)
        requires few { length self.old.ids < 65536 }
        requires room { self.old.room ≡ Some facts.now }
        requires new { place_in self.old.ids id ≡ None }
        ensures ids { self.new.ids ≡ self.old.ids ++ id ∷ [] }
        ensures homes { self.new.homes ≡ self.old.homes ++ home ∷ [] }
        ensures facts { self.new.facts ≡ self.old.facts ++ facts.now ∷ [] }
        ensures leaves { self.new.leaves ≡ self.old.leaves ++ hash ∷ [] }
        ensures room { self.new.room ≡ None }
    {
        self.numbered.push(id, home);
        self.table.push(hash);
        self.history.push(facts);
    }
}
