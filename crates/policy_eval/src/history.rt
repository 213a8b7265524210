// The facts of all entries, as counts.

ghost use Rattle.std.specs.Prelude.{◌≡◌, ◌<◌, [], ◌∷◌, ◌++◌, length, None, OnOk, OnErr, if◌then◌else◌};
ghost use Rattle.std.specs.Option.{is_some};
ghost use Rattle.policy_eval.specs.Cases.{RoomFor};

use crate::counts::Counts;
use policy_rules::Facts;
use std::alloc::{AllocError, Global};
use std::marker::Model;

/// What conditions ask of the facts of all entries, with room for one entry more: how many entries each subject has, each issuer, and
/// each subject with an issuer.
#[derive(Drop)]
pub struct History {
    counts: Counts,
    len: u32,
}

impl Model for History {
    ghost use Rattle.std.specs.Prelude.{◌≡◌, length};
    ghost use Rattle.policy_eval.specs.History.{Entries};

    ghost Value = { Entries };

    ghost view = { λ h. h.counts };

    ghost invariant = { λ h. h.len ≡ length h.counts.entries };
}

impl History {
    /// No entries.
    pub fn new(alloc: Global) -> History
        ensures entries { result.entries ≡ [] }
        ensures room { result.room ≡ None }
    {
        History {
            counts: Counts::new(alloc),
            len: 0,
        }
    }

    /// How many entries there are.
    pub fn len(&self) -> u32
        ensures { result ≡ length self.now.entries }
    {
        self.len
    }

    /// How many entries may be pushed without memory.
    pub fn spare(&self) -> u32
        ensures { result ≡ (if is_some self.now.room then 1 else 0) }
    {
        if self.counts.has_room() { 1 } else { 0 }
    }

    /// Makes room for these facts.
    pub fn reserve(&mut self, facts: &Facts) -> Result<(), AllocError>
        requires few { length self.old.entries < 4294967295 }
        ensures entries { self.new.entries ≡ self.old.entries }
        ensures ok { OnOk result (RoomFor self.new facts.now) }
        ensures err { OnErr result (self.new.room ≡ self.old.room) }
    {
        self.counts.reserve(facts)
    }

    /// Adds these facts as those of the next entry. It takes no memory.
    pub fn push(&mut self, facts: &Facts)
        requires few { length self.old.entries < 4294967295 }
        requires room { RoomFor self.old facts.now }
        ensures entries { self.new.entries ≡ self.old.entries ++ facts.now ∷ [] }
        ensures room { self.new.room ≡ None }
    {
        self.counts.push(facts);
        self.len += 1;
    }

    // The entries' counts.
    pub(crate) fn counts(&self) -> &Counts
        ensures { result.now.entries ≡ self.now.entries }
    {
        &self.counts
    }
}
