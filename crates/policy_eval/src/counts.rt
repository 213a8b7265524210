// How many entries each subject has, each issuer, and each subject with an issuer.

ghost use Rattle.std.specs.Prelude.{◌≡◌, ℕ, ◌<◌, [], ◌∷◌, ◌++◌, ◌&&◌, length, None, count_by, OnOk, OnErr};
ghost use Rattle.std.specs.Option.{is_some};
ghost use Rattle.policy_eval.specs.Cases.{RoomFor};
ghost use Rattle.policy_eval.specs.Holds.{has_issuer, has_subject};

use crate::entered::{Entered, no_facts, with_facts};
use crate::keys::{pair_at, pair_count, pair_key, raise, text_at, text_count, text_key};
use cbor_core::Text;
use indexmap::IndexMap;
use policy_rules::Facts;
use std::alloc::{AllocError, Global};
use std::marker::Model;
use std::mem;
use std::snapshot::Snapshot;

// The counts of the entries, with keys for the next one. A pair is the places of its subject and of its issuer among the keys. A key
// with the count 0 stands for no entry.
#[derive(Drop)]
pub(crate) struct Counts {
    alloc: Global,
    subjects: IndexMap<String, u32>,
    issuers: IndexMap<String, u32>,
    pairs: IndexMap<(usize, usize), u32>,
    next: Option<Snapshot<Facts>>,
    entered: Snapshot<Entered>,
}

impl Model for Counts {
    ghost use Rattle.std.specs.Option.{IfSome};
    ghost use Rattle.policy_eval.specs.History.{Entries};
    ghost use Rattle.policy_eval.specs.Entered.{facts_of, next_of};
    ghost use Rattle.policy_eval.specs.Counts.{Counted, HasKeys};

    ghost Value = { Entries };

    ghost view = { λ c. record { entries = facts_of c.entered.value; room = next_of c.next } };

    ghost invariant = { λ c. Counted c.subjects.entries c.issuers.entries c.pairs.entries (facts_of c.entered.value)
        × IfSome c.next (λ s. HasKeys c.subjects.entries c.issuers.entries c.pairs.entries s.value) };
}

impl Counts {
    // No entries.
    pub(crate) fn new(alloc: Global) -> Counts
        ensures entries { result.entries ≡ [] }
        ensures room { result.room ≡ None }
    {
        Counts {
            alloc,
            subjects: IndexMap::new(alloc),
            issuers: IndexMap::new(alloc),
            pairs: IndexMap::new(alloc),
            next: None,
            entered: no_facts(),
        }
    }

    // Whether there are keys for one more entry.
    pub(crate) fn has_room(&self) -> bool
        ensures { result ≡ is_some self.now.room }
    {
        self.next.is_some()
    }

    // Makes keys for these facts.
    pub(crate) fn reserve(&mut self, facts: &Facts) -> Result<(), AllocError>
        ensures entries { self.new.entries ≡ self.old.entries }
        ensures ok { OnOk result (RoomFor self.new facts.now) }
        ensures err { OnErr result (self.new.room ≡ self.old.room) }
    {
        let subject = text_key(self.alloc, &mut self.subjects, &facts.subject)?;
        let issuer = text_key(self.alloc, &mut self.issuers, &facts.issuer)?;
        pair_key(&mut self.pairs, (subject, issuer))?;
        self.next = Some(Snapshot::of(facts));
        Ok(())
    }

    // Counts these facts. It takes no memory.
    pub(crate) fn push(&mut self, facts: &Facts)
        requires few { length self.old.entries < 4294967295 }
        requires room { RoomFor self.old facts.now }
        ensures entries { self.new.entries ≡ self.old.entries ++ facts.now ∷ [] }
        ensures room { self.new.room ≡ None }
    {
        let subject = text_at(&self.subjects, &facts.subject).unwrap();
        let issuer = text_at(&self.issuers, &facts.issuer).unwrap();
        let pair = pair_at(&self.pairs, (subject, issuer)).unwrap();
        raise(&mut self.subjects, subject);
        raise(&mut self.issuers, issuer);
        raise(&mut self.pairs, pair);
        let before = mem::replace(&mut self.entered, no_facts());
        self.entered = with_facts(before, facts);
        self.next = None;
    }

    // How many entries have this subject.
    pub(crate) fn of_subject(&self, subject: &Text) -> u32
        ensures { result ≡ count_by (has_subject subject.now) self.now.entries }
    {
        text_count(&self.subjects, subject)
    }

    // How many entries have this issuer.
    pub(crate) fn of_issuer(&self, issuer: &Text) -> u32
        ensures { result ≡ count_by (has_issuer issuer.now) self.now.entries }
    {
        text_count(&self.issuers, issuer)
    }

    // How many entries have both.
    pub(crate) fn of_both(&self, subject: &Text, issuer: &Text) -> u32
        ensures { result ≡ count_by (λ f. has_subject subject.now f && has_issuer issuer.now f) self.now.entries }
    {
        let Some(subject_at) = text_at(&self.subjects, subject) else {
            return 0;
        };
        let Some(issuer_at) = text_at(&self.issuers, issuer) else {
            return 0;
        };
        pair_count(&self.pairs, (subject_at, issuer_at))
    }
}
