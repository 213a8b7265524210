// Records that are taken.

ghost use Rattle.std.specs.Prelude.{◌≡◌, ℕ, ◌≤◌, ◌<◌, ◌+◌, ◌++◌, ◌∷◌, [], List, None, Some, length, vec_len, IsSome, IfOk, IfSome, IfNone, OnOk, OnErr, MatchResult, true};
ghost use Rattle.cbor_core.specs.Rows.{first_row};
ghost use Rattle.merkle_tree.specs.Mth.{leaf_hash as hash_of_leaf};
ghost use Rattle.policy_rules.specs.Documents.{bootstrap_of};
ghost use Rattle.policy_rules.specs.Spelling.{policy_item};
ghost use Rattle.statement.specs.Said.{said_of};
ghost use Rattle.log_replay.specs.Seen.{heading_seen, record_seen, entry_seen};
ghost use Rattle.log_replay.specs.Spelling.{HasBytes};
ghost use Rattle.log_replay.specs.WellMade.{header_holds};
ghost use Rattle.log_replay.specs.Records.{Log, header_record, reserve_record, batch_record, record_of as record_in, entry_of};
ghost use Rattle.log_replay.specs.Kept.{Stands, first_kept, with_reserve, with_batch, StateOf};
ghost use Rattle.log_replay.specs.KeptRows.{judge_kept, kept_entry_failing, kept_entry_rows, kept_batch_rows, failing_kept, with_record};
ghost use Rattle.log_replay.specs.StateSeen.{kept_of, StandsFor, HasRoom};
ghost use Rattle.log_replay.specs.Steps.{Takes, TakesOf, Steps, Fits, entry_text, batch_with};

use crate::checked::{Checked, check, document_of_statement, reads_again};
use crate::hashing::entry_hash;
use crate::laws::{log_laws, state_laws};
use crate::parts::{BatchParts, Entry, Header, Heading, Record};
use crate::reading::{read_entry, record_of};
use crate::rules::{Measures, batch_fails, entry_fails, header_from, reservation_holds};
use crate::state::{State, judged};
use crate::tables::Tables;
use crate::words::{Failing, StepStop, Why};
use crate::writing::{bootstrap, shape_laws};
use cbor_core::strict_items_are_spelled;
use merkle_tree::leaf_hash;
use policy_rules::Policy;
use statement::Hash;
use std::alloc::{AllocError, Global};

/// An entry that fails no rule of its own.
#[derive(Drop)]
pub(crate) struct Ready {
    pub checked: Checked,
    pub at: u64,
    pub rule: u16,
}

ghost use Rattle.log_replay.specs.Ready.{EntryHolds, BatchHolds};

impl State {
    // The first rule that a Reserve fails.
    #[tactic(auto, unfolding(crate::specs::KeptRows::failing_behind, crate::specs::KeptRows::failing_first))]
    fn reserve_fails(&self, upto: u64) -> Option<Failing>
        ensures rows { result ≡ failing_kept (kept_of self.now) (Some (reserve_record upto)) }
        ensures fits { IfNone result (upto ≤ 1073741824) }
        ensures above { IfNone result (self.now.reserved < upto) }
    {
        match &self.header {
            None => Some(Failing::by(Why::Order)),
            Some(header) => {
                if reservation_holds(header, self.reserved, upto) {
                    None
                } else {
                    Some(Failing::by(Why::Reserve))
                }
            }
        }
    }

    // Keeps a reservation more.
    fn add_reserve(&mut self, upto: u64)
        requires above { self.old.reserved < upto }
        requires most { upto ≤ 1073741824 }
        requires made { ∥ Stands (with_reserve (kept_of self.old) upto) ∥₁ }
        ensures kept { kept_of self.new ≡ with_reserve (kept_of self.old) upto }
        ensures room { (c : Checked) → HasRoom self.old c → HasRoom self.new c }
    {
        self.records += 1;
        self.reserved = upto;
    }

    fn step_reserve(&mut self, body: &[u8], upto: u64) -> Option<Failing>
        requires { record_in body.now ≡ Some (reserve_record upto) }
        ensures { Takes (kept_of self.old) (Some (reserve_record upto)) result (kept_of self.new) }
    {
        state_laws();
        match self.reserve_fails(upto) {
            Some(failing) => Some(failing),
            None => {
                self.add_reserve(upto);
                None
            }
        }
    }

    // The state of a header alone.
    fn first(alloc: Global, header: Header, policy: Policy) -> State
        requires most { header.max_entries ≤ 65536 }
        requires name_some { 1 ≤ length header.name }
        requires name_most { length header.name ≤ 128 }
        requires policy { policy ≡ bootstrap_of header.governor }
        requires written { HasBytes (policy_item policy) }
        requires made { ∥ Stands (first_kept header) ∥₁ }
        ensures { kept_of result ≡ first_kept header }
    {
        State {
            alloc,
            header: Some(header),
            policy: Some(policy),
            records: 1,
            reserved: 0,
            used: 0,
            tables: Tables::new(alloc),
            last: 0,
            logged: 0,
            room: None,
        }
    }

    fn begin(&mut self, header: Header) -> Result<(), AllocError>
        requires most { header.max_entries ≤ 65536 }
        requires name_some { 1 ≤ length header.name }
        requires name_most { length header.name ≤ 128 }
        requires iss { length header.governor.iss ≤ 1024 }
        requires kid { length header.governor.kid ≤ 64 }
        requires made { ∥ Stands (first_kept header) ∥₁ }
        ensures ok { OnOk result (kept_of self.new ≡ first_kept header) }
        ensures err { OnErr result (kept_of self.new ≡ kept_of self.old) }
    {
        let policy = bootstrap(self.alloc, &header.governor)?;
        *self = State::first(self.alloc, header, policy);
        Ok(())
    }

    fn first_header(&mut self, body: &[u8], heading: Heading) -> Result<Option<Failing>, AllocError>
        requires reads { record_in body.now ≡ Some (header_record (heading_seen heading)) }
        requires none { self.old.header ≡ None }
        ensures ok { IfOk result (λ o. Takes (kept_of self.old) (Some (header_record (heading_seen heading))) o (kept_of self.new)) }
        ensures err { OnErr result (kept_of self.new ≡ kept_of self.old) }
    {
        state_laws();
        match header_from(heading) {
            None => Ok(Some(Failing::by(Why::Header))),
            Some(header) => {
                self.begin(header)?;
                Ok(None)
            }
        }
    }

    fn step_header(&mut self, body: &[u8], heading: Heading) -> Result<Option<Failing>, AllocError>
        requires { record_in body.now ≡ Some (header_record (heading_seen heading)) }
        ensures ok { IfOk result (λ o. Takes (kept_of self.old) (Some (header_record (heading_seen heading))) o (kept_of self.new)) }
        ensures err { OnErr result (kept_of self.new ≡ kept_of self.old) }
    {
        match &self.header {
            Some(_) => Ok(Some(Failing::by(Why::Order))),
            None => self.first_header(body, heading),
        }
    }

    /// Keeps a Reserve more, where the list with it is well made. It takes no memory.
    pub fn accept_reserve(&mut self, upto: u64)
        requires { (R : Log) → StandsFor self.old R → Fits R (reserve_record upto) }
        ensures kept { kept_of self.new ≡ with_reserve (kept_of self.old) upto }
        ensures log { (R : Log) (body : List ℕ) → StandsFor self.old R → record_in body ≡ Some (reserve_record upto) → StandsFor self.new (R ++ body ∷ []) }
        ensures room { (c : Checked) → HasRoom self.old c → HasRoom self.new c }
    {
        state_laws();
        log_laws();
        match self.reserve_fails(upto) {
            None => self.add_reserve(upto),
            Some(_) => unreachable!(),
        }
    }

    /// Makes room for an entry of this statement, so that it may be accepted without memory. Without memory the state stands for the
    /// same logs.
    pub fn make_room(&mut self, checked: &Checked) -> Result<(), AllocError>
        requires { length (kept_of self.old).ids < 65536 }
        ensures kept { kept_of self.new ≡ kept_of self.old }
        ensures room { OnOk result (HasRoom self.new checked.now) }
    {
        let document = document_of_statement(self.alloc, &checked.statement)?;
        self.tables.reserve(&checked.facts)?;
        self.room = document;
        Ok(())
    }

    // Keeps a Batch of one entry more.
    fn add_batch(&mut self, checked: &Checked, at: u64, index: u64, hash: Hash)
        requires room { HasRoom self.old checked.now }
        requires header { IsSome self.old.header }
        requires count { length (kept_of self.old).ids < 65536 }
        requires bytes { self.old.logged + length checked.now.statement.logged ≤ 536870912 }
        requires index { index < 1073741824 }
        requires made { ∥ Stands (with_batch (kept_of self.old) index hash at (said_of checked.now.statement)) ∥₁ }
        ensures { kept_of self.new ≡ with_batch (kept_of self.old) index hash at (said_of checked.now.statement) }
    {
        self.tables
            .push(checked.statement.id, self.records, &checked.facts, hash);
        self.records += 1;
        self.used = index + 1;
        self.last = at;
        self.logged += checked.statement.logged.as_slice().len() as u64;
        if let Some(policy) = self.room.take() {
            self.policy = Some(policy);
        }
    }

    /// Keeps a Batch more, of this statement's entry alone, where the list with it is well made and room was made for the statement. It
    /// takes no memory. Its moment is `at`, and `rule` admits it; the signature stands in the log, and not here.
    pub fn accept_batch(
        &mut self,
        checked: &Checked,
        at: u64,
        rule: u16,
        index: u64,
        signature: &[u8],
    )
        requires room { HasRoom self.old checked.now }
        requires fits { (R : Log) → StandsFor self.old R → Fits R (batch_with at rule (said_of checked.now.statement) index signature.now) }
        ensures kept { kept_of self.new ≡ with_batch (kept_of self.old) index (hash_of_leaf (entry_text at rule (said_of checked.now.statement))) at (said_of checked.now.statement) }
        ensures log { (R : Log) (body : List ℕ) → StandsFor self.old R → record_in body ≡ Some (batch_with at rule (said_of checked.now.statement) index signature.now) → StandsFor self.new (R ++ body ∷ []) }
    {
        state_laws();
        log_laws();
        shape_laws();
        strict_items_are_spelled();
        reads_again(&checked.statement);
        let hash = entry_hash(at, rule, checked.statement.logged.as_slice());
        self.add_batch(checked, at, index, hash);
    }

    // The entry that these bytes are, or the first rule that it fails.
    fn try_entry(
        &self,
        header: &Header,
        policy: &Policy,
        leaf: &[u8],
    ) -> Result<Result<Ready, Failing>, AllocError>
        ensures { IfOk result (λ r. MatchResult r (EntryHolds header.now policy.now (kept_of self.now) leaf.now) (λ f. Some f ≡ kept_entry_failing header.now policy.now (kept_of self.now) (entry_of leaf.now))) }
    {
        let Some(entry) = read_entry(self.alloc, leaf)? else {
            return Ok(Err(Failing::by(Why::EntryForm)));
        };
        let Entry {
            at,
            rule,
            statement,
        } = entry;
        let Ok(checked) = check(self.alloc, statement, None) else {
            return Err(AllocError);
        };
        let judgement = judged(policy, &self.tables, self.last, &checked, at);
        let measures = Measures {
            last: self.last,
            count: u64::from(self.tables.len()),
            logged: self.logged,
            at,
            rule,
            len: checked.statement.logged.as_slice().len() as u64,
        };
        match entry_fails(header, judgement, measures) {
            Some(failing) => Ok(Err(failing)),
            None => Ok(Ok(Ready { checked, at, rule })),
        }
    }

    // A Batch of one entry that fails no rule, or the first that it fails.
    fn try_single(
        &self,
        header: &Header,
        policy: &Policy,
        batch: &BatchParts,
        leaf: &[u8],
    ) -> Result<Result<Ready, Failing>, AllocError>
        requires header { self.now.header ≡ Some header.now }
        requires policy { self.now.policy ≡ Some policy.now }
        requires one { batch.now.entries ≡ leaf.now ∷ [] }
        ensures { IfOk result (λ r. MatchResult r (BatchHolds (kept_of self.now) batch.now leaf.now) (λ f. Some f ≡ failing_kept (kept_of self.now) (Some (batch_record batch.now)))) }
    {
        let ready = match self.try_entry(header, policy, leaf)? {
            Ok(ready) => ready,
            Err(failing) => return Ok(Err(failing)),
        };
        let hash = leaf_hash(leaf);
        let table = self.tables.table();
        match batch_fails(
            self.alloc,
            header,
            self.reserved,
            self.used,
            table,
            batch,
            &hash,
        )? {
            Some(failing) => Ok(Err(failing)),
            None => Ok(Ok(ready)),
        }
    }

    fn try_batch(
        &self,
        batch: &BatchParts,
        leaf: &[u8],
    ) -> Result<Result<Ready, Failing>, AllocError>
        requires one { batch.now.entries ≡ leaf.now ∷ [] }
        ensures { IfOk result (λ r. MatchResult r (λ ready. BatchHolds (kept_of self.now) batch.now leaf.now ready × IsSome self.now.header) (λ f. Some f ≡ failing_kept (kept_of self.now) (Some (batch_record batch.now)))) }
    {
        match &self.header {
            None => Ok(Err(Failing::by(Why::Order))),
            Some(header) => match &self.policy {
                None => unreachable!(),
                Some(policy) => self.try_single(header, policy, batch, leaf),
            },
        }
    }

    fn add_ready(
        &mut self,
        body: &[u8],
        batch: &BatchParts,
        leaf: &[u8],
        ready: &Ready,
    ) -> Result<(), AllocError>
        requires reads { record_in body.now ≡ Some (batch_record batch.now) }
        requires one { batch.now.entries ≡ leaf.now ∷ [] }
        requires header { IsSome self.old.header }
        requires holds { BatchHolds (kept_of self.old) batch.now leaf.now ready.now }
        ensures ok { OnOk result (kept_of self.new ≡ with_record (kept_of self.old) (Some (batch_record batch.now))) }
        ensures err { OnErr result (kept_of self.new ≡ kept_of self.old) }
    {
        state_laws();
        self.make_room(&ready.checked)?;
        let hash = leaf_hash(leaf);
        self.add_batch(&ready.checked, ready.at, batch.index, hash);
        Ok(())
    }

    fn step_single(
        &mut self,
        body: &[u8],
        batch: &BatchParts,
        leaf: &[u8],
    ) -> Result<Option<Failing>, AllocError>
        requires reads { record_in body.now ≡ Some (batch_record batch.now) }
        requires one { batch.now.entries ≡ leaf.now ∷ [] }
        ensures ok { IfOk result (λ o. Takes (kept_of self.old) (Some (batch_record batch.now)) o (kept_of self.new)) }
        ensures err { OnErr result (kept_of self.new ≡ kept_of self.old) }
    {
        let ready = match self.try_batch(batch, leaf)? {
            Ok(ready) => ready,
            Err(failing) => return Ok(Some(failing)),
        };
        self.add_ready(body, batch, leaf, &ready)?;
        Ok(None)
    }

    fn step_batch(&mut self, body: &[u8], batch: &BatchParts) -> Result<Option<Failing>, AllocError>
        requires { record_in body.now ≡ Some (batch_record batch.now) }
        ensures ok { IfOk result (λ o. Takes (kept_of self.old) (Some (batch_record batch.now)) o (kept_of self.new)) }
        ensures err { OnErr result (kept_of self.new ≡ kept_of self.old) }
    {
        match batch.entries.as_slice() {
            [] => Ok(Some(Failing::by(Why::Form))),
            [leaf] => self.step_single(body, batch, leaf.as_slice()),
            [_, _, ..] => Ok(Some(Failing::by(Why::Form))),
        }
    }

    fn take(&mut self, body: &[u8]) -> Result<Option<Failing>, AllocError>
        ensures ok { IfOk result (λ o. Takes (kept_of self.old) (record_in body.now) o (kept_of self.new)) }
        ensures err { OnErr result (kept_of self.new ≡ kept_of self.old) }
    {
        match record_of(self.alloc, body)? {
            None => Ok(Some(Failing::by(Why::Form))),
            Some(Record::Head(heading)) => self.step_header(body, heading),
            Some(Record::Reserve(upto)) => Ok(self.step_reserve(body, upto)),
            Some(Record::Entries(batch)) => self.step_batch(body, &batch),
        }
    }

    /// Adds one record where the list with it is well made, and else tells the first rule that it fails. Then, and without memory, the
    /// state stands for the same logs as before.
    pub fn take_record(&mut self, body: &[u8]) -> Result<Option<Failing>, AllocError>
        ensures kept { IfOk result (λ o. Takes (kept_of self.old) (record_in body.now) o (kept_of self.new)) }
        ensures log { IfOk result (λ o. (R : Log) → StandsFor self.old R → TakesOf R body.now o (kept_of self.new)) }
        ensures err { OnErr result (kept_of self.new ≡ kept_of self.old) }
    {
        state_laws();
        self.take(body)
    }

    /// Adds one record where the list with it is well made. `BadRecord` comes exactly where it isn't, with the record's number and the
    /// first rule that it fails. After a refusal, and without memory, the state stands for the same logs as before.
    pub fn step(&mut self, body: &[u8]) -> Result<(), StepStop>
        ensures steps { (R : Log) → StandsFor self.old R → Steps R body.now result (kept_of self.new) }
    {
        match self.take_record(body) {
            Ok(None) => Ok(()),
            Ok(Some(failing)) => Err(StepStop::BadRecord {
                number: self.records,
                why: failing.why,
            }),
            Err(_) => Err(StepStop::OutOfMemory),
        }
    }
}
