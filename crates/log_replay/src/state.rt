// What is kept of a log.

ghost use Rattle.std.specs.Prelude.{◌≡◌, ℕ, ◌≤◌, ◌<◌, ◌+◌, ◌++◌, ◌∷◌, [], List, None, Some, length, map, vec_len, IsSome, IfOk, OnOk, OnErr, option_and_then};
ghost use Rattle.std.specs.Option.{is_some, option_copied, ForSome};
ghost use Rattle.policy_rules.specs.Spelling.{policy_item};
ghost use Rattle.statement.specs.Said.{said_of};
ghost use Rattle.log_replay.specs.Spelling.{HasBytes};
ghost use Rattle.log_replay.specs.Kept.{kept_from, Stands};
ghost use Rattle.log_replay.specs.KeptRows.{judge_kept};

use crate::checked::{Checked, document_of_statement, is_policy};
use crate::judging::{judge_new, key_for};
use crate::laws::state_laws;
use crate::parts::Header;
use crate::tables::Tables;
use crate::words::Judgement;
use crate::writing::policy_text;
use cbor_core::Bytes;
use hss_keys::Key60;
use merkle_tree::NodeTable;
use policy_rules::Policy;
use statement::{Hash, Statement};
use std::alloc::{AllocError, Global};

/// What is kept of a log, the list of its record bodies.
#[derive(Drop)]
pub struct State {
    pub(crate) alloc: Global,
    pub(crate) header: Option<Header>,
    pub(crate) policy: Option<Policy>,
    pub(crate) records: u64,
    pub(crate) reserved: u64,
    pub(crate) used: u64,
    pub(crate) tables: Tables,
    pub(crate) last: u64,
    pub(crate) logged: u64,
    pub(crate) room: Option<Policy>,
    ghost ruled: { is_some header ≡ is_some policy },
    ghost few: { length tables.ids ≤ 65536 },
    ghost most: { ForSome header (λ h. h.max_entries ≤ 65536) },
    ghost name_some: { ForSome header (λ h. 1 ≤ length h.name) },
    ghost name_most: { ForSome header (λ h. length h.name ≤ 128) },
    ghost counted: { records ≤ 1 + reserved + length tables.ids },
    ghost bounded: { reserved ≤ 1073741824 },
    ghost small: { logged ≤ 536870912 },
    ghost written: { ForSome policy (λ p. HasBytes (policy_item p)) },
    ghost made: { ∥ Stands (kept_from header policy records reserved used tables.ids tables.homes tables.facts tables.leaves last logged) ∥₁ },
}

/// The judgement by what is kept.
pub(crate) fn judged(
    policy: &Policy,
    tables: &Tables,
    last: u64,
    checked: &Checked,
    moment: u64,
) -> Judgement
    ensures { result ≡ judge_kept policy.now tables.now.ids tables.now.facts last (said_of checked.now.statement) moment }
{
    match tables.place(&checked.statement.id) {
        Some(i) => Judgement::Known(i),
        None => judge_new(policy, tables.history(), checked, moment.max(last)),
    }
}

impl State {
    ghost use Rattle.log_replay.specs.Records.{Log, header_of, entries_of, leaves_of, reserved_of, homes_of, logged_bytes};
    ghost use Rattle.log_replay.specs.Answers.{policy_bytes};
    ghost use Rattle.log_replay.specs.Judging.{judge as judge_after, moment_after, key_of, last_moment};
    ghost use Rattle.log_replay.specs.StateSeen.{kept_of, StandsFor, HasRoom};
    ghost use Rattle.merkle_tree.specs.Mth.{mth, leaf_hash};
    ghost use Rattle.std.specs.Prelude.{slice_get};

    /// No records.
    pub fn new(alloc: Global) -> State
        ensures { StandsFor result [] }
    {
        State {
            alloc,
            header: None,
            policy: None,
            records: 0,
            reserved: 0,
            used: 0,
            tables: Tables::new(alloc),
            last: 0,
            logged: 0,
            room: None,
        }
    }

    /// The header; `None` exactly where there are no records.
    pub fn header(&self) -> Option<&Header>
        ensures header { (R : Log) → StandsFor self.now R → option_copied result ≡ header_of R }
        ensures kept { option_copied result ≡ (kept_of self.now).header }
    {
        self.header.as_ref()
    }

    /// How many entries there are.
    pub fn size(&self) -> u32
        ensures entries { (R : Log) → StandsFor self.now R → result ≡ length (entries_of R) }
        ensures leaves { (R : Log) → StandsFor self.now R → result ≡ length (leaves_of R) }
        ensures ids { result ≡ length (kept_of self.now).ids }
        ensures homes { result ≡ length (kept_of self.now).homes }
    {
        self.tables.len()
    }

    /// The logged bytes of all entries.
    pub fn logged_bytes(&self) -> u64
        ensures { (R : Log) → StandsFor self.now R → result ≡ logged_bytes (entries_of R) }
    {
        self.logged
    }

    /// The last reservation, or 0.
    pub fn reserved(&self) -> u64
        ensures { (R : Log) → StandsFor self.now R → result ≡ reserved_of R }
    {
        self.reserved
    }

    /// The last entry's moment, or 0.
    pub fn last_moment(&self) -> u64
        ensures { (R : Log) → StandsFor self.now R → result ≡ last_moment (entries_of R) }
    {
        self.last
    }

    /// The root of all entries (RFC 9162, 2.1.1).
    pub fn root(&self) -> Hash
        ensures { (R : Log) → StandsFor self.now R → result ≡ mth (leaves_of R) }
    {
        let table = self.tables.table();
        table.root_at(table.size())
    }

    /// The table whose leaves are the leaf hashes of the entries.
    pub fn tree(&self) -> &NodeTable
        ensures { (R : Log) → StandsFor self.now R → result.now.leaves ≡ map leaf_hash (leaves_of R) }
    {
        self.tables.table()
    }

    /// The number of the record that holds an entry.
    pub fn record_of(&self, index: u32) -> u64
        requires { index < length (kept_of self.now).homes }
        ensures { (R : Log) → StandsFor self.now R → slice_get (homes_of R) index ≡ Some result }
    {
        self.tables.home(index)
    }

    /// The key that the policy in force names for a statement; `None` exactly where it names none, or there are no records.
    pub fn key_hint(&self, statement: &Statement) -> Option<Key60>
        ensures { (R : Log) → StandsFor self.now R → result ≡ key_of R (said_of statement.now) }
    {
        match &self.policy {
            Some(policy) => key_for(policy, statement, is_policy(statement)),
            None => None,
        }
    }

    /// The strict bytes of the policy in force. There is a header.
    pub fn policy(&self) -> Result<Bytes, AllocError>
        requires { IsSome self.now.header }
        ensures { (R : Log) → StandsFor self.now R → IfOk result (λ bytes. policy_bytes R ≡ Some bytes) }
    {
        match &self.policy {
            Some(policy) => policy_text(self.alloc, policy),
            None => unreachable!(),
        }
    }

    /// What a statement is judged to be at a moment, and the judged moment. It takes no memory, and checks the signature again where
    /// the key in force isn't the checked one.
    pub fn judge(&self, checked: &Checked, moment: u64) -> (Judgement, u64)
        requires { IsSome self.now.header }
        ensures judged { (R : Log) (h : Header) → StandsFor self.now R → header_of R ≡ Some h
            → result.0 ≡ judge_after h (entries_of R) (said_of checked.now.statement) moment }
        ensures moment { (R : Log) → StandsFor self.now R → result.1 ≡ moment_after (entries_of R) moment }
    {
        state_laws();
        let judgement = match &self.policy {
            Some(policy) => judged(policy, &self.tables, self.last, checked, moment),
            None => unreachable!(),
        };
        (judgement, moment.max(self.last))
    }
}
