// The parts of records and of entries.

use cbor_core::{Bytes, Text};
use hss_keys::{Key60, Levels};
use lms_tree::Level;
use policy_rules::Holder;
use sqlite_items::Items;
use statement::{Blobs, Statement};

/// What a log is begun with.
#[derive(Drop)]
pub struct Header {
    /// The service's name.
    pub name: Text,
    /// The governor of the bootstrap policy.
    pub governor: Holder,
    /// The service's key.
    pub key: Key60,
    /// The levels of its trees.
    pub levels: Levels,
    /// The most entries.
    pub max_entries: u32,
    /// How many indices one reservation adds at most.
    pub block: u32,
}

/// A header as it is read, before its limits are tried.
#[derive(Drop)]
pub(crate) struct Heading {
    pub name: Text,
    pub governor: Holder,
    pub key: Key60,
    pub levels: Items<Level>,
    pub max_entries: u64,
    pub block: u64,
}

/// What a Batch record holds.
#[derive(Drop)]
pub struct BatchParts {
    /// The entries' bytes.
    pub entries: Blobs,
    /// The index of the signature.
    pub index: u64,
    pub signature: Bytes,
}

/// A record as it is read.
#[derive(Drop)]
pub(crate) enum Record {
    Head(Heading),
    Reserve(u64),
    Entries(BatchParts),
}

/// What an entry's bytes hold.
#[derive(Drop)]
pub struct EntryParts {
    /// When it was registered, in seconds since 1970.
    pub at: u64,
    /// The rule that admitted it.
    pub rule: u16,
    /// The statement's logged form.
    pub logged: Bytes,
}

/// An entry as it is read.
#[derive(Drop)]
pub(crate) struct Entry {
    pub at: u64,
    pub rule: u16,
    pub statement: Statement,
}
