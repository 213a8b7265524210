// Policies and their parts.

ghost use Rattle.std.specs.Prelude.{◌≡◌, IfOk};
ghost use Rattle.policy_rules.specs.Documents.{bootstrap_of};

use crate::conditions::Cond;
use cbor_core::{Bytes, Fault, Text};
use sqlite_items::Items;
use std::alloc::{AllocError, Global};
use thiserror::Error;

/// The bytes of an HSS public key.
pub type Key60 = [u8; 60];

/// Who may sign: an issuer's name, the name of its key, and the key.
#[derive(Drop)]
pub struct Holder {
    pub iss: Text,
    pub kid: Bytes,
    pub key: Key60,
}

/// Holders, that contracts see as a list.
pub type Holders = Items<Holder>;

/// A rule: what it says where its condition holds.
#[derive(Drop)]
pub struct Rule {
    pub id: u16,
    pub admit: bool,
    pub cond: Cond,
}

/// Rules, that contracts see as a list.
pub type Rules = Items<Rule>;

/// A policy document.
#[derive(Drop)]
pub struct Policy {
    pub version: u32,
    pub governors: Holders,
    pub issuers: Holders,
    pub rules: Rules,
}

/// Why bytes are no policy document.
#[derive(Clone, Copy, PartialEq, Eq, Debug, Drop, Error)]
pub enum PolicyStop {
    /// They aren't one item.
    #[error("{0}")]
    Cbor(Fault),
    /// The first place that fails: 1 the shape, 2 the version, 3 the governors, 4 the issuers, 5 the rules.
    #[error("no policy document at place {0}")]
    BadPolicy(u8),
    /// Memory ran out.
    #[error("out of memory")]
    OutOfMemory,
}

impl Holder {
    /// A copy.
    pub fn copied(&self, alloc: Global) -> Result<Holder, AllocError>
        ensures { IfOk result (λ copy. copy ≡ self.now) }
    {
        let iss = Text::from_str(alloc, self.iss.as_str())?;
        let kid = Bytes::from_slice(alloc, self.kid.as_slice())?;
        Ok(Holder {
            iss,
            kid,
            key: self.key,
        })
    }
}

impl Policy {
    /// The policy in force before any document: version 0, this governor, no issuers and no rules.
    pub fn bootstrap(alloc: Global, governor: &Holder) -> Result<Policy, AllocError>
        ensures { IfOk result (λ policy. policy ≡ bootstrap_of governor.now) }
    {
        let mut governors = Items::new(alloc);
        governors.push(governor.copied(alloc)?)?;
        Ok(Policy {
            version: 0,
            governors,
            issuers: Items::new(alloc),
            rules: Items::new(alloc),
        })
    }
}
