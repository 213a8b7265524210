// Whom a relying party trusts.

ghost use Rattle.std.specs.Prelude.{◌≡◌};
ghost use Rattle.sha2.specs.Sha256.{sha256};

use cbor_core::{Bytes, Fault, Text};
use hss_keys::Key60;
use merkle_tree::Hash;
use sha2::{Digest, Sha256};
use sqlite_items::Items;
use std::marker::Model;
use thiserror::Error;

/// A service that is trusted: its name and its HSS public key. The digest of the key is kept beside it, by which receipts name the key.
/// Contracts see the name and the key.
#[derive(Drop)]
pub struct Service {
    name: Text,
    key: Key60,
    kid: Hash,
}

impl Model for Service {
    ghost use Rattle.std.specs.Prelude.{◌≡◌};
    ghost use Rattle.sha2.specs.Sha256.{sha256};
    ghost use Rattle.relying_party.specs.Parties.{ServiceKey};

    ghost Value = { ServiceKey };

    ghost view = { λ s. record { name = s.name; key = s.key } };

    ghost invariant = { λ s. s.kid ≡ sha256 s.key };
}

impl Service {
    /// A service of this name and key.
    pub fn new(name: Text, key: Key60) -> Service
        ensures { result ≡ record { name = name; key = key } }
    {
        let kid = Sha256::digest(key.as_slice());
        Service { name, key, kid }
    }

    /// Its name, any text.
    pub fn name(&self) -> &Text
        ensures { result.now ≡ self.now.name }
    {
        &self.name
    }

    /// Its key.
    pub fn key(&self) -> &Key60
        ensures { result.now ≡ self.now.key }
    {
        &self.key
    }

    /// The SHA-256 digest of its key.
    pub fn kid(&self) -> &Hash
        ensures { result.now ≡ sha256 self.now.key }
    {
        &self.kid
    }
}

/// An issuer that is trusted: its name, the name of its key, and its HSS public key.
#[derive(Drop)]
pub struct Issuer {
    pub iss: Text,
    pub kid: Bytes,
    pub key: Key60,
}

/// Whom a relying party trusts. Without issuers a statement's own signature isn't asked for.
#[derive(Drop)]
pub struct Trust {
    pub services: Items<Service>,
    pub issuers: Items<Issuer>,
}

/// Why bytes are no trust file.
#[derive(Clone, Copy, PartialEq, Eq, Debug, Drop, Error)]
pub enum TrustStop {
    /// The bytes aren't one item of the strict grammar.
    #[error("{0}")]
    Cbor(Fault),
    /// They are another item.
    #[error("no trust file")]
    BadTrust,
    #[error("out of memory")]
    OutOfMemory,
}
