// Keys that are derived from names.

ghost use Rattle.std.specs.Prelude.{◌≡◌, ◌≤◌, ◌++◌, IfOk, OnOk, codes, length};
ghost use Rattle.scitt_draft.specs.Named as named;

use crate::signing::kid_of;
use cbor_core::{Bytes, Text};
use hss_keys::{Key60, Levels, Signer};
use lms_ots::OtsType;
use lms_tree::{Level, LmsType};
use policy_rules::Holder;
use sha2::{Digest, Sha256};
use std::alloc::{AllocError, Global};

const SMALL: Level = Level {
    lms: LmsType::H5,
    ots: OtsType::W8,
};

const LARGE: Level = Level {
    lms: LmsType::H10,
    ots: OtsType::W4,
};

/// One level of height 5 with w = 8: 32 indices.
pub fn governor_levels() -> Levels
    ensures { result ≡ named.governor_levels }
{
    let Some(levels) = Levels::of(&[SMALL]) else {
        unreachable!();
    };
    levels
}

/// One level of height 10 with w = 4: 1,024 indices.
pub fn issuer_levels() -> Levels
    ensures { result ≡ named.issuer_levels }
{
    let Some(levels) = Levels::of(&[LARGE]) else {
        unreachable!();
    };
    levels
}

/// A level of height 5 with w = 8 above one of height 10 with w = 4: 32,768 indices.
pub fn service_levels() -> Levels
    ensures { result ≡ named.service_levels }
{
    let Some(levels) = Levels::of(&[SMALL, LARGE]) else {
        unreachable!();
    };
    levels
}

fn digest_of(name: &str, what: &str) -> [u8; 32]
    ensures { result ≡ named.digest_of name.now what.now }
{
    let mut hasher = Sha256::new();
    hasher.update(b"scitt ".as_slice());
    hasher.update(name.as_bytes());
    hasher.update(what.as_bytes());
    hasher.finalize()
}

/// The seed and the identifier that a name stands for: the digest of `scitt NAME seed`, and the first 16 bytes of that of
/// `scitt NAME id`.
#[derive(Drop)]
pub struct Named {
    pub seed: [u8; 32],
    pub id: [u8; 16],
}

impl Named {
    /// Those of this name.
    pub fn of(name: &str) -> Named
        ensures seed { result.seed ≡ named.seed_of name.now }
        ensures id { result.id ≡ named.id_of name.now }
    {
        let digest = digest_of(name, " id");
        let mut id = [0; 16];
        id.copy_from_slice(&digest[..16]);
        Named {
            seed: digest_of(name, " seed"),
            id,
        }
    }
}

/// The key of a name over these levels. The only error is the want of memory.
pub(crate) fn signer_of(alloc: Global, name: &str, levels: Levels) -> Result<Signer, AllocError>
    ensures { IfOk result (λ signer. signer ≡ record { levels = levels; id = named.id_of name.now; seed = named.seed_of name.now; prepared = 0 }) }
{
    let named = Named::of(name);
    Signer::new(alloc, named.seed, named.id, levels)
}

// A key has 60 bytes.
fn whole(key: &Key60)
    ensures { length key.now ≡ 60 }
{
    let _bytes = key.as_slice();
}

/// Who has this key, under this name.
pub(crate) fn holder_of(alloc: Global, name: &str, signer: &Signer) -> Result<Holder, AllocError>
    requires id { signer.now.id ≡ named.id_of name.now }
    requires seed { signer.now.seed ≡ named.seed_of name.now }
    requires some { 1 ≤ length name.now }
    requires few { length name.now ≤ 1024 }
    ensures holder { IfOk result (λ holder. holder ≡ named.holder_of signer.now.levels name.now) }
    ensures short { OnOk result (named.IsShort (named.holder_of signer.now.levels name.now)) }
{
    let key = signer.public();
    whole(&key);
    let iss = Text::from_str(alloc, name)?;
    let kid = Bytes::from_slice(alloc, kid_of(&key).as_slice())?;
    Ok(Holder { iss, kid, key })
}
