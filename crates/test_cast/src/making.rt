// Keys, policies, statements and logs to test with. Each key has one level of height 5 and w = 1.
use cbor_core::{Bytes, Item, Node, Text};
use cose_sign1::{to_be_signed_into, to_be_signed_len};
use hss_keys::{Key60, Level, Levels, LmsType, OtsType, Signer};
use policy_rules::{Cond, CondNode, Holder, Policy, Rule};
use registrar::{Params, Registrar};
use scitt_disk::{Disk, MemDisk};
use sqlite_items::Items;
use std::alloc::Global;
use std::test::Fail;

/// The content type of a policy statement.
pub const POLICY: &str = "application/vnd.scitt-policy+cbor";

/// One level of height 5 and w = 1: 32 indices.
pub fn levels() -> Option<Levels> {
    Levels::of(&[Level {
        lms: LmsType::H5,
        ots: OtsType::W1,
    }])
}

/// The governor `gov` with the kid 01, and the issuer `acme` with the kid 02.
#[derive(Drop)]
pub struct Cast {
    pub governor: Signer,
    pub issuer: Signer,
}

/// The keys of both.
pub fn new_cast(alloc: Global) -> Result<Cast, Fail> {
    let governor = Signer::new(alloc, [0x11; 32], [0x12; 16], levels().ok_or("no levels")?)?;
    let issuer = Signer::new(alloc, [0x21; 32], [0x22; 16], levels().ok_or("no levels")?)?;
    Ok(Cast { governor, issuer })
}

/// A holder with a kid of one byte.
pub fn holder(alloc: Global, iss: &str, kid: u8, key: Key60) -> Result<Holder, Fail> {
    let iss = Text::from_str(alloc, iss)?;
    let kid = Bytes::from_slice(alloc, &[kid])?;
    Ok(Holder { iss, kid, key })
}

/// The bytes of a policy document of `gov`, with `acme` where it has a rule: that of number 100, which admits by this condition.
pub fn document(
    alloc: Global,
    cast: &Cast,
    version: u32,
    cond: Option<Cond>,
) -> Result<Bytes, Fail> {
    let mut governors = Items::new(alloc);
    governors.push(holder(alloc, "gov", 1, cast.governor.public())?)?;
    let mut issuers = Items::new(alloc);
    let mut rules = Items::new(alloc);
    if let Some(cond) = cond {
        issuers.push(holder(alloc, "acme", 2, cast.issuer.public())?)?;
        rules.push(Rule {
            id: 100,
            admit: true,
            cond,
        })?;
    }
    let policy = Policy {
        version,
        governors,
        issuers,
        rules,
    };
    match policy_rules::encode(alloc, &policy) {
        Ok(bytes) => Ok(bytes),
        Err(_) => Err("no document".into()),
    }
}

/// What a statement says beside its payload. Its algorithm is spelled, or empty where there is none.
#[derive(Drop)]
pub struct Said {
    pub alg: &'static [u8],
    pub kind: &'static str,
    pub kid: u8,
    pub iss: &'static str,
    pub sub: &'static str,
}

fn put_text(out: &mut Vec<u8>, text: &str) -> Result<(), Fail> {
    let len = text.len();
    if len < 24 {
        out.push(0x60 + len as u8)?;
    } else if len < 256 {
        out.extend_from_slice(&[0x78, len as u8])?;
    } else {
        return Err("a long text".into());
    }
    out.extend_from_slice(text.as_bytes())?;
    Ok(())
}

// `{1: alg, 3: kind, 4: kid, 15: {1: iss, 2: sub}}`.
fn protected(alloc: Global, said: &Said) -> Result<Vec<u8>, Fail> {
    let mut out = Vec::new(alloc);
    if said.alg.is_empty() {
        out.push(0xa3)?;
    } else {
        out.extend_from_slice(&[0xa4, 1])?;
        out.extend_from_slice(said.alg)?;
    }
    out.push(3)?;
    put_text(&mut out, said.kind)?;
    out.extend_from_slice(&[4, 0x41, said.kid, 15, 0xa2, 1])?;
    put_text(&mut out, said.iss)?;
    out.push(2)?;
    put_text(&mut out, said.sub)?;
    Ok(out)
}

fn signature(
    alloc: Global,
    signer: &mut Signer,
    index: u64,
    protected: &[u8],
    payload: &[u8],
) -> Result<Vec<u8>, Fail> {
    if index >= signer.capacity() || protected.len() > 4096 || payload.len() > 1_000_000 {
        return Err("no such signature".into());
    }
    let mut text = vec![in alloc; 0; to_be_signed_len(protected, payload)]?;
    to_be_signed_into(protected, payload, &mut text);
    signer.prepare(alloc, index)?;
    let mut out = vec![in alloc; 0; signer.sig_len()]?;
    signer.sign_into(index, &text, &mut out);
    Ok(out)
}

/// The bytes of a statement that is signed at this index.
pub fn signed(
    alloc: Global,
    signer: &mut Signer,
    index: u64,
    said: &Said,
    payload: &[u8],
) -> Result<Bytes, Fail> {
    let protected = protected(alloc, said)?;
    signed_over(alloc, signer, index, &protected, payload)
}

/// The bytes of a statement with these protected bytes, that is signed at this index.
pub fn signed_over(
    alloc: Global,
    signer: &mut Signer,
    index: u64,
    protected: &[u8],
    payload: &[u8],
) -> Result<Bytes, Fail> {
    let signature = signature(alloc, signer, index, protected, payload)?;
    let unprotected = Item {
        node: Node::Map(Items::new(alloc)),
    };
    match cose_sign1::encode(alloc, protected, &unprotected, Some(payload), &signature) {
        Ok(bytes) => Ok(bytes),
        Err(_) => Err("no statement".into()),
    }
}

/// The governor's policy statement with this payload.
pub fn ruled(alloc: Global, cast: &mut Cast, index: u64, payload: &[u8]) -> Result<Bytes, Fail> {
    let said = Said {
        alg: &[0x38, 0x2d],
        kind: POLICY,
        kid: 1,
        iss: "gov",
        sub: "policy",
    };
    signed(alloc, &mut cast.governor, index, &said, payload)
}

/// The issuer's statement on `pkg-0`, with this algorithm and payload.
pub fn issued(
    alloc: Global,
    cast: &mut Cast,
    index: u64,
    alg: &'static [u8],
    payload: &[u8],
) -> Result<Bytes, Fail> {
    let said = Said {
        alg,
        kind: "text/plain",
        kid: 2,
        iss: "acme",
        sub: "pkg-0",
    };
    signed(alloc, &mut cast.issuer, index, &said, payload)
}

/// What the log `log` is begun with.
pub fn params(alloc: Global, cast: &Cast, max_entries: u32, block: u32) -> Result<Params, Fail> {
    Ok(Params {
        name: Text::from_str(alloc, "log")?,
        governor: holder(alloc, "gov", 1, cast.governor.public())?,
        levels: levels().ok_or("no levels")?,
        max_entries,
        block,
    })
}

/// An empty disk on which these calls fail.
pub fn fresh(alloc: Global, fails: &[u32]) -> Result<MemDisk, Fail> {
    Ok(MemDisk::new(Vec::new(alloc), Vec::from_slice(alloc, fails)?))
}

/// A log on this disk.
pub fn begun<D: Disk>(
    alloc: Global,
    disk: D,
    cast: &Cast,
    max_entries: u32,
    block: u32,
) -> Result<Registrar<D>, Fail>
where
    D: Drop,
{
    let params = params(alloc, cast, max_entries, block)?;
    match Registrar::create(alloc, disk, [7; 32], [9; 16], params) {
        Ok(log) => Ok(log),
        Err(_) => Err("no log".into()),
    }
}

/// The governor's policy statement of version 1, which admits all of `acme`.
pub fn genesis(alloc: Global, cast: &mut Cast) -> Result<Bytes, Fail> {
    let all = Cond {
        node: CondNode::All(Items::new(alloc)),
    };
    let payload = document(alloc, cast, 1, Some(all))?;
    ruled(alloc, cast, 0, payload.as_slice())
}
