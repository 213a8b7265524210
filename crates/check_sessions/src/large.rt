// A bill of materials of 180,000 bytes.
use crate::drafts::Made;
use crate::requests::Request;
use crate::scenes::{Scene, plays_with};
use crate::talks::{QUIET, Talk};
use cbor_core::{Bytes, Text};
use hss_keys::{Key60, Level, Levels, LmsType, OtsType, Signer};
use policy_rules::{Cond, CondNode, Holder, Policy, Rule};
use sha2::{Digest, Sha256};
use sqlite_items::Items;
use std::alloc::Global;
use std::test::Fail;
use test_cast::{Cast, holder, new_cast, ruled, signed_over};

const MOMENT: u64 = 1_700_000_000;

// The levels of the issuer's key and of the log's: two of height 5 and w = 8.
const LEVELS: &[Level] = &[
    Level {
        lms: LmsType::H5,
        ots: OtsType::W8,
    },
    Level {
        lms: LmsType::H5,
        ots: OtsType::W8,
    },
];

// The issuer, whose kid is the SHA-256 of its key.
fn issuer(alloc: Global, key: Key60) -> Result<Holder, Fail> {
    let iss = Text::from_str(alloc, "https://acme.example")?;
    let kid = Bytes::from_slice(alloc, Sha256::digest(key.as_slice()).as_slice())?;
    Ok(Holder { iss, kid, key })
}

// `{1: -46, 3: "application/spdx+json", 4: kid, 15: {1: iss, 2: sub}}`.
fn protected(alloc: Global, key: Key60) -> Result<Vec<u8>, Fail> {
    let mut out = Vec::from_slice(
        alloc,
        b"\xa4\x01\x38\x2d\x03\x75application/spdx+json\x04\x58\x20",
    )?;
    out.extend_from_slice(Sha256::digest(key.as_slice()).as_slice())?;
    out.extend_from_slice(
        b"\x0f\xa2\x01\x74https://acme.example\x02\x78\x19pkg:generic/acme-tool@2.1",
    )?;
    Ok(out)
}

// The bill of materials, and the key that signed it.
fn bill(alloc: Global) -> Result<(Bytes, Key60), Fail> {
    let levels = Levels::of(LEVELS).ok_or("no levels")?;
    let mut signer = Signer::new(alloc, [0x31; 32], [0x31; 16], levels)?;
    let key = signer.public();
    let protected = protected(alloc, key)?;
    let payload = vec![in alloc; 0x20; 180_000]?;
    let bill = signed_over(alloc, &mut signer, 0, &protected, &payload)?;
    Ok((bill, key))
}

// A policy that admits all of this issuer.
fn policy(alloc: Global, governor: Holder, issuer: Holder) -> Result<Policy, Fail> {
    let mut governors = Items::new(alloc);
    governors.push(governor)?;
    let mut issuers = Items::new(alloc);
    issuers.push(issuer)?;
    let mut rules = Items::new(alloc);
    rules.push(Rule {
        id: 100,
        admit: true,
        cond: Cond {
            node: CondNode::All(Items::new(alloc)),
        },
    })?;
    Ok(Policy {
        version: 1,
        governors,
        issuers,
        rules,
    })
}

fn document(alloc: Global, governor: Key60, key: Key60) -> Result<Bytes, Fail> {
    let governor = holder(alloc, "gov", 1, governor)?;
    let policy = policy(alloc, governor, issuer(alloc, key)?)?;
    match policy_rules::encode(alloc, &policy) {
        Ok(document) => Ok(document),
        Err(_) => Err("no document".into()),
    }
}

// The governor's statement of the policy, and the bill.
fn made_by(alloc: Global, cast: &mut Cast, bill: Bytes, key: Key60) -> Result<Made, Fail> {
    let governor = cast.governor.public();
    let document = document(alloc, governor, key)?;
    let mut statements = Vec::new(alloc);
    statements.push(ruled(alloc, cast, 0, document.as_slice())?)?;
    statements.push(bill)?;
    Ok(Made {
        statements,
        governor,
    })
}

fn make(alloc: Global) -> Result<Made, Fail> {
    let (bill, key) = bill(alloc)?;
    let mut cast = new_cast(alloc)?;
    made_by(alloc, &mut cast, bill, key)
}

// The bill has 182,771 bytes and its receipt 2,768. The heads of their answers, with a length, have 94 and 92, and without one 70.
static LARGE: Scene = Scene {
    drafts: &[],
    levels: LEVELS,
    max_entries: 100,
    disk_fails: None,
    talks: &[
        Talk {
            sent: &[
                Request::Post(0),
                Request::Post(1),
                Request::Get("/entries/1/statement"),
            ],
            moments: &[MOMENT, MOMENT + 1],
            ..QUIET
        },
        Talk {
            sent: &[Request::Get("/entries/1")],
            ..QUIET
        },
        Talk {
            sent: &[Request::Raw("HEAD /entries/1/statement HTTP/1.1\r\n\r\n")],
            ..QUIET
        },
        Talk {
            sent: &[Request::Get("/entries/1/statement")],
            ..QUIET
        },
    ],
    later: &[],
    told: "ended 0 0 188603 c33fa57182d07ff4abf71284cea0eb0a61481f836bfc33002546adddc2ac26a8
ended 0 0 2860 5a3cfe7762020149b2c8dd8ed3bed2410ecba92f332371e0a8e236a51ab6e98a
ended 0 0 70 2727a16bdbe0d718701cd78f2a8c76ac042ba3ca89d759e9ab8ae838aaf9b0d2
ended 0 0 182865 3817d72d5f099fa47b7abf55a95ac823da953af5c35a37a3a5d24c016d5c7078
log 2 0
",
    file: None,
};

#[test]
fn a_large_statement_is_registered_and_read(rt: HostRuntime) -> Result<(), Fail> {
    let alloc = rt.alloc();
    let made = make(alloc)?;
    plays_with(&rt, alloc, &made, &LARGE)
}
