// What `decode` answers, and that `encode` gives the same bytes again.

use crate::document_vectors::DOCUMENTS;
use cbor_core::Bytes;
use policy_rules::{Holder, Policy, PolicyStop, decode, encode};
use std::alloc::{AllocError, Global};
use std::test::Fail;

fn counts(alloc: Global, policy: &Policy) -> Result<String, AllocError> {
    let version = policy.version;
    let governors = policy.governors.as_slice().len();
    let issuers = policy.issuers.as_slice().len();
    let rules = policy.rules.as_slice().len();
    format!(in alloc; "ok {version} {governors} {issuers} {rules}")
}

fn said(alloc: Global, answer: &Result<Policy, PolicyStop>) -> Result<String, AllocError> {
    match answer {
        Ok(policy) => counts(alloc, policy),
        Err(PolicyStop::Cbor(fault)) => {
            let at = fault.at;
            format!(in alloc; "cbor {at}")
        }
        Err(PolicyStop::BadPolicy(place)) => {
            let place = *place;
            format!(in alloc; "place {place}")
        }
        Err(PolicyStop::OutOfMemory) => String::from_str(alloc, "out of memory"),
    }
}

fn again(alloc: Global, policy: &Policy) -> Result<Bytes, Fail> {
    match encode(alloc, policy) {
        Ok(bytes) => Ok(bytes),
        Err(_) => Err("no bytes".into()),
    }
}

#[test]
fn documents_have_these_answers(rt: HostRuntime) -> Result<(), Fail> {
    let alloc = rt.alloc();
    for line in DOCUMENTS {
        let (input, wanted) = line.split_once('|').ok_or("no answer")?;
        let bytes = hex::decode(alloc, input)?;
        let answer = decode(alloc, bytes.as_slice());
        let text = said(alloc, &answer)?;
        assert_eq!(rt; text.as_str(), wanted, "{input}");
        if let Ok(policy) = &answer {
            let written = again(alloc, policy)?;
            assert_eq!(rt; written.as_slice(), bytes.as_slice());
        }
    }
    Ok(())
}

// The bootstrap policy is spelled as a document of version 0, which no document has.
const BOOTSTRAP: &str =
    "850100818363676f764101583c000102030405060708090a0b0c0d0e0f101112131415161718191a1b1c1d1e1f202122232425262728292a2b2c2d2e2f303132333435363738393a3b8080";

fn first_governor(policy: &Policy) -> Result<&Holder, Fail> {
    let governor = policy.governors.as_slice().first().ok_or("no governor")?;
    Ok(governor)
}

#[test]
fn the_bootstrap_policy_has_these_bytes(rt: HostRuntime) -> Result<(), Fail> {
    let alloc = rt.alloc();
    let bytes = hex::decode(alloc, BOOTSTRAP)?;
    assert_eq!(rt;
        said(alloc, &decode(alloc, bytes.as_slice()))?.as_str(),
        "place 2"
    );
    let mut document = hex::decode(alloc, BOOTSTRAP)?;
    assert!(rt; document.len() == 75);
    document[2] = 1;
    let policy = match decode(alloc, document.as_slice()) {
        Ok(policy) => policy,
        Err(_) => return Err("no document".into()),
    };
    let bootstrap = Policy::bootstrap(alloc, first_governor(&policy)?)?;
    assert_eq!(rt; counts(alloc, &bootstrap)?.as_str(), "ok 0 1 0 0");
    let written = again(alloc, &bootstrap)?;
    assert_eq!(rt; written.as_slice(), bytes.as_slice());
    Ok(())
}
