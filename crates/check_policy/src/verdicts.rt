// The verdict on each statement, after all statements before it.

use crate::verdict_vectors::{CASES, Case, Kind};
use cbor_core::Text;
use policy_eval::{History, verdict};
use policy_rules::{ContentKind, Facts, Policy, decode};
use std::alloc::{AllocError, Global};
use std::process::Abort;
use std::test::Fail;

fn policy_of(alloc: Global, document: &str) -> Result<Policy, Fail> {
    let bytes = hex::decode(alloc, document)?;
    match decode(alloc, bytes.as_slice()) {
        Ok(policy) => Ok(policy),
        Err(_) => Err("no document".into()),
    }
}

fn kind_of(alloc: Global, kind: &Kind) -> Result<ContentKind, AllocError> {
    match kind {
        Kind::Absent => Ok(ContentKind::Absent),
        Kind::Named(text) => Ok(ContentKind::Named(Text::from_str(alloc, text)?)),
        Kind::Number(n) => Ok(ContentKind::Number(*n)),
    }
}

fn facts_of(
    alloc: Global,
    issuer: &str,
    subject: &str,
    kind: &Kind,
    payload_len: u64,
) -> Result<Facts, AllocError> {
    let issuer = Text::from_str(alloc, issuer)?;
    let subject = Text::from_str(alloc, subject)?;
    let content_type = kind_of(alloc, kind)?;
    Ok(Facts {
        issuer,
        subject,
        content_type,
        payload_len,
    })
}

// Adds the facts, where there is room for an entry more.
fn add(history: &mut History, facts: &Facts) -> Result<(), Fail> {
    if history.len() == 4_294_967_295 {
        return Err("full".into());
    }
    history.reserve(facts)?;
    history.push(facts);
    Ok(())
}

fn answers(rt: &impl Abort, alloc: Global, case: &Case) -> Result<(), Fail> {
    let policy = policy_of(alloc, case.document)?;
    let mut history = History::new(alloc);
    for (issuer, subject, kind, payload_len, admit, rule) in case.entries {
        let facts = facts_of(alloc, issuer, subject, kind, *payload_len)?;
        let (effect, id) = verdict(&policy, &history, &facts);
        assert_eq!(rt; effect, *admit, "{}: {issuer} {subject}", case.what);
        assert_eq!(rt; id, *rule, "{}: {issuer} {subject}", case.what);
        add(&mut history, &facts)?;
    }
    Ok(())
}

#[test]
fn statements_have_these_verdicts(rt: HostRuntime) -> Result<(), Fail> {
    let alloc = rt.alloc();
    for case in CASES {
        answers(&rt, alloc, case)?;
    }
    Ok(())
}

#[test]
fn room_is_for_one_more(rt: HostRuntime) -> Result<(), Fail> {
    let alloc = rt.alloc();
    let mut history = History::new(alloc);
    assert_eq!(rt; history.len(), 0);
    assert_eq!(rt; history.spare(), 0);
    let facts = facts_of(alloc, "i", "a", &Kind::Absent, 1)?;
    history.reserve(&facts)?;
    assert_eq!(rt; history.spare(), 1);
    assert_eq!(rt; history.len(), 0);
    history.push(&facts);
    assert_eq!(rt; history.spare(), 0);
    assert_eq!(rt; history.len(), 1);
    Ok(())
}
