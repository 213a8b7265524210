//! The first receipt of the table, one byte of which is one more.
use super::statements::{trust_of, worked};
use super::vectors::{CHANGED, RECEIPTS, STATEMENTS};
use relying_party::{ReceiptResult, Trust, verify_transparent};
use std::alloc::{AllocError, Global};
use std::process::Abort;
use std::test::Fail;

/// What stands between the statement's protected string and its only receipt, of 2,768 bytes.
const MAP: &str = "a119018a81590ad0";

/// The first rule that fails where the byte at a place of the receipt is one more.
fn rule_at(place: usize) -> Option<u8> {
    for (from, end, rule) in CHANGED {
        if *from <= place && place < *end {
            return Some(*rule);
        }
    }
    None
}

/// The statement with the receipt.
fn attached(alloc: Global) -> Result<Vec<u8>, Fail> {
    let (receipt, _) = worked(alloc, RECEIPTS[0])?;
    let [front, behind] = STATEMENTS[0];
    let text = format!(in alloc; "{front}{MAP}{receipt}{behind}")?;
    Ok(hex::decode(alloc, text.as_str())?)
}

/// The rule by which a statement's only receipt is refused, if it is.
fn refusal(alloc: Global, trust: &Trust, bytes: &[u8]) -> Result<Option<u8>, AllocError> {
    let verdict = verify_transparent(alloc, trust, bytes)?;
    match verdict.receipts.as_slice() {
        [ReceiptResult::Refused(rule)] => Ok(Some(*rule)),
        _ => Ok(None),
    }
}

/// The bytes, of which the one at a place is so much more.
fn add_at(bytes: &mut [u8], place: usize, more: u8) {
    if let Some(byte) = bytes.get_mut(place) {
        *byte = byte.wrapping_add(more);
    }
}

/// Each byte of the receipt between these places is changed and set back.
fn compare(rt: &impl Abort, alloc: Global, from: usize, end: usize) -> Result<(), Fail> {
    let trust = trust_of(alloc, "80")?;
    let mut bytes = attached(alloc)?;
    let [front, _] = STATEMENTS[0];
    let start = (front.len() + MAP.len()) / 2;
    for place in from..end {
        add_at(&mut bytes, start.saturating_add(place), 1);
        let rule = refusal(alloc, &trust, &bytes)?;
        assert!(rt; rule.is_some(), "the byte {place}");
        assert_eq!(rt; rule, rule_at(place), "the byte {place}");
        add_at(&mut bytes, start.saturating_add(place), 255);
    }
    let verdict = verify_transparent(alloc, &trust, &bytes)?;
    assert!(rt; verdict.accepted);
    Ok(())
}

// The table has a rule for each place of the receipt and for none behind it.
#[test]
fn the_table_covers_the_receipt(rt: HostRuntime) {
    for place in 0..2768 {
        assert!(rt; rule_at(place).is_some());
    }
    assert_eq!(rt; rule_at(2768), None);
}

// The head, the protected string, the unprotected map and the first signature's front.
#[test]
fn changes_before_600_are_refused(rt: HostRuntime) -> Result<(), Fail> {
    compare(&rt, rt.alloc(), 0, 600)
}

#[test]
fn changes_before_1200_are_refused(rt: HostRuntime) -> Result<(), Fail> {
    compare(&rt, rt.alloc(), 600, 1200)
}

#[test]
fn changes_before_1800_are_refused(rt: HostRuntime) -> Result<(), Fail> {
    compare(&rt, rt.alloc(), 1200, 1800)
}

#[test]
fn changes_before_2300_are_refused(rt: HostRuntime) -> Result<(), Fail> {
    compare(&rt, rt.alloc(), 1800, 2300)
}

#[test]
fn changes_before_2768_are_refused(rt: HostRuntime) -> Result<(), Fail> {
    compare(&rt, rt.alloc(), 2300, 2768)
}
