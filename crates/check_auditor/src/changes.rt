// A journal of two entries in which one bit is changed, at each byte in turn.

use crate::audit_vectors::{STILL_CLEAN, TWO, TWO_SAID};
use crate::journals::{journal, said};
use auditor::{Report, audit_bytes};
use std::alloc::Global;
use std::test::Fail;

// The first half of the places ends here.
const HALF: usize = 5_000;

// What an audit says where it is clean.
fn said_of_clean(alloc: Global, bytes: &[u8]) -> Result<String, Fail> {
    let report = audit_bytes(alloc, bytes)?;
    match report {
        Report::Clean { .. } => said(alloc, &report),
        _ => Ok(String::new(alloc)),
    }
}

// What it has to say where it is clean with a change at this place, and nothing elsewhere.
fn wanted_at(place: usize) -> &'static str {
    for (known, said) in STILL_CLEAN.iter() {
        if *known == place {
            return *said;
        }
    }
    ""
}

// The first of these places where it says something else.
fn first_other(
    alloc: Global,
    bytes: &mut [u8],
    from: usize,
    to: usize,
) -> Result<Option<usize>, Fail> {
    for place in from..to {
        if place < bytes.len() {
            let bit = 1 << (place % 8);
            bytes[place] ^= bit;
            let said = said_of_clean(alloc, bytes)?;
            bytes[place] ^= bit;
            if said.as_str() != wanted_at(place) {
                return Ok(Some(place));
            }
        }
    }
    Ok(None)
}

#[test]
fn the_journal_is_clean(rt: HostRuntime) -> Result<(), Fail> {
    let alloc = rt.alloc();
    let bytes = journal(alloc, &TWO)?;
    let report = audit_bytes(alloc, &bytes)?;
    assert_eq!(rt; said(alloc, &report)?.as_str(), TWO_SAID);
    Ok(())
}

#[test]
fn a_bit_changed_in_the_first_half_gives_no_other_entries(rt: HostRuntime) -> Result<(), Fail> {
    let mut bytes = journal(rt.alloc(), &TWO)?;
    let other = first_other(rt.alloc(), &mut bytes, 0, HALF)?;
    assert_eq!(rt; other, None);
    Ok(())
}

#[test]
fn a_bit_changed_in_the_second_half_gives_no_other_entries(rt: HostRuntime) -> Result<(), Fail> {
    let mut bytes = journal(rt.alloc(), &TWO)?;
    let length = bytes.len();
    let other = first_other(rt.alloc(), &mut bytes, HALF, length)?;
    assert_eq!(rt; other, None);
    Ok(())
}
