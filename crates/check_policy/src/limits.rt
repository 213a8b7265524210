// The limits of a document, each at its number and one past it.

use policy_rules::{PolicyStop, decode};
use std::alloc::{AllocError, Global};
use std::test::Fail;

// `83`, the text `i`, a kid of two bytes that tells the holder from the others, and a key of 60 zero bytes.
fn add_holder(bytes: &mut Vec<u8>, number: u16) -> Result<(), AllocError> {
    bytes.extend_from_slice(&[0x83, 0x61, 0x69, 0x42])?;
    bytes.extend_from_slice(&number.to_be_bytes())?;
    bytes.extend_from_slice(&[0x58, 0x3c])?;
    bytes.extend_from_slice(&[0; 60])
}

fn add_head(bytes: &mut Vec<u8>, count: u16) -> Result<(), AllocError> {
    if count < 24 {
        bytes.push(0x80 + count as u8)?;
    } else if count < 256 {
        bytes.extend_from_slice(&[0x98, count as u8])?;
    } else {
        bytes.push(0x99)?;
        bytes.extend_from_slice(&count.to_be_bytes())?;
    }
    Ok(())
}

fn add_holders(bytes: &mut Vec<u8>, count: u16) -> Result<(), AllocError> {
    add_head(bytes, count)?;
    for number in 0..count {
        add_holder(bytes, number)?;
    }
    Ok(())
}

// Rules with the ids from 256 on, whose conditions are All of nothing.
fn add_rules(bytes: &mut Vec<u8>, count: u16) -> Result<(), AllocError> {
    add_head(bytes, count)?;
    for number in 0..count {
        bytes.extend_from_slice(&[0x83, 0x19])?;
        bytes.extend_from_slice(&number.saturating_add(256).to_be_bytes())?;
        bytes.extend_from_slice(&[0x01, 0x81, 0x00])?;
    }
    Ok(())
}

// Two rules: All of so many conditions FirstOfSubject, and Not of so many of these, one inside the other.
fn add_conditions(bytes: &mut Vec<u8>, wide: u16, deep: u16) -> Result<(), AllocError> {
    bytes.extend_from_slice(&[0x82, 0x83, 0x18, 0x64, 0x01])?;
    add_head(bytes, wide.saturating_add(1))?;
    bytes.push(0x00)?;
    for _ in 0..wide {
        bytes.extend_from_slice(&[0x81, 0x07])?;
    }
    bytes.extend_from_slice(&[0x83, 0x18, 0x65, 0x01])?;
    for _ in 0..deep {
        bytes.extend_from_slice(&[0x82, 0x02])?;
    }
    bytes.extend_from_slice(&[0x81, 0x07])
}

enum Rules {
    Each(u16),
    Conditions(u16, u16),
}

fn document(
    alloc: Global,
    governors: u16,
    issuers: u16,
    rules: &Rules,
) -> Result<Vec<u8>, AllocError> {
    let mut bytes = Vec::new(alloc);
    bytes.extend_from_slice(&[0x85, 0x01, 0x01])?;
    add_holders(&mut bytes, governors)?;
    add_holders(&mut bytes, issuers)?;
    match rules {
        Rules::Each(count) => add_rules(&mut bytes, *count)?,
        Rules::Conditions(wide, deep) => add_conditions(&mut bytes, *wide, *deep)?,
    }
    Ok(bytes)
}

// The place that fails, 0 for a document and 9 for anything else.
fn place_of(alloc: Global, bytes: &[u8]) -> u8 {
    match decode(alloc, bytes) {
        Ok(_) => 0,
        Err(PolicyStop::BadPolicy(place)) => place,
        Err(_) => 9,
    }
}

// Governors, issuers and rules, and the place that fails: the limits of `docs/profile/policy.md`.
const LIMITS: &[(u16, u16, Rules, u8)] = &[
    (0, 0, Rules::Each(0), 3),
    (1, 0, Rules::Each(0), 0),
    (16, 0, Rules::Each(0), 0),
    (17, 0, Rules::Each(0), 3),
    (1, 256, Rules::Each(0), 0),
    (1, 257, Rules::Each(0), 4),
    (1, 0, Rules::Each(256), 0),
    (1, 0, Rules::Each(257), 5),
    (16, 256, Rules::Each(256), 0),
    (17, 257, Rules::Each(257), 3),
    (16, 257, Rules::Each(257), 4),
    // 4,096 conditions: All, 4,094 of its parts, and one of the second rule.
    (1, 0, Rules::Conditions(4094, 0), 0),
    (1, 0, Rules::Conditions(4095, 0), 5),
    (1, 0, Rules::Conditions(4089, 5), 0),
    (1, 0, Rules::Conditions(4090, 5), 5),
    (1, 0, Rules::Conditions(1, 7), 0),
    (1, 0, Rules::Conditions(1, 8), 5),
    // An array of 4,097 items is no item.
    (1, 0, Rules::Conditions(4096, 0), 9),
];

#[test]
fn limits_come_at_their_numbers(rt: HostRuntime) -> Result<(), Fail> {
    let alloc = rt.alloc();
    for (governors, issuers, rules, wanted) in LIMITS {
        let bytes = document(alloc, *governors, *issuers, rules)?;
        let place = place_of(alloc, bytes.as_slice());
        assert_eq!(rt; place, *wanted, "{governors} {issuers}");
    }
    Ok(())
}

// Rules with more than a million conditions, 4 MiB: each of 255 rules is All of 4,095 conditions.
#[test]
fn many_conditions_are_judged_at_once(rt: HostRuntime) -> Result<(), Fail> {
    let alloc = rt.alloc();
    let mut bytes = Vec::new(alloc);
    bytes.extend_from_slice(&[0x85, 0x01, 0x01])?;
    add_holders(&mut bytes, 1)?;
    bytes.push(0x80)?;
    add_head(&mut bytes, 255)?;
    for number in 0..255 {
        bytes.extend_from_slice(&[0x83, 0x19, 0x01, number, 0x01, 0x99, 0x10, 0x00, 0x00])?;
        for _ in 0..4095 {
            bytes.extend_from_slice(&[0x81, 0x07])?;
        }
    }
    assert_eq!(rt; place_of(alloc, bytes.as_slice()), 5);
    Ok(())
}
