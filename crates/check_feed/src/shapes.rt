use super::said::{Verdict, agree, decoded, fed_by_bytes, fed_in_two};
use cbor_core::{Grammar, Why};
use cbor_feed::{Fed, Feed};
use std::alloc::{AllocError, Global};
use std::test::Fail;

const MIB: usize = 1 << 20;

/// An array of arrays of 4,096 numbers, of a MiB.
fn numbers(alloc: Global) -> Result<Vec<u8>, AllocError> {
    let mut bytes = Vec::from_slice(alloc, &[0x98, 85])?;
    for _ in 0..85 {
        bytes.extend_from_slice(&[0x99, 0x10, 0x00])?;
        for i in 0..4096u16 {
            bytes.push(0x19)?;
            bytes.extend_from_slice(&i.wrapping_add(0x1000).to_be_bytes())?;
        }
    }
    Ok(bytes)
}

/// A byte string of a MiB.
fn string(alloc: Global) -> Result<Vec<u8>, AllocError> {
    let mut bytes = Vec::from_slice(alloc, &[0x5a, 0x00, 0x10, 0x00, 0x00])?;
    let content = vec![in alloc; 7; MIB]?;
    bytes.extend_from_slice(content.as_slice())?;
    Ok(bytes)
}

/// A map of 4,096 keys of 256 bytes with one long common beginning, in rising or in falling order.
fn keys(alloc: Global, falling: bool) -> Result<Vec<u8>, AllocError> {
    let beginning = vec![in alloc; 0x61; 254]?;
    let mut bytes = Vec::from_slice(alloc, &[0xb9, 0x10, 0x00])?;
    for i in 0..4096u16 {
        let place = if falling { 4095 - i } else { i };
        bytes.extend_from_slice(&[0x79, 0x01, 0x00])?;
        bytes.extend_from_slice(beginning.as_slice())?;
        let last = [0x30 + (place / 64) as u8, 0x30 + (place % 64) as u8];
        bytes.extend_from_slice(&last)?;
        bytes.push(0)?;
    }
    Ok(bytes)
}

/// An array of 8 maps of 4,096 keys in mixed order. A key is an array of 64 numbers, of which the last alone differs from key to key.
fn maps(alloc: Global) -> Result<Vec<u8>, AllocError> {
    let mut bytes = Vec::from_slice(alloc, &[0x88])?;
    for _ in 0..8 {
        bytes.extend_from_slice(&[0xb9, 0x10, 0x00])?;
        for i in 0..4096u16 {
            bytes.extend_from_slice(&[0x98, 0x40])?;
            bytes.extend_from_slice(&[0; 63])?;
            bytes.push(0x19)?;
            let last = i.wrapping_mul(2731) % 4096;
            bytes.extend_from_slice(&last.to_be_bytes())?;
            bytes.push(0)?;
        }
    }
    Ok(bytes)
}

fn is_read(alloc: Global, grammar: Grammar, bytes: &[u8]) -> bool {
    match fed_by_bytes(alloc, grammar, bytes) {
        Verdict::Item(_, len) => len == bytes.len(),
        Verdict::Fault(_) | Verdict::OutOfMemory => false,
    }
}

#[test]
fn a_mib_of_numbers_is_read_a_byte_at_a_time(rt: HostRuntime) -> Result<(), Fail> {
    let alloc = rt.alloc();
    let bytes = numbers(alloc)?;
    assert!(rt; bytes.len() > 1_000_000);
    assert!(rt; is_read(alloc, Grammar::Strict, bytes.as_slice()));
    Ok(())
}

#[test]
fn a_mib_of_a_string_is_read_a_byte_at_a_time(rt: HostRuntime) -> Result<(), Fail> {
    let alloc = rt.alloc();
    let bytes = string(alloc)?;
    assert!(rt; is_read(alloc, Grammar::Wide, bytes.as_slice()));
    Ok(())
}

#[test]
fn a_mib_of_keys_is_read_a_byte_at_a_time(rt: HostRuntime) -> Result<(), Fail> {
    let alloc = rt.alloc();
    let rising = keys(alloc, false)?;
    assert!(rt; is_read(alloc, Grammar::Strict, rising.as_slice()));
    let falling = keys(alloc, true)?;
    assert!(rt; is_read(alloc, Grammar::Wide, falling.as_slice()));
    Ok(())
}

#[test]
fn wide_maps_in_mixed_order_are_read_in_pieces(rt: HostRuntime) -> Result<(), Fail> {
    let alloc = rt.alloc();
    let mut bytes = maps(alloc)?;
    let len = bytes.len();
    assert!(rt; len > 2_000_000);
    let whole = decoded(alloc, Grammar::Wide, bytes.as_slice());
    assert!(rt; is_read(alloc, Grammar::Wide, bytes.as_slice()));
    assert!(rt;
        agree(
            &fed_in_two(alloc, Grammar::Wide, bytes.as_slice(), 1_000_000),
            &whole
        )
    );
    // The last key is the first one once more, and its value isn't there yet.
    bytes[len - 3] = 0;
    bytes[len - 2] = 0;
    assert_eq!(rt;
        why(alloc, Grammar::Wide, &bytes[..len - 1]),
        Some(Why::DupKey)
    );
    Ok(())
}

/// A container that holds a container, so many of them, and an empty array in the last.
fn nested(alloc: Global, opening: &[u8], count: usize) -> Result<Vec<u8>, AllocError> {
    let mut bytes = Vec::new(alloc);
    for _ in 0..count {
        bytes.extend_from_slice(opening)?;
    }
    bytes.push(0x80)?;
    Ok(bytes)
}

#[test]
fn sixteen_containers_stand_inside_each_other(rt: HostRuntime) -> Result<(), Fail> {
    let alloc = rt.alloc();
    for opening in [
        [0x81].as_slice(),
        [0xc1].as_slice(),
        [0xa1, 0x00].as_slice(),
    ] {
        for count in 14..18 {
            let bytes = nested(alloc, opening, count)?;
            for grammar in [Grammar::Strict, Grammar::Wide] {
                let whole = decoded(alloc, grammar, bytes.as_slice());
                let fed = fed_by_bytes(alloc, grammar, bytes.as_slice());
                assert!(rt; agree(&fed, &whole), "{count}");
            }
        }
    }
    Ok(())
}

/// Why a feed stops at one piece.
fn why(alloc: Global, grammar: Grammar, bytes: &[u8]) -> Option<Why> {
    let mut feed = Feed::new(alloc, grammar);
    match feed.push(bytes) {
        Fed::Fault(fault) => Some(fault.why),
        Fed::NeedMore | Fed::Done(_) | Fed::OutOfMemory => None,
    }
}

#[test]
fn a_fault_of_a_head_comes_with_the_head(rt: HostRuntime) {
    let alloc = rt.alloc();
    let strict = Grammar::Strict;
    let wide = Grammar::Wide;
    assert_eq!(rt; why(alloc, strict, &[0x98, 0x01]), Some(Why::NotShortest));
    assert_eq!(rt; why(alloc, wide, &[0x98, 0x01]), None);
    assert_eq!(rt; why(alloc, wide, &[0x99, 0x10, 0x01]), Some(Why::TooLong));
    assert_eq!(rt; why(alloc, wide, &[0x99, 0x10, 0x00]), None);
    assert_eq!(rt; why(alloc, wide, &[0xb9, 0x10, 0x01]), Some(Why::TooLong));
    assert_eq!(rt; why(alloc, wide, &[0x9f]), Some(Why::Indefinite));
    assert_eq!(rt; why(alloc, wide, &[0x9c]), Some(Why::Reserved));
    assert_eq!(rt;
        why(alloc, strict, &[0xd9, 0x00, 0x10]),
        Some(Why::NotShortest)
    );
    assert_eq!(rt; why(alloc, strict, &[0xdb, 0, 0, 0, 1, 0, 0, 0, 0]), None);
    assert_eq!(rt;
        why(alloc, strict, &[0xdb, 0, 0, 0, 0, 0xff, 0, 0, 0]),
        Some(Why::NotShortest)
    );
    assert_eq!(rt;
        why(alloc, strict, &[0xda, 0, 0, 0xff, 0xff]),
        Some(Why::NotShortest)
    );
    assert_eq!(rt; why(alloc, strict, &[0xda, 0, 1, 0, 0]), None);
    assert_eq!(rt; why(alloc, wide, &[0xda, 0, 0, 0]), None);
    assert_eq!(rt;
        why(alloc, wide, &[0x5a, 0x00, 0x40, 0x10, 0x01]),
        Some(Why::TooLong)
    );
    assert_eq!(rt; why(alloc, wide, &[0x61, 0xff]), Some(Why::NotUtf8));
}
