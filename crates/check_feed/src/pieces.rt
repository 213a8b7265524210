use super::said::{Verdict, agree, decoded, fed_by_bytes, fed_in_two};
use cbor_core::{DecodeStop, Fault, Grammar, Why, array_of, bytes_of};
use cbor_feed::{Fed, Feed};
use std::test::Fail;

/// An item with every kind of part that strict has, inside each other.
const MIXED: &str = "a6010203820480614161426143a2010203816144c10545010203040546f6f5d82aa1208220";

#[test]
fn an_item_ends_inside_a_piece(rt: HostRuntime) -> Result<(), Fail> {
    let alloc = rt.alloc();
    let mut feed = Feed::new(alloc, Grammar::Strict);
    assert_eq!(rt; feed.push(&[0x81]), Fed::NeedMore);
    assert_eq!(rt; feed.push(&[0x40, 0x00]), Fed::Done(1));
    assert_eq!(rt; feed.push(&[0x00]), Fed::Done(0));
    assert_eq!(rt; feed.push(&[]), Fed::Done(0));
    let item = feed.finish().ok().ok_or("no item")?;
    let parts = array_of(&item).ok_or("no array")?;
    assert_eq!(rt; parts.len(), 1);
    let empty = bytes_of(&parts[0]).ok_or("no string")?;
    assert!(rt; empty.is_empty());
    Ok(())
}

#[test]
fn a_fault_is_answered_by_the_piece_that_shows_it(rt: HostRuntime) {
    let alloc = rt.alloc();
    let mut feed = Feed::new(alloc, Grammar::Strict);
    assert_eq!(rt; feed.push(&[0xa2, 0x02, 0x00]), Fed::NeedMore);
    let fault = Fault {
        at: 3,
        why: Why::KeyOrder,
    };
    assert_eq!(rt; feed.push(&[0x01]), Fed::Fault(fault));
    assert_eq!(rt; feed.push(&[0x00]), Fed::Fault(fault));
    match feed.finish() {
        Ok(_) => assert!(rt; false),
        Err(stop) => assert_eq!(rt; stop, DecodeStop::Fault(fault)),
    }
}

#[test]
fn a_feed_without_its_last_byte_is_truncated(rt: HostRuntime) {
    let alloc = rt.alloc();
    let mut feed = Feed::new(alloc, Grammar::Wide);
    assert_eq!(rt; feed.push(&[]), Fed::NeedMore);
    assert_eq!(rt; feed.push(&[0x82, 0x00]), Fed::NeedMore);
    assert_eq!(rt; feed.push(&[0x42, 0x00]), Fed::NeedMore);
    match feed.finish() {
        Ok(_) => assert!(rt; false),
        Err(stop) => {
            let fault = Fault {
                at: 2,
                why: Why::Truncated,
            };
            assert_eq!(rt; stop, DecodeStop::Fault(fault));
        }
    }
}

#[test]
fn every_cut_and_every_beginning_is_read_as_the_whole(rt: HostRuntime) -> Result<(), Fail> {
    let alloc = rt.alloc();
    let bytes = hex::decode(alloc, MIXED)?;
    let all = bytes.as_slice();
    for grammar in [Grammar::Strict, Grammar::Wide] {
        for len in 0..=all.len() {
            let front = &all[..len];
            let whole = decoded(alloc, grammar, front);
            assert!(rt;
                agree(&fed_by_bytes(alloc, grammar, front), &whole),
                "{len}"
            );
            for cut in 0..=len {
                assert!(rt;
                    agree(&fed_in_two(alloc, grammar, front, cut), &whole),
                    "{len}, {cut}"
                );
            }
        }
    }
    Ok(())
}

#[test]
fn every_changed_byte_is_read_as_the_whole(rt: HostRuntime) -> Result<(), Fail> {
    let alloc = rt.alloc();
    let mut bytes = hex::decode(alloc, MIXED)?;
    let mut items = 0u32;
    for i in 0..bytes.len() {
        let kept = bytes[i];
        for quarter in 0..64u8 {
            bytes[i] = quarter * 4 + (i % 4) as u8;
            for grammar in [Grammar::Strict, Grammar::Wide] {
                let whole = decoded(alloc, grammar, bytes.as_slice());
                if let Verdict::Item(_, _) = &whole {
                    items = items.saturating_add(1);
                }
                let fed = fed_by_bytes(alloc, grammar, bytes.as_slice());
                assert!(rt; agree(&fed, &whole), "{i}, {quarter}");
            }
        }
        bytes[i] = kept;
    }
    assert!(rt; items > 100);
    Ok(())
}
