use super::said::both_said;
use cbor_core::{
    Bytes, DecodeStop, EncodeStop, Item, Node, Pairs, Text, Why, below, decode_strict, decode_wide,
    decode_wide_all, encode, encoded_len, has_key, same_item,
};
use std::alloc::{AllocError, Global};
use std::test::Fail;

/// A container that holds a container, so many of them, and an empty array in the last.
fn nested(alloc: Global, opening: u8, count: usize) -> Result<Vec<u8>, AllocError> {
    let mut bytes = Vec::new(alloc);
    for _ in 0..count {
        bytes.push(opening)?;
    }
    bytes.push(0x80)?;
    Ok(bytes)
}

fn is_truncated<T>(answer: &Result<T, DecodeStop>) -> bool {
    match answer {
        Err(DecodeStop::Fault(fault)) => fault.why == Why::Truncated,
        _ => false,
    }
}

#[test]
fn every_proper_prefix_of_a_nested_item_is_truncated(rt: HostRuntime) -> Result<(), Fail> {
    let alloc = rt.alloc();
    let bytes = hex::decode(alloc, "a261618219010043010203626262c1a1f580")?;
    assert_eq!(rt; both_said(alloc, bytes.as_slice())?.as_str(), "ok|ok");
    let all = bytes.as_slice();
    for len in 0..all.len() {
        let prefix = &all[..len];
        assert!(rt;
            is_truncated(&decode_strict(alloc, prefix)),
            "strict, {len}"
        );
        assert!(rt; is_truncated(&decode_wide(alloc, prefix)), "wide, {len}");
    }
    Ok(())
}

#[test]
fn sixteen_containers_stand_inside_each_other(rt: HostRuntime) -> Result<(), Fail> {
    let alloc = rt.alloc();
    for opening in [0x81, 0xc1] {
        let good = nested(alloc, opening, 15)?;
        assert_eq!(rt; both_said(alloc, good.as_slice())?.as_str(), "ok|ok");
        let deep = nested(alloc, opening, 16)?;
        let text = both_said(alloc, deep.as_slice())?;
        assert_eq!(rt; text.as_str(), "TooDeep at 16|TooDeep at 16");
    }
    Ok(())
}

#[test]
fn an_array_has_at_most_4096_items(rt: HostRuntime) -> Result<(), Fail> {
    let alloc = rt.alloc();
    let mut bytes = hex::decode(alloc, "991000")?;
    for _ in 0..4096 {
        bytes.push(0)?;
    }
    assert_eq!(rt; both_said(alloc, bytes.as_slice())?.as_str(), "ok|ok");
    let mut more = hex::decode(alloc, "991001")?;
    for _ in 0..4097 {
        more.push(0)?;
    }
    let text = both_said(alloc, more.as_slice())?;
    assert_eq!(rt; text.as_str(), "TooLong at 0|TooLong at 0");
    Ok(())
}

#[test]
fn the_first_item_is_decoded_whatever_follows(rt: HostRuntime) -> Result<(), Fail> {
    let alloc = rt.alloc();
    let bytes = hex::decode(alloc, "814000")?;
    let (item, len) = decode_strict(alloc, bytes.as_slice())
        .ok()
        .ok_or("no item")?;
    assert_eq!(rt; len, 2);
    let (same, len) = decode_wide(alloc, bytes.as_slice()).ok().ok_or("no item")?;
    assert_eq!(rt; len, 2);
    assert!(rt; same_item(&item, &same));
    Ok(())
}

#[test]
fn what_has_no_strict_bytes_is_not_encoded(rt: HostRuntime) -> Result<(), Fail> {
    let alloc = rt.alloc();
    for input in [
        "f93c00",
        "81fb0000000000000000",
        "a202000100",
        "c1a1a20200010000",
    ] {
        let bytes = hex::decode(alloc, input)?;
        let item = decode_wide_all(alloc, bytes.as_slice())
            .ok()
            .ok_or("no item")?;
        assert_eq!(rt; encoded_len(&item), None, "{input}");
        let refused = encode(alloc, &item).err().ok_or("encoded")?;
        assert_eq!(rt; refused, EncodeStop::NotStrict, "{input}");
    }
    let reserved = Item {
        node: Node::Simple(24),
    };
    assert_eq!(rt; encoded_len(&reserved), None);
    Ok(())
}

#[test]
fn wide_heads_are_encoded_shortest(rt: HostRuntime) -> Result<(), Fail> {
    let alloc = rt.alloc();
    let bytes = hex::decode(alloc, "b80218001958007801619b0000000000000000")?;
    let item = decode_wide_all(alloc, bytes.as_slice())
        .ok()
        .ok_or("no item")?;
    let again = encode(alloc, &item).ok().ok_or("not encoded")?;
    let want = hex::decode(alloc, "a200195800616180")?;
    assert!(rt; again.as_slice() == want.as_slice());
    Ok(())
}

#[test]
fn strings_and_pairs_hold_what_they_are_given(rt: HostRuntime) -> Result<(), Fail> {
    let alloc = rt.alloc();
    let bytes = Bytes::from_slice(alloc, &[1, 2, 3])?;
    assert_eq!(rt; bytes.len(), 3);
    assert!(rt; !bytes.is_empty());
    assert!(rt; Bytes::new(alloc).is_empty());
    let text = Text::from_str(alloc, "abc")?;
    assert_eq!(rt; text.as_str(), "abc");
    assert_eq!(rt; text.len(), 3);
    let mut pairs = Pairs::new(alloc);
    let key = Item {
        node: Node::Text(text),
    };
    let value = Item {
        node: Node::Bytes(bytes),
    };
    pairs.push(key, value)?;
    assert_eq!(rt; pairs.len(), 1);
    let map = Item {
        node: Node::Map(pairs.into_items()),
    };
    let want = hex::decode(alloc, "a16361626343010203")?;
    assert_eq!(rt; encoded_len(&map), Some(9));
    let whole = encode(alloc, &map).ok().ok_or("not encoded")?;
    assert!(rt; whole.as_slice() == want.as_slice());
    Ok(())
}

#[test]
fn a_key_is_found_among_the_pairs_of_a_map(rt: HostRuntime) -> Result<(), Fail> {
    let alloc = rt.alloc();
    let bytes = hex::decode(alloc, "a201020304")?;
    let item = decode_wide_all(alloc, bytes.as_slice())
        .ok()
        .ok_or("no item")?;
    let Item { node } = item;
    let items = match node {
        Node::Map(items) => Some(items),
        _ => None,
    };
    let pairs = Pairs::from_items(items.ok_or("no map")?);
    assert_eq!(rt; pairs.len(), 2);
    assert!(rt;
        has_key(
            pairs.as_slice(),
            &Item {
                node: Node::Uint(3)
            }
        )
    );
    assert!(rt;
        !has_key(
            pairs.as_slice(),
            &Item {
                node: Node::Uint(4)
            }
        )
    );
    Ok(())
}

#[test]
fn a_front_is_below_the_whole(rt: HostRuntime) {
    assert!(rt; below(&[], &[0]));
    assert!(rt; below(&[1], &[1, 0]));
    assert!(rt; below(&[1, 2], &[2]));
    assert!(rt; !below(&[2], &[1, 2]));
    assert!(rt; !below(&[1], &[1]));
}

/// A map of 4,096 keys of one length with one long common beginning, in rising order.
fn hostile(alloc: Global) -> Result<Vec<u8>, AllocError> {
    let beginning = vec![in alloc; 0x61; 254]?;
    let mut bytes = Vec::from_slice(alloc, &[0xb9, 0x10, 0x00])?;
    for i in 0..4096u16 {
        bytes.extend_from_slice(&[0x59, 0x01, 0x00])?;
        bytes.extend_from_slice(beginning.as_slice())?;
        bytes.extend_from_slice(&i.to_be_bytes())?;
        bytes.push(0)?;
    }
    Ok(bytes)
}

#[test]
fn a_hostile_map_is_read(rt: HostRuntime) -> Result<(), Fail> {
    let alloc = rt.alloc();
    let bytes = hostile(alloc)?;
    assert_eq!(rt; both_said(alloc, bytes.as_slice())?.as_str(), "ok|ok");
    Ok(())
}
