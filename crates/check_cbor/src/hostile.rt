use cbor_core::{DecodeStop, Why, decode_strict_all, decode_wide_all};
use std::alloc::{AllocError, Global};
use std::test::Fail;

/// How many kinds of keys there are.
const KINDS: u8 = 7;

/// How many keys a map has.
const COUNT: u16 = 512;

fn push_all(bytes: &mut Vec<u8>, part: &[u8]) -> Result<(), AllocError> {
    bytes.extend_from_slice(part)
}

/// The number 256 + i in its shortest head, for i below 512.
fn push_number(bytes: &mut Vec<u8>, i: u16) -> Result<(), AllocError> {
    bytes.push(0x19)?;
    push_all(bytes, i.wrapping_add(256).to_be_bytes().as_slice())
}

/// Twenty times a part behind the head of an array of 21, and the number.
fn push_array(bytes: &mut Vec<u8>, part: &[u8], i: u16) -> Result<(), AllocError> {
    bytes.push(0x95)?;
    for _ in 0..20 {
        push_all(bytes, part)?;
    }
    push_number(bytes, i)
}

/// Key i of a kind: a number; a byte string with a long common beginning; an array with one, of numbers, of empty arrays, of tagged
/// numbers, of empty strings; a map in a map.
fn push_key(bytes: &mut Vec<u8>, kind: u8, i: u16) -> Result<(), AllocError> {
    match kind {
        0 => push_number(bytes, i),
        1 => {
            push_all(bytes, [0x58, 102].as_slice())?;
            push_all(bytes, [b'a'; 100].as_slice())?;
            push_all(bytes, i.to_be_bytes().as_slice())
        }
        2 => push_array(bytes, [1].as_slice(), i),
        3 => push_array(bytes, [0x80].as_slice(), i),
        4 => push_array(bytes, [0xc1, 1].as_slice(), i),
        5 => push_array(bytes, [0x40].as_slice(), i),
        _ => {
            push_all(bytes, [0xa1, 0xa2, 1, 1].as_slice())?;
            push_number(bytes, i)?;
            push_all(bytes, [2, 3].as_slice())
        }
    }
}

/// The map of these keys in an order: rising, falling or mixed. Where a key is doubled the first one stands again at the end.
fn map_of(alloc: Global, kind: u8, order: u8, doubled: bool) -> Result<Vec<u8>, AllocError> {
    let mut bytes = Vec::new(alloc);
    let count = if doubled { COUNT + 1 } else { COUNT };
    bytes.push(0xb9)?;
    push_all(&mut bytes, count.to_be_bytes().as_slice())?;
    for i in 0..count {
        let i = i % COUNT;
        let place = match order {
            0 => i,
            1 => COUNT - 1 - i,
            _ => i * 37 % COUNT,
        };
        push_key(&mut bytes, kind, place)?;
        bytes.push(0)?;
    }
    Ok(bytes)
}

fn why(stop: &DecodeStop) -> Option<Why> {
    match stop {
        DecodeStop::Fault(fault) => Some(fault.why),
        DecodeStop::OutOfMemory => None,
    }
}

#[test]
fn many_keys_are_read_in_any_order(rt: HostRuntime) -> Result<(), Fail> {
    let alloc = rt.alloc();
    for kind in 0..KINDS {
        for order in 0..3 {
            let bytes = map_of(alloc, kind, order, false)?;
            let wide = decode_wide_all(alloc, bytes.as_slice());
            assert!(rt; wide.is_ok(), "wide, kind {kind}, order {order}");
            match decode_strict_all(alloc, bytes.as_slice()) {
                Ok(_) => assert_eq!(rt; order, 0, "strict, kind {kind}"),
                Err(stop) => {
                    assert!(rt; order != 0, "strict, kind {kind}");
                    assert_eq!(rt;
                        why(&stop),
                        Some(Why::KeyOrder),
                        "strict, kind {kind}, order {order}"
                    );
                }
            }
        }
    }
    Ok(())
}

#[test]
fn a_doubled_key_is_found_among_many(rt: HostRuntime) -> Result<(), Fail> {
    let alloc = rt.alloc();
    for kind in 0..KINDS {
        for order in 0..3 {
            let bytes = map_of(alloc, kind, order, true)?;
            match decode_wide_all(alloc, bytes.as_slice()) {
                Ok(_) => return Err("a key stands there twice".into()),
                Err(stop) => {
                    assert_eq!(rt; why(&stop), Some(Why::DupKey), "kind {kind}, order {order}");
                }
            }
        }
    }
    Ok(())
}

/// The place of key i of so many in an order: rising, falling, or the least, the greatest, the next one and so on.
fn place_in(order: u8, width: u8, i: u8) -> u8 {
    let other = width.saturating_sub(1).saturating_sub(i);
    match order {
        0 => i,
        1 => other,
        _ => {
            if i % 2 == 0 {
                i / 2
            } else {
                width.saturating_sub(1).saturating_sub(i / 2)
            }
        }
    }
}

/// A map of so many keys, at most 23, that are a beginning and a number, but for the last value.
fn level(alloc: Global, beginning: &[u8], width: u8, order: u8) -> Result<Vec<u8>, AllocError> {
    let mut bytes = Vec::new(alloc);
    bytes.push(0xa0 | width)?;
    for i in 0..width {
        if i > 0 {
            bytes.push(0)?;
        }
        push_all(&mut bytes, beginning)?;
        bytes.push(place_in(order, width, i))?;
    }
    Ok(bytes)
}

/// A map whose keys are maps of as many keys in turn, two levels down: all keys of a map are alike but for their last byte.
fn keys_in_keys(alloc: Global, width: u8, order: u8) -> Result<Vec<u8>, AllocError> {
    let first = level(alloc, &[], width, order)?;
    let second = level(alloc, first.as_slice(), width, order)?;
    let mut whole = level(alloc, second.as_slice(), width, order)?;
    whole.push(0)?;
    Ok(whole)
}

/// A map of two equal keys, each of them a map whose keys are maps.
fn doubled_keys(alloc: Global, width: u8, order: u8) -> Result<Vec<u8>, AllocError> {
    let key = keys_in_keys(alloc, width, order)?;
    let mut bytes = Vec::new(alloc);
    bytes.push(0xa2)?;
    push_all(&mut bytes, key.as_slice())?;
    bytes.push(0)?;
    push_all(&mut bytes, key.as_slice())?;
    bytes.push(0)?;
    Ok(bytes)
}

#[test]
fn keys_in_keys_are_read_in_any_order(rt: HostRuntime) -> Result<(), Fail> {
    let alloc = rt.alloc();
    for width in [2, 8, 9] {
        for order in 0..3 {
            let bytes = keys_in_keys(alloc, width, order)?;
            let wide = decode_wide_all(alloc, bytes.as_slice());
            assert!(rt; wide.is_ok(), "wide, {width} keys, order {order}");
            let strict = decode_strict_all(alloc, bytes.as_slice());
            assert_eq!(rt;
                strict.is_ok(),
                order == 0 || (width == 2 && order == 2),
                "strict, {width} keys, order {order}"
            );
            let bytes = doubled_keys(alloc, width, order)?;
            match decode_wide_all(alloc, bytes.as_slice()) {
                Ok(_) => return Err("a key stands there twice".into()),
                Err(stop) => {
                    assert_eq!(rt;
                        why(&stop),
                        Some(Why::DupKey),
                        "{width} keys, order {order}"
                    );
                }
            }
        }
    }
    Ok(())
}

/// Maps in each other, so many, each the last key behind 17 numbers.
fn chained(alloc: Global, levels: u8) -> Result<Vec<u8>, AllocError> {
    let mut bytes = Vec::new(alloc);
    for _ in 0..levels {
        bytes.push(0xb2)?;
        for n in 0..17 {
            push_all(&mut bytes, [n, 0].as_slice())?;
        }
    }
    bytes.push(0x80)?;
    for _ in 0..levels {
        bytes.push(0)?;
    }
    Ok(bytes)
}

#[test]
fn maps_stand_in_each_other_as_keys(rt: HostRuntime) -> Result<(), Fail> {
    let alloc = rt.alloc();
    let bytes = chained(alloc, 15)?;
    assert!(rt; decode_wide_all(alloc, bytes.as_slice()).is_ok());
    assert!(rt; decode_strict_all(alloc, bytes.as_slice()).is_ok());
    let bytes = chained(alloc, 16)?;
    match decode_wide_all(alloc, bytes.as_slice()) {
        Ok(_) => return Err("seventeen containers stand in each other".into()),
        Err(stop) => assert_eq!(rt; why(&stop), Some(Why::TooDeep)),
    }
    Ok(())
}
