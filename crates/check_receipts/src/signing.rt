use cbor_core::Text;
use receipts::{tbs_into, tbs_len};
use std::alloc::Global;
use std::test::Fail;

/// The signed text in hexadecimal, of the kid 00 to 1f and the root 40 to 5f.
fn signed(alloc: Global, name: &str, size: u32) -> Result<String, Fail> {
    let name = Text::from_str(alloc, name)?;
    if name.len() < 1 || name.len() > 128 {
        return Err("no name".into());
    }
    let mut kid = [0; 32];
    let mut root = [0; 32];
    for i in 0..32u8 {
        kid[usize::from(i)] = i;
        root[usize::from(i)] = 0x40 + i;
    }
    let mut buf = vec![in alloc; 0; tbs_len(&name, size)]?;
    tbs_into(&name, &kid, size, &root, &mut buf);
    Ok(hex::encode(alloc, buf.as_slice())?)
}

/// The texts come from an encoder of its own in Python.
#[test]
fn signed_texts_have_these_bytes(rt: HostRuntime) -> Result<(), Fail> {
    let alloc = rt.alloc();
    let text = signed(alloc, "log", 2)?;
    let wanted =
        "846a5369676e6174757265315838a501382d045820000102030405060708090a0b0c0d0e0f101112131415161718191a1b1c1d1e1f0fa101636c6f6719018b013a0001117002405820404142434445464748494a4b4c4d4e4f505152535455565758595a5b5c5d5e5f";
    assert_eq!(rt; text.as_str(), wanted);
    assert_eq!(rt; text.len(), 210);
    Ok(())
}

/// Names and sizes at the edges of their heads, with the text's bytes.
static EDGES: [(&str, u32, &str); 8] = [
    (
        "l",
        0,
        "846a5369676e6174757265315836a501382d045820000102030405060708090a0b0c0d0e0f101112131415161718191a1b1c1d1e1f0fa101616c19018b013a0001117000405820404142434445464748494a4b4c4d4e4f505152535455565758595a5b5c5d5e5f",
    ),
    (
        "twenty-three bytes long",
        23,
        "846a5369676e617475726531584ca501382d045820000102030405060708090a0b0c0d0e0f101112131415161718191a1b1c1d1e1f0fa101777477656e74792d7468726565206279746573206c6f6e6719018b013a0001117017405820404142434445464748494a4b4c4d4e4f505152535455565758595a5b5c5d5e5f",
    ),
    (
        "twenty-four bytes longer",
        24,
        "846a5369676e617475726531584fa501382d045820000102030405060708090a0b0c0d0e0f101112131415161718191a1b1c1d1e1f0fa10178187477656e74792d666f7572206279746573206c6f6e67657219018b013a000111701818405820404142434445464748494a4b4c4d4e4f505152535455565758595a5b5c5d5e5f",
    ),
    (
        "nnnnnnnnnnnnnnnnnnnnnnnnnnnnnnnnnnnnnnnnnnnnnnnnnnnnnnnnnnnnnnnnnnnnnnnnnnnnnnnnnnnnnnnnnnnnnnnnnnnnnnnnnnnnnnnnnnnnnnnnnnnnnnnn",
        255,
        "846a5369676e61747572653158b7a501382d045820000102030405060708090a0b0c0d0e0f101112131415161718191a1b1c1d1e1f0fa10178806e6e6e6e6e6e6e6e6e6e6e6e6e6e6e6e6e6e6e6e6e6e6e6e6e6e6e6e6e6e6e6e6e6e6e6e6e6e6e6e6e6e6e6e6e6e6e6e6e6e6e6e6e6e6e6e6e6e6e6e6e6e6e6e6e6e6e6e6e6e6e6e6e6e6e6e6e6e6e6e6e6e6e6e6e6e6e6e6e6e6e6e6e6e6e6e6e6e6e6e6e6e6e6e6e6e6e6e6e6e6e6e6e6e6e6e6e6e6e6e6e6e6e6e6e6e6e6e19018b013a0001117018ff405820404142434445464748494a4b4c4d4e4f505152535455565758595a5b5c5d5e5f",
    ),
    (
        "log",
        256,
        "846a5369676e617475726531583aa501382d045820000102030405060708090a0b0c0d0e0f101112131415161718191a1b1c1d1e1f0fa101636c6f6719018b013a00011170190100405820404142434445464748494a4b4c4d4e4f505152535455565758595a5b5c5d5e5f",
    ),
    (
        "log",
        65_535,
        "846a5369676e617475726531583aa501382d045820000102030405060708090a0b0c0d0e0f101112131415161718191a1b1c1d1e1f0fa101636c6f6719018b013a0001117019ffff405820404142434445464748494a4b4c4d4e4f505152535455565758595a5b5c5d5e5f",
    ),
    (
        "log",
        65_536,
        "846a5369676e617475726531583ca501382d045820000102030405060708090a0b0c0d0e0f101112131415161718191a1b1c1d1e1f0fa101636c6f6719018b013a000111701a00010000405820404142434445464748494a4b4c4d4e4f505152535455565758595a5b5c5d5e5f",
    ),
    (
        "log",
        4_294_967_295,
        "846a5369676e617475726531583ca501382d045820000102030405060708090a0b0c0d0e0f101112131415161718191a1b1c1d1e1f0fa101636c6f6719018b013a000111701affffffff405820404142434445464748494a4b4c4d4e4f505152535455565758595a5b5c5d5e5f",
    ),
];

#[test]
fn names_and_sizes_have_shortest_heads(rt: HostRuntime) -> Result<(), Fail> {
    let alloc = rt.alloc();
    for (name, size, wanted) in EDGES {
        let text = signed(alloc, name, size)?;
        assert_eq!(rt; text.as_str(), wanted, "{name} {size}");
    }
    Ok(())
}
