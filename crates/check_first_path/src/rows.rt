use crate::runs::run;
use sha2::{Digest, Sha256};
use std::alloc::{AllocError, AllocGlobal, Global};
use std::process::Abort;
use std::test::Fail;

const EMPTY: &str =
    "size 0\nroot e3b0c44298fc1c149afbf4c8996fb92427ae41e4649b934ca495991b7852b855\n";

const ONE: &str = "size 1\nroot 6e340b9cffb37a989ca544e6bb780a2c78901d3fb33738768511a30617afa01d\n";

// Bytes in hexadecimal, the status, and the text. The two roots are SHA-256 of the empty string and of the byte 00, as
// sha256sum prints them; the other lines follow the profile's table of faults.
#[test]
fn answers_by_the_bytes(rt: HostRuntime) -> Result<(), Fail> {
    for (bytes, status, text) in [
        ("80", 0, EMPTY),
        ("8140", 0, ONE),
        ("814000", 1, "refused cbor Trailing at 2\n"),
        ("01", 1, "refused shape\n"),
        ("8101", 1, "refused shape\n"),
        ("824001", 1, "refused shape\n"),
        ("40", 1, "refused shape\n"),
        ("a0", 1, "refused shape\n"),
        ("815800", 1, "refused cbor NotShortest at 1\n"),
        ("9800", 1, "refused cbor NotShortest at 0\n"),
        ("990001", 1, "refused cbor NotShortest at 0\n"),
        ("8158", 1, "refused cbor Truncated at 1\n"),
        ("81", 1, "refused cbor Truncated at 1\n"),
        ("", 1, "refused cbor Truncated at 0\n"),
        ("991001", 1, "refused cbor TooLong at 0\n"),
        ("815a00401001", 1, "refused cbor TooLong at 1\n"),
        ("9f40ff", 1, "refused cbor Indefinite at 0\n"),
        ("1c", 1, "refused cbor Reserved at 0\n"),
        ("f93c00", 1, "refused cbor FloatHere at 0\n"),
        ("61ff", 1, "refused cbor NotUtf8 at 0\n"),
        ("a201000100", 1, "refused cbor DupKey at 3\n"),
        ("a202000100", 1, "refused cbor KeyOrder at 3\n"),
        (
            "818181818181818181818181818181818180",
            1,
            "refused cbor TooDeep at 16\n",
        ),
    ] {
        let bytes = hex::decode(rt.alloc(), bytes)?;
        let (had, said) = run(rt.alloc(), &["root", "f"], &bytes)?;
        assert_eq!(rt; had, status, "the status at {text}");
        assert_eq!(rt; said.as_slice(), text.as_bytes(), "the text at {text}");
    }
    Ok(())
}

// These words are no command, whatever the file holds.
fn refused(rt: &(impl Abort + AllocGlobal), words: &[&str]) -> Result<(), Fail> {
    let (status, text) = run(rt.alloc(), words, &[0x80])?;
    assert_eq!(rt; status, 2);
    assert_eq!(rt; text.as_slice(), b"words refused\n".as_slice());
    Ok(())
}

#[test]
fn refuses_words_that_are_no_command(rt: HostRuntime) -> Result<(), Fail> {
    refused(&rt, &[])?;
    refused(&rt, &["root"])?;
    refused(&rt, &["Root", "f"])?;
    refused(&rt, &["roots", "f"])?;
    refused(&rt, &["", "f"])?;
    refused(&rt, &["f", "root"])?;
    refused(&rt, &["root", "f", "f"])?;
    refused(&rt, &["show"])?;
    refused(&rt, &["Show", "f"])?;
    refused(&rt, &["show", "f", "f"])?;
    refused(&rt, &["keygen", "f"])
}

// MTH by the recursion of RFC 9162, 2.1.1, going down at most so many levels.
fn mth(entries: &[Vec<u8>], levels: u8) -> [u8; 32] {
    let mut hasher = Sha256::new();
    match entries {
        [] => {}
        [entry] => {
            hasher.update([0].as_slice());
            hasher.update(entry.as_slice());
        }
        _ => {
            let mut k = 1;
            for power in [2, 4, 8, 16, 32, 64] {
                if power < entries.len() {
                    k = power;
                }
            }
            if levels > 0 && k < entries.len() {
                hasher.update([1].as_slice());
                hasher.update(mth(&entries[..k], levels - 1).as_slice());
                hasher.update(mth(&entries[k..], levels - 1).as_slice());
            }
        }
    }
    hasher.finalize()
}

// The strings 0, 1 1, 2 2 2 and so on, below 24 bytes long.
fn strings(alloc: Global, count: u8) -> Result<Vec<Vec<u8>>, AllocError> {
    let mut all = Vec::new(alloc);
    for i in 0..count {
        all.push(vec![in alloc; i; usize::from(i % 24)]?)?;
    }
    Ok(all)
}

// Their array.
fn spelled(alloc: Global, count: u8, strings: &[Vec<u8>]) -> Result<Vec<u8>, AllocError> {
    let mut bytes = Vec::new(alloc);
    if count < 24 {
        bytes.push(0x80 | count)?;
    } else {
        bytes.push(0x98)?;
        bytes.push(count)?;
    }
    for (i, string) in strings.iter().enumerate() {
        bytes.push(0x40 | (i % 24) as u8)?;
        bytes.extend_from_slice(string)?;
    }
    Ok(bytes)
}

#[test]
fn has_the_root_of_each_size(rt: HostRuntime) -> Result<(), Fail> {
    for count in 1..71 {
        let all = strings(rt.alloc(), count)?;
        let (status, text) = run(
            rt.alloc(),
            &["root", "f"],
            &spelled(rt.alloc(), count, &all)?,
        )?;
        let root = hex::encode(rt.alloc(), mth(&all, 8))?;
        let want = format!(in rt.alloc(); "size {count}\nroot {root}\n")?;
        assert_eq!(rt; status, 0, "the status at {count}");
        assert_eq!(rt; text.as_slice(), want.as_bytes(), "the text at {count}");
    }
    Ok(())
}

// A string of 4,198,400 bytes is the longest.
#[test]
fn takes_the_longest_string(rt: HostRuntime) -> Result<(), Fail> {
    let mut bytes = Vec::new(rt.alloc());
    bytes.extend_from_slice(&[0x81, 0x5a, 0x00, 0x40, 0x10, 0x00])?;
    bytes.resize(6 + 4_198_400, 7)?;
    let (status, text) = run(rt.alloc(), &["root", "f"], &bytes)?;
    assert_eq!(rt; status, 0);
    let mut hasher = Sha256::new();
    hasher.update([0].as_slice());
    hasher.update(bytes.get(6..).ok_or("cut")?);
    let root = hex::encode(rt.alloc(), hasher.finalize())?;
    let want = format!(in rt.alloc(); "size 1\nroot {root}\n")?;
    assert_eq!(rt; text.as_slice(), want.as_bytes());
    Ok(())
}

// A file of 16,777,216 bytes is the longest, but for `audit`.
#[test]
fn refuses_a_longer_file(rt: HostRuntime) -> Result<(), Fail> {
    let mut bytes = vec![in rt.alloc(); 0; 16_777_216]?;
    let (status, text) = run(rt.alloc(), &["root", "f"], &bytes)?;
    assert_eq!(rt; status, 1);
    assert_eq!(rt; text.as_slice(), b"refused cbor Trailing at 1\n".as_slice());
    bytes.push(0)?;
    let (status, text) = run(rt.alloc(), &["root", "f"], &bytes)?;
    assert_eq!(rt; status, 8);
    assert_eq!(rt; text.as_slice(), b"too long 16777216\n".as_slice());
    let (status, text) = run(rt.alloc(), &["audit", "f"], &bytes)?;
    assert_eq!(rt; status, 1);
    assert_eq!(rt; text.as_slice(), b"refused no log\n".as_slice());
    Ok(())
}
