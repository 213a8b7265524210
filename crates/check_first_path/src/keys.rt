//! `keygen` and `sign`, over a key file in memory. The keys, and the lengths and digests of statements, are those that bench/signing.py makes.
use crate::runs::{folder, run_with, words};
use scitt_disk::MemDisk;
use scitt_io::{MemSink, MemSource};
use scitt_tool::{Status, run_tool};
use sha2::{Digest, Sha256};
use std::alloc::Global;
use std::test::Fail;

// A seed and an identifier.
const RANDOM: &str =
    "000102030405060708090a0b0c0d0e0f101112131415161718191a1b1c1d1e1f6465666768696a6b6c6d6e6f70717273";

// The first record of its key file, for one level H5 W1, and for H5 W2 above H5 W1.
const HEAD: &str =
    "8600015820000102030405060708090a0b0c0d0e0f101112131415161718191a1b1c1d1e1f506465666768696a6b6c6d6e6f707172738182050101";

const HEAD_OF_TWO: &str =
    "8600015820000102030405060708090a0b0c0d0e0f101112131415161718191a1b1c1d1e1f506465666768696a6b6c6d6e6f707172738282050282050101";

fn empty(alloc: Global) -> MemDisk {
    MemDisk::new(Vec::new(alloc), Vec::new(alloc))
}

fn record(file: &mut Vec<u8>, body: &[u8]) -> Result<(), Fail> {
    let len = u32::try_from(body.len())?;
    file.push(1)?;
    file.extend_from_slice(&len.to_be_bytes())?;
    file.extend_from_slice(body)?;
    Ok(())
}

// The bytes of a key file with this first record, of whose indices so many are reserved, one at a time.
fn key_file(alloc: Global, head: &str, reserved: u8) -> Result<Vec<u8>, Fail> {
    let mut file = Vec::new(alloc);
    record(&mut file, &hex::decode(alloc, head)?)?;
    for upto in 1..=reserved {
        if upto < 24 {
            record(&mut file, &[0x82, 1, upto])?;
        } else {
            record(&mut file, &[0x82, 1, 0x18, upto])?;
        }
    }
    file.push(0)?;
    Ok(file)
}

fn key(alloc: Global, head: &str, reserved: u8) -> Result<MemDisk, Fail> {
    Ok(MemDisk::new(key_file(alloc, head, reserved)?, Vec::new(alloc)))
}

// Whether these words over a payload, a key file and random bytes have this status and this text.
fn says(
    alloc: Global,
    texts: &[&str],
    payload: &[u8],
    key: &mut MemDisk,
    random: &[u8],
    status: Status,
    text: &str,
) -> Result<bool, Fail> {
    let (had, said) = run_with(alloc, texts, payload, key, random)?;
    Ok(had == status && said.as_slice() == text.as_bytes())
}

// The first key is one that another program than the script made.
const MADE: [(&str, &str, &str); 3] = [
    (
        "h5w8",
        "1a560d6fd368bb36f5a378619171e27ecc4f60a8600264af8999da8fc45ba306833180939f21f22882934805a4077165",
        "public 000000010000000500000004833180939f21f22882934805a40771653922715e566a4d818e6894f493dcc3ad2ac223e0ef4f4043439758723f86998b\nkid a67ad0baf645aef8c030a18b618cd72a6810dd38c65896d0e4fc7d37ad1236c9\n",
    ),
    (
        "h5w1",
        RANDOM,
        "public 0000000100000005000000016465666768696a6b6c6d6e6f707172731689cf4fb7f8e1f7f855d58c753f647850106b9c76480c47342cf08fbf9f2e24\nkid 6560bad8b2310cd34181f27ea272b5f013ebf4d534c9d726d80ff3837f29bf27\n",
    ),
    (
        "h5w2,h5w1",
        RANDOM,
        "public 0000000200000005000000026465666768696a6b6c6d6e6f70717273f04430b11d4bd4ca3ade05e504b17c8ab913748538d9cc9f4b148420ee430c34\nkid 9dec7f4b3c80c56ddac8b959c9cc17ea42bccac2918097e1599b9e46f3bbae3a\n",
    ),
];

// Too few random bytes stand before a key that is there.
#[test]
fn makes_keys(rt: HostRuntime) -> Result<(), Fail> {
    let alloc = rt.alloc();
    for (levels, random, text) in MADE {
        let words = ["keygen", levels];
        let random = hex::decode(alloc, random)?;
        let few = random.get(..47).ok_or("fewer")?;
        let ended = "refused random ended\n";
        let mut key = empty(alloc);
        assert!(rt; says(alloc, &words, &[], &mut key, few, 1, ended)?);
        assert!(rt; says(alloc, &words, &[], &mut key, &random, 0, text)?);
        assert!(rt;
            says(
                alloc,
                &words,
                &[],
                &mut key,
                &random,
                1,
                "refused key exists\n"
            )?
        );
        assert!(rt; says(alloc, &words, &[], &mut key, few, 1, ended)?);
        if levels == "h5w1" {
            assert_eq!(rt; key.into_content(), key_file(alloc, HEAD, 0)?);
        } else if levels == "h5w2,h5w1" {
            assert_eq!(rt; key.into_content(), key_file(alloc, HEAD_OF_TWO, 0)?);
        }
    }
    Ok(())
}

// What `sign` answers: the status, and the length and the digest of what is printed.
fn signed(
    alloc: Global,
    claims: [&str; 5],
    payload: &[u8],
    key: &mut MemDisk,
) -> Result<(Status, usize, String), Fail> {
    let [issuer, subject, content_type, from, until] = claims;
    let words = ["sign", issuer, subject, content_type, from, until, "f"];
    let (status, text) = run_with(alloc, &words, payload, key, &[])?;
    let digest = Sha256::digest(text.as_slice());
    Ok((status, text.len(), hex::encode(alloc, digest.as_slice())?))
}

// A text of 1,024 times the same letter.
fn long(alloc: Global, letter: char) -> Result<String, Fail> {
    let mut text = String::new(alloc);
    for _ in 0..1024 {
        text.push(letter)?;
    }
    Ok(text)
}

#[test]
fn signs_at_the_next_index(rt: HostRuntime) -> Result<(), Fail> {
    let alloc = rt.alloc();
    let a = long(alloc, 'a')?;
    let b = long(alloc, 'b')?;
    let c = long(alloc, 'c')?;
    let mut disk = key(alloc, HEAD, 0)?;
    let most = "9223372036854775807";
    for (claims, payload, want_len, want) in [
        (
            ["acme", "pkg", "text/plain", "-", "-"],
            b"payload".as_slice(),
            8768,
            "29666ea234b413216ea3d0538990457ce15685c09bbb2ccb96ddd436ee4a4e29",
        ),
        (
            ["acme", "pkg", "text/plain", "1700000000", most],
            b"payload".as_slice(),
            8784,
            "f1b01ae2b37a92ae7c43bcf3ef29a755c0c5372d04a3cacbfb0ced2f5ee4868a",
        ),
        (
            [a.as_str(), b.as_str(), c.as_str(), "0", "-"],
            [b'x'; 300].as_slice(),
            12127,
            "918640c6591acd3e14b040c7449d950af7f4ac636b265d8f1de1675a4981a97e",
        ),
    ] {
        let (status, len, digest) = signed(alloc, claims, payload, &mut disk)?;
        assert_eq!(rt; (status, len), (0, want_len));
        assert_eq!(rt; digest.as_str(), want);
    }
    assert_eq!(rt; disk.into_content(), key_file(alloc, HEAD, 3)?);
    Ok(())
}

// The last index of a key, and one of the second tree on the lower level.
#[test]
fn signs_until_the_key_is_exhausted(rt: HostRuntime) -> Result<(), Fail> {
    let alloc = rt.alloc();
    let mut disk = key(alloc, HEAD, 31)?;
    let (status, len, digest) = signed(alloc, ["\u{e9}", "s", "", "-", "0"], &[], &mut disk)?;
    assert_eq!(rt; (status, len), (0, 8749));
    assert_eq!(rt;
        digest.as_str(),
        "02d2456f85c000103d68a73c701397bfba2821a804c50a329a5ca3000b0de2ec"
    );
    let words = ["sign", "acme", "pkg", "", "-", "-", "f"];
    for _ in 0..2 {
        assert!(rt; says(alloc, &words, &[], &mut disk, &[], 7, "exhausted 32 32\n")?);
    }
    assert_eq!(rt; disk.into_content(), key_file(alloc, HEAD, 32)?);
    let mut disk = key(alloc, HEAD_OF_TWO, 33)?;
    let claims = ["acme", "pkg", "text/plain", "-", "-"];
    let (status, len, digest) = signed(alloc, claims, b"payload", &mut disk)?;
    assert_eq!(rt; (status, len), (0, 13284));
    assert_eq!(rt;
        digest.as_str(),
        "5d735bab1c70776206d0e4d9dea73186215b8c6e668dc291868a6e6cb87c6309"
    );
    Ok(())
}

// What is signed is a statement, and shows its claims.
#[test]
fn shows_what_it_signed(rt: HostRuntime) -> Result<(), Fail> {
    let alloc = rt.alloc();
    let mut disk = key(alloc, HEAD, 0)?;
    let words = ["sign", "acme", "pkg", "text/plain", "5", "6", "f"];
    let (status, statement) = run_with(alloc, &words, b"hi", &mut disk, &[])?;
    assert_eq!(rt; status, 0);
    let text =
        "tagged yes\nalg -46\nkid 6560bad8b2310cd34181f27ea272b5f013ebf4d534c9d726d80ff3837f29bf27\ncontent-type text/plain\nissuer acme\nsubject pkg\nnbf 5\nexp 6\niat none\npayload 2\nsignature 8688\nreceipts 0\nid 4de2cd7a93208d5d67456a51d1bd851d4b1d16ac01cfffdbc978d64168354f1d\n";
    assert!(rt; says(alloc, &["show", "f"], &statement, &mut disk, &[], 0, text)?);
    Ok(())
}

// Claims beyond their limits, of which none takes an index. With a payload of 7 bytes and its head of 1 the logged form has 8,768 bytes; the
// head of a long payload has 5.
#[test]
fn refuses_claims(rt: HostRuntime) -> Result<(), Fail> {
    let alloc = rt.alloc();
    let text = "refused claim\n";
    let mut disk = key(alloc, HEAD, 1)?;
    let mut a = long(alloc, 'a')?;
    a.push_str("a")?;
    for [issuer, subject, content_type] in [
        ["", "pkg", ""],
        ["acme", "", ""],
        [a.as_str(), "pkg", ""],
        ["acme", a.as_str(), ""],
        ["acme", "pkg", a.as_str()],
    ] {
        let words = ["sign", issuer, subject, content_type, "-", "-", "f"];
        assert!(rt; says(alloc, &words, &[], &mut disk, &[], 1, text)?);
    }
    let words = ["sign", "acme", "pkg", "text/plain", "-", "-", "f"];
    let most = 4_194_304 - (8768 - 8 + 5);
    for len in [most + 1, 4_194_305] {
        let payload = vec![in alloc; 0; len]?;
        assert!(rt; says(alloc, &words, &payload, &mut disk, &[], 1, text)?);
    }
    let payload = vec![in alloc; 0; most]?;
    let (status, text) = run_with(alloc, &words, &payload, &mut disk, &[])?;
    assert_eq!(rt; (status, text.len()), (0, 4_194_304));
    assert_eq!(rt; disk.into_content(), key_file(alloc, HEAD, 2)?);
    Ok(())
}

// Key files that aren't fit: none, one that is cut, one whose first record tells no key, and one whose second is no reservation.
// The key file stands before the claims.
#[test]
fn refuses_key_files(rt: HostRuntime) -> Result<(), Fail> {
    let alloc = rt.alloc();
    let none = format!(in alloc; "010000003b{HEAD}010000000382010200")?;
    for (bytes, text) in [
        ("", "refused key none\n"),
        ("000000000000", "refused key none\n"),
        ("010000000000", "refused key bad 0\n"),
        ("010000000100", "refused key short 0\n"),
        ("01000000018000", "refused key bad 0\n"),
        (none.as_str(), "refused key bad 1\n"),
    ] {
        let mut disk = MemDisk::new(hex::decode(alloc, bytes)?, Vec::new(alloc));
        let words = ["sign", "", "pkg", "", "-", "-", "f"];
        assert!(rt;
            says(alloc, &words, &[], &mut disk, &[], 1, text)?,
            "{text}"
        );
    }
    Ok(())
}

// Words that are no command, whatever the key file is.
#[test]
fn refuses_words(rt: HostRuntime) -> Result<(), Fail> {
    let alloc = rt.alloc();
    let text = "words refused\n";
    for levels in [
        "",
        "h5",
        "h5w3",
        "h15w8",
        "H5w8",
        "h5w8,",
        ",h5w8",
        "h5w8,,h5w8",
        "h5w8 ",
        "h5w8,h5w8,h5w8,h5w8",
    ] {
        let words = ["keygen", levels];
        assert!(rt;
            says(alloc, &words, &[], &mut empty(alloc), &[], 2, text)?,
            "{levels}"
        );
    }
    for moment in [
        "",
        "x",
        "01",
        "00",
        "+1",
        "-1",
        "--",
        " 1",
        "1 ",
        "9223372036854775808",
        "00000000000000000000",
        "18446744073709551616",
    ] {
        let words = ["sign", "acme", "pkg", "", moment, "-", "f"];
        assert!(rt;
            says(alloc, &words, &[], &mut empty(alloc), &[], 2, text)?,
            "{moment}"
        );
        let words = ["sign", "acme", "pkg", "", "-", moment, "f"];
        assert!(rt;
            says(alloc, &words, &[], &mut empty(alloc), &[], 2, text)?,
            "{moment}"
        );
    }
    Ok(())
}

/// The status and the text of these words over a disk, and a random source with such failing calls.
fn run_failing(
    alloc: Global,
    texts: &[&str],
    key: &mut MemDisk,
    fails: &[u32],
) -> Result<(Status, Vec<u8>), Fail> {
    let mut files = folder(alloc, &[], &[])?;
    let mut out = MemSink::new(alloc, Vec::new(alloc));
    let random = hex::decode(alloc, RANDOM)?;
    let mut random = MemSource::new(random, Vec::from_slice(alloc, fails)?);
    let words = words(alloc, texts)?;
    let status = run_tool(alloc, &words, &mut files, key, &mut random, &mut out);
    Ok((status, out.into_content()))
}

// The number of the first call of the disk whose failure these words don't see; at each before they say that it failed.
fn failing_calls(alloc: Global, texts: &[&str], content: &[u8]) -> Result<u32, Fail> {
    for k in 0..40 {
        let bytes = Vec::from_slice(alloc, content)?;
        let mut disk = MemDisk::new(bytes, Vec::from_slice(alloc, &[k])?);
        let (status, text) = run_failing(alloc, texts, &mut disk, &[])?;
        if status == 0 {
            return Ok(k);
        }
        if status != 6 || text.as_slice() != b"disk fault\n".as_slice() {
            return Err("another answer at a failing call".into());
        }
    }
    Err("no end".into())
}

// A key file is made by a sync, its length, the closed gate and its sync, and the four calls of an append: eight or more. It is loaded by a
// sync, its length and a read, and a reservation has four calls.
#[test]
fn says_that_the_outside_failed(rt: HostRuntime) -> Result<(), Fail> {
    let alloc = rt.alloc();
    let mut disk = empty(alloc);
    let (status, text) = run_failing(alloc, &["keygen", "h5w1"], &mut disk, &[0])?;
    assert_eq!(rt; status, 3);
    assert_eq!(rt; text.as_slice(), b"read fault\n".as_slice());
    assert_eq!(rt; disk.into_content().len(), 0);
    assert!(rt; failing_calls(alloc, &["keygen", "h5w1"], &[])? >= 8);
    let words = ["sign", "acme", "pkg", "", "-", "-", "f"];
    assert!(rt; failing_calls(alloc, &words, &key_file(alloc, HEAD, 0)?)? >= 7);
    Ok(())
}
