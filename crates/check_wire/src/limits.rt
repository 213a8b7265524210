//! The limits of a head and of a body.
use crate::runs::{Cut, told, told_of};
use std::alloc::{AllocError, Global};
use std::test::Fail;

// A GET whose head has so many bytes: 23 of them stand round the value of one field.
fn head_of(alloc: Global, size: usize) -> Result<Vec<u8>, AllocError> {
    let mut bytes = Vec::new(alloc);
    bytes.extend_from_slice(b"GET / HTTP/1.1\r\nA: ")?;
    bytes.resize(size.saturating_sub(4).max(19), b'x')?;
    bytes.extend_from_slice(b"\r\n\r\n")?;
    Ok(bytes)
}

#[test]
fn takes_a_head_of_8192_bytes(rt: HostRuntime) -> Result<(), Fail> {
    let mut bytes = head_of(rt.alloc(), 8192)?;
    assert_eq!(rt; bytes.len(), 8192);
    assert_eq!(rt;
        told_of(rt.alloc(), &bytes)?.as_str(),
        "Get / other stay \nEnded\n"
    );
    bytes.extend_from_slice(b"HEAD / HTTP/1.1\r\n\r\n")?;
    assert_eq!(rt;
        told_of(rt.alloc(), &bytes)?.as_str(),
        "Get / other stay \nHead / other stay \nEnded\n"
    );
    let longer = head_of(rt.alloc(), 8193)?;
    assert_eq!(rt;
        told_of(rt.alloc(), &longer)?.as_str(),
        "HeadTooLong false\n"
    );
    Ok(())
}

// A head without an end.
#[test]
fn refuses_8192_bytes_without_an_end(rt: HostRuntime) -> Result<(), Fail> {
    let mut bytes = Vec::new(rt.alloc());
    bytes.extend_from_slice(b"HEAD / HTTP/1.1\r\nA: ")?;
    bytes.resize(8191, b'x')?;
    assert_eq!(rt; told_of(rt.alloc(), &bytes)?.as_str(), "CutShort\n");
    bytes.push(b'x')?;
    assert_eq!(rt;
        told_of(rt.alloc(), &bytes)?.as_str(),
        "HeadTooLong false\n"
    );
    bytes.resize(20_000, b'x')?;
    assert_eq!(rt;
        told_of(rt.alloc(), &bytes)?.as_str(),
        "HeadTooLong false\n"
    );
    let mut empty = vec![in rt.alloc(); b'\n'; 8191]?;
    assert_eq!(rt; told_of(rt.alloc(), &empty)?.as_str(), "CutShort\n");
    empty.push(b'\n')?;
    assert_eq!(rt;
        told_of(rt.alloc(), &empty)?.as_str(),
        "HeadTooLong false\n"
    );
    Ok(())
}

#[test]
fn takes_32_fields(rt: HostRuntime) -> Result<(), Fail> {
    for (count, want) in [
        (0, "Get / other stay \nEnded\n"),
        (32, "Get / other stay \nEnded\n"),
        (33, "BadHead false\n"),
        (100, "BadHead false\n"),
    ] {
        let mut bytes = Vec::new(rt.alloc());
        bytes.extend_from_slice(b"GET / HTTP/1.1\r\n")?;
        for _ in 0..count {
            bytes.extend_from_slice(b"A: b\r\n")?;
        }
        bytes.extend_from_slice(b"\r\n")?;
        assert_eq!(rt;
            told_of(rt.alloc(), &bytes)?.as_str(),
            want,
            "of {count} fields"
        );
    }
    Ok(())
}

// A body of 4,194,304 bytes that comes byte by byte, with another request behind it. The work is linear in its length: one
// that copied or cleared a buffer at each byte would take hours.
#[test]
fn takes_the_longest_body_byte_by_byte(rt: HostRuntime) -> Result<(), Fail> {
    let mut bytes = Vec::new(rt.alloc());
    bytes.extend_from_slice(b"POST /entries HTTP/1.1\r\nContent-Length: 4194304\r\n\r\n")?;
    let front = bytes.len();
    bytes.resize(front + 4_194_304, b'b')?;
    bytes.extend_from_slice(b"GET /policy HTTP/1.1\r\n\r\n")?;
    let mut link = Cut {
        bytes: &bytes,
        at: 0,
        place: 0,
        most: 1,
        fails: false,
        faults: 0,
    };
    let text = told(rt.alloc(), &mut link)?;
    let behind = text
        .as_str()
        .strip_prefix("Post /entries other stay ")
        .ok_or("no first request")?;
    assert_eq!(rt; behind.len(), 8_388_608 + 31);
    assert!(rt; behind.ends_with("62\nGet /policy other stay \nEnded\n"));
    Ok(())
}
