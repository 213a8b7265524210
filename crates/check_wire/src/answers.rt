//! The bytes of answers.
use cbor_core::Bytes;
use http_wire::{Allow, Answer, BodyKind, write_response};
use scitt_io::{Link, MemLink, SureLink};
use std::alloc::{AllocError, Global};
use std::test::Fail;

fn answer(alloc: Global, status: u16, kind: BodyKind, body: &[u8]) -> Result<Answer, AllocError> {
    Ok(Answer {
        status,
        kind,
        body: Bytes::from_slice(alloc, body)?,
        size: 7,
        location: None,
        allow: Allow::Absent,
        close: false,
        head_only: false,
    })
}

// Writes an answer whose status has three digits, and says whether it was written.
fn sent<L: Link>(link: &mut L, answer: &Answer) -> bool {
    if answer.status < 100 || answer.status > 999 {
        return false;
    }
    write_response(link, answer).is_ok()
}

// Each status with its phrase, and each kind with its type.
#[test]
fn writes_each_status(rt: HostRuntime) -> Result<(), Fail> {
    for (status, kind, want) in [
        (
            200,
            BodyKind::Cbor,
            "HTTP/1.1 200 OK\r\nContent-Type: application/cbor\r\n",
        ),
        (
            201,
            BodyKind::Cose,
            "HTTP/1.1 201 Created\r\nContent-Type: application/cose\r\n",
        ),
        (
            400,
            BodyKind::Problem,
            "HTTP/1.1 400 Bad Request\r\nContent-Type: application/vnd.scitt-problem+cbor\r\n",
        ),
        (
            403,
            BodyKind::Problem,
            "HTTP/1.1 403 Forbidden\r\nContent-Type: application/vnd.scitt-problem+cbor\r\n",
        ),
        (
            404,
            BodyKind::Problem,
            "HTTP/1.1 404 Not Found\r\nContent-Type: application/vnd.scitt-problem+cbor\r\n",
        ),
        (
            405,
            BodyKind::Problem,
            "HTTP/1.1 405 Method Not Allowed\r\nContent-Type: application/vnd.scitt-problem+cbor\r\n",
        ),
        (
            411,
            BodyKind::Problem,
            "HTTP/1.1 411 Length Required\r\nContent-Type: application/vnd.scitt-problem+cbor\r\n",
        ),
        (
            413,
            BodyKind::Problem,
            "HTTP/1.1 413 Payload Too Large\r\nContent-Type: application/vnd.scitt-problem+cbor\r\n",
        ),
        (
            415,
            BodyKind::Problem,
            "HTTP/1.1 415 Unsupported Media Type\r\nContent-Type: application/vnd.scitt-problem+cbor\r\n",
        ),
        (
            431,
            BodyKind::Problem,
            "HTTP/1.1 431 Request Header Fields Too Large\r\nContent-Type: application/vnd.scitt-problem+cbor\r\n",
        ),
        (
            503,
            BodyKind::Problem,
            "HTTP/1.1 503 Service Unavailable\r\nContent-Type: application/vnd.scitt-problem+cbor\r\n",
        ),
    ] {
        let mut link = MemLink::new(rt.alloc(), Vec::new(rt.alloc()), Vec::new(rt.alloc()));
        let said = answer(rt.alloc(), status, kind, b"ab")?;
        assert!(rt; sent(&mut link, &said));
        let whole = format!(in rt.alloc();
            "{want}Content-Length: 2\r\nScitt-Log-Size: 7\r\n\r\nab"
        )?;
        assert_eq!(rt;
            link.into_content().as_slice(),
            whole.as_bytes(),
            "at {status}"
        );
    }
    Ok(())
}

// The lines that stand where they are asked for, in their order.
#[test]
fn writes_each_line(rt: HostRuntime) -> Result<(), Fail> {
    let start = "HTTP/1.1 405 Method Not Allowed\r\nContent-Type: application/cose\r\n";
    for (location, allow, close, head_only, want) in [
        (
            None,
            Allow::Absent,
            false,
            false,
            "Content-Length: 2\r\nScitt-Log-Size: 7\r\n\r\nab",
        ),
        (
            None,
            Allow::Absent,
            false,
            true,
            "Scitt-Log-Size: 7\r\n\r\n",
        ),
        (
            Some(1),
            Allow::Absent,
            false,
            false,
            "Content-Length: 2\r\nScitt-Log-Size: 7\r\nLocation: /entries/1\r\n\r\nab",
        ),
        (
            None,
            Allow::Get,
            false,
            false,
            "Content-Length: 2\r\nScitt-Log-Size: 7\r\nAllow: GET\r\n\r\nab",
        ),
        (
            None,
            Allow::Post,
            true,
            true,
            "Scitt-Log-Size: 7\r\nAllow: POST\r\nConnection: close\r\n\r\n",
        ),
        (
            None,
            Allow::Absent,
            true,
            false,
            "Content-Length: 2\r\nScitt-Log-Size: 7\r\nConnection: close\r\n\r\nab",
        ),
        (
            Some(u32::MAX),
            Allow::Post,
            true,
            false,
            "Content-Length: 2\r\nScitt-Log-Size: 7\r\nLocation: /entries/4294967295\r\nAllow: POST\r\nConnection: close\r\n\r\nab",
        ),
    ] {
        let mut link = MemLink::new(rt.alloc(), Vec::new(rt.alloc()), Vec::new(rt.alloc()));
        let mut said = answer(rt.alloc(), 405, BodyKind::Cose, b"ab")?;
        said.location = location;
        said.allow = allow;
        said.close = close;
        said.head_only = head_only;
        assert!(rt; sent(&mut link, &said));
        let whole = format!(in rt.alloc(); "{start}{want}")?;
        assert_eq!(rt;
            link.into_content().as_slice(),
            whole.as_bytes(),
            "at {want}"
        );
    }
    Ok(())
}

// The profile's own answer to a registration, with a body of 2,768 bytes.
#[test]
fn writes_the_answer_to_a_registration(rt: HostRuntime) -> Result<(), Fail> {
    let body = vec![in rt.alloc(); 5; 2768]?;
    let mut link = MemLink::new(rt.alloc(), Vec::new(rt.alloc()), Vec::new(rt.alloc()));
    let mut said = answer(rt.alloc(), 201, BodyKind::Cose, &body)?;
    said.size = 2;
    said.location = Some(1);
    assert!(rt; sent(&mut link, &said));
    let written = link.into_content();
    let head =
        b"HTTP/1.1 201 Created\r\nContent-Type: application/cose\r\nContent-Length: 2768\r\nScitt-Log-Size: 2\r\nLocation: /entries/1\r\n\r\n";
    assert_eq!(rt; written.get(..head.len()), Some(head.as_slice()));
    assert_eq!(rt; written.get(head.len()..), Some(body.as_slice()));
    assert!(rt; sent(&mut SureLink::new(Vec::new(rt.alloc())), &said));
    Ok(())
}

// An answer is two writes, its head and its body; a refused one leaves what was written before it.
#[test]
fn leaves_a_part_at_a_fault(rt: HostRuntime) -> Result<(), Fail> {
    let head =
        b"HTTP/1.1 404 Not Found\r\nContent-Type: application/vnd.scitt-problem+cbor\r\nContent-Length: 2\r\nScitt-Log-Size: 7\r\n\r\n";
    let said = answer(rt.alloc(), 404, BodyKind::Problem, b"ab")?;
    for (call, count) in [(0, 0), (1, head.len()), (2, head.len() + 2)] {
        let fails = Vec::from_slice(rt.alloc(), &[call])?;
        let mut link = MemLink::new(rt.alloc(), Vec::new(rt.alloc()), fails);
        assert_eq!(rt; sent(&mut link, &said), call == 2);
        assert_eq!(rt; link.faults(), if call == 2 { 0 } else { 1 });
        let written = link.into_content();
        assert_eq!(rt; written.len(), count, "at call {call}");
        let front = count.min(head.len());
        assert_eq!(rt; written.get(..front), head.get(..front));
    }
    Ok(())
}
