//! Heads by what the profile says of them.
use crate::runs::told_of;
use std::alloc::Global;
use std::process::Abort;
use std::test::Fail;

fn compare(rt: &impl Abort, alloc: Global, rows: &[(&[u8], &str)]) -> Result<(), Fail> {
    for (bytes, want) in rows {
        let had = told_of(alloc, bytes)?;
        let shown = str::from_utf8(bytes).unwrap_or("bytes that are no text");
        assert_eq!(rt; had.as_str(), *want, "at {shown:?}");
    }
    Ok(())
}

#[test]
fn reads_methods_targets_and_types(rt: HostRuntime) -> Result<(), Fail> {
    compare(
        &rt,
        rt.alloc(),
        &[
            (b"", "Ended\n"),
            (
                b"GET /policy HTTP/1.1\r\n\r\n",
                "Get /policy other stay \nEnded\n",
            ),
            (
                b"HEAD /policy HTTP/1.1\r\n\r\n",
                "Head /policy other stay \nEnded\n",
            ),
            (
                b"get /policy HTTP/1.1\r\n\r\n",
                "Other /policy other stay \nEnded\n",
            ),
            (
                b"DELETE /a?b=/c%20 HTTP/1.1\r\n\r\n",
                "Other /a?b=/c%20 other stay \nEnded\n",
            ),
            (
                b"OPTIONS * HTTP/1.1\r\n\r\n",
                "Other * other stay \nEnded\n",
            ),
            (
                b"GET ?a?b HTTP/1.1\r\n\r\n",
                "Get ?a?b other stay \nEnded\n",
            ),
            (
                b"GET http://h/policy HTTP/1.1\r\n\r\n",
                "Get http://h/policy other stay \nEnded\n",
            ),
            // The text of the target is UTF-8, or the head is refused.
            (
                b"GET /\xc3\xa9 HTTP/1.1\r\n\r\n",
                "Get /\u{e9} other stay \nEnded\n",
            ),
            (b"GET /\xff HTTP/1.1\r\n\r\n", "BadHead false\n"),
            // A body may come with any method.
            (
                b"GET / HTTP/1.1\r\nContent-Length: 2\r\n\r\nab",
                "Get / other stay 6162\nEnded\n",
            ),
            (
                b"POST / HTTP/1.1\r\nContent-Length: 0\r\n\r\n",
                "Post / other stay \nEnded\n",
            ),
            (
                b"POST / HTTP/1.1\r\ncontent-length: 0000000001\r\n\r\nz",
                "Post / other stay 7a\nEnded\n",
            ),
            // The first type counts, up to a semicolon, without regard to case and white space.
            (
                b"GET / HTTP/1.1\r\nCONTENT-TYPE:Application/COSE\r\n\r\n",
                "Get / cose stay \nEnded\n",
            ),
            (
                b"GET / HTTP/1.1\r\nContent-Type: \tapplication/cose\t ; a=b\r\n\r\n",
                "Get / cose stay \nEnded\n",
            ),
            (
                b"GET / HTTP/1.1\r\nContent-Type: application/cose\r\nContent-Type: text/plain\r\n\r\n",
                "Get / cose stay \nEnded\n",
            ),
            (
                b"GET / HTTP/1.1\r\nContent-Type: text/plain\r\nContent-Type: application/cose\r\n\r\n",
                "Get / other stay \nEnded\n",
            ),
            (
                b"GET / HTTP/1.1\r\nContent-Type:\r\n\r\n",
                "Get / other stay \nEnded\n",
            ),
            (
                b"GET / HTTP/1.1\r\nContent-Type: ;application/cose\r\n\r\n",
                "Get / other stay \nEnded\n",
            ),
            (
                b"GET / HTTP/1.1\r\nContent-Type: application/cose, a\r\n\r\n",
                "Get / other stay \nEnded\n",
            ),
            (
                b"GET / HTTP/1.1\r\nContent-Type: application/cose+x\r\n\r\n",
                "Get / other stay \nEnded\n",
            ),
        ],
    )
}

#[test]
fn reads_who_asks_to_close(rt: HostRuntime) -> Result<(), Fail> {
    compare(
        &rt,
        rt.alloc(),
        &[
            (b"GET / HTTP/1.0\r\n\r\n", "Get / other close \nEnded\n"),
            (
                b"GET / HTTP/1.0\r\nConnection: keep-alive\r\n\r\n",
                "Get / other close \nEnded\n",
            ),
            (
                b"GET / HTTP/1.1\r\nConnection: Close , x\r\n\r\n",
                "Get / other close \nEnded\n",
            ),
            (
                b"GET / HTTP/1.1\r\nConnection:close\r\n\r\n",
                "Get / other close \nEnded\n",
            ),
            (
                b"GET / HTTP/1.1\r\nconnection: x,\t CLOSE\t\r\n\r\n",
                "Get / other close \nEnded\n",
            ),
            (
                b"GET / HTTP/1.1\r\nConnection: ,,close\r\n\r\n",
                "Get / other close \nEnded\n",
            ),
            (
                b"GET / HTTP/1.1\r\nConnection: x\r\nConnection: close\r\n\r\n",
                "Get / other close \nEnded\n",
            ),
            (
                b"GET / HTTP/1.1\r\nConnection:\r\n\r\n",
                "Get / other stay \nEnded\n",
            ),
            (
                b"GET / HTTP/1.1\r\nConnection: closed\r\n\r\n",
                "Get / other stay \nEnded\n",
            ),
            (
                b"GET / HTTP/1.1\r\nConnection: close;x\r\n\r\n",
                "Get / other stay \nEnded\n",
            ),
            (
                b"GET / HTTP/1.1\r\nConnection: close x\r\n\r\n",
                "Get / other stay \nEnded\n",
            ),
            (
                b"GET / HTTP/1.1\r\nConnection: keep-alive, upgrade\r\n\r\n",
                "Get / other stay \nEnded\n",
            ),
            (
                b"GET / HTTP/1.1\r\nX-Connection: close\r\n\r\n",
                "Get / other stay \nEnded\n",
            ),
        ],
    )
}

// The faults of the fields, and of two the first: a bad length, no length, too long a body.
#[test]
fn refuses_by_the_fields(rt: HostRuntime) -> Result<(), Fail> {
    compare(
        &rt,
        rt.alloc(),
        &[
            (b"POST / HTTP/1.1\r\n\r\n", "NoLength false\n"),
            (
                b"POST / HTTP/1.1\r\nContent-Length: 4194305\r\n\r\n",
                "TooLarge false\n",
            ),
            (
                b"GET / HTTP/1.1\r\nContent-Length: 9999999999\r\n\r\n",
                "TooLarge false\n",
            ),
            (
                b"GET / HTTP/1.1\r\nContent-Length: 1\r\nContent-Length: 1\r\n\r\na",
                "BadHead false\n",
            ),
            (
                b"GET / HTTP/1.1\r\nTransfer-Encoding: chunked\r\n\r\n0\r\n\r\n",
                "NoLength false\n",
            ),
            (
                b"GET / HTTP/1.1\r\nTransfer-Encoding:\r\n\r\n",
                "NoLength false\n",
            ),
            (
                b"POST / HTTP/1.1\r\nTransfer-Encoding: identity\r\nContent-Length: x\r\n\r\n",
                "BadHead false\n",
            ),
            (
                b"POST / HTTP/1.1\r\nTransfer-Encoding: identity\r\nContent-Length: 4194305\r\n\r\n",
                "NoLength false\n",
            ),
            (
                b"POST / HTTP/1.1\r\nContent-Length: 4194305\r\nContent-Length: 4194305\r\n\r\n",
                "BadHead false\n",
            ),
            (
                b"HEAD / HTTP/1.1\r\nContent-Length: 4194305\r\n\r\n",
                "TooLarge true\n",
            ),
            (
                b"HEAD / HTTP/1.1\r\nTransfer-Encoding: chunked\r\n\r\n",
                "NoLength true\n",
            ),
            (
                b"HEAD / HTTP/1.1\r\nContent-Length: -1\r\n\r\n",
                "BadHead true\n",
            ),
            (b"HEAD / HTTP/2.0\r\n\r\n", "BadHead false\n"),
        ],
    )
}

// The kinds of request smuggling (RFC 9112, 11.2): what two readers might frame differently is refused, or framed one way.
#[test]
fn frames_one_way(rt: HostRuntime) -> Result<(), Fail> {
    compare(
        &rt,
        rt.alloc(),
        &[
            (
                b"POST / HTTP/1.1\r\nContent-Length: 1\r\nContent-Length: 2\r\n\r\nab",
                "BadHead false\n",
            ),
            (
                b"POST / HTTP/1.1\r\nContent-Length: 1\r\nCONTENT-LENGTH: 1\r\n\r\na",
                "BadHead false\n",
            ),
            (
                b"POST / HTTP/1.1\r\nContent-Length: +5\r\n\r\nabcde",
                "BadHead false\n",
            ),
            (
                b"POST / HTTP/1.1\r\nContent-Length: -5\r\n\r\nabcde",
                "BadHead false\n",
            ),
            (
                b"POST / HTTP/1.1\r\nContent-Length: 0x5\r\n\r\nabcde",
                "BadHead false\n",
            ),
            (
                b"POST / HTTP/1.1\r\nContent-Length: 5,5\r\n\r\nabcde",
                "BadHead false\n",
            ),
            (
                b"POST / HTTP/1.1\r\nContent-Length: 5 5\r\n\r\nabcde",
                "BadHead false\n",
            ),
            (
                b"POST / HTTP/1.1\r\nContent-Length: 5.0\r\n\r\nabcde",
                "BadHead false\n",
            ),
            (
                b"POST / HTTP/1.1\r\nContent-Length: 5e0\r\n\r\nabcde",
                "BadHead false\n",
            ),
            (
                b"POST / HTTP/1.1\r\nContent-Length:\r\n\r\nabcde",
                "BadHead false\n",
            ),
            (
                b"POST / HTTP/1.1\r\nContent-Length: \xd9\xa5\r\n\r\nabcde",
                "BadHead false\n",
            ),
            (
                b"POST / HTTP/1.1\r\nContent-Length: 00000000005\r\n\r\nabcde",
                "BadHead false\n",
            ),
            (
                b"POST / HTTP/1.1\r\nContent-Length: 18446744073709551621\r\n\r\nabcde",
                "BadHead false\n",
            ),
            // White space round a value isn't part of it (RFC 9112, 5.1).
            (
                b"POST / HTTP/1.1\r\nContent-Length:  5\r\n\r\nabcde",
                "Post / other stay 6162636465\nEnded\n",
            ),
            (
                b"POST / HTTP/1.1\r\nContent-Length: 5 \t\r\n\r\nabcde",
                "Post / other stay 6162636465\nEnded\n",
            ),
            (
                b"POST / HTTP/1.1\r\nContent-Length: 5\x0b\r\n\r\nabcde",
                "BadHead false\n",
            ),
            (
                b"POST / HTTP/1.1\r\nContent-Length: 5\x00\r\n\r\nabcde",
                "BadHead false\n",
            ),
            // White space before the colon (RFC 9112, 5.1), and a name that only looks alike.
            (
                b"POST / HTTP/1.1\r\nContent-Length : 5\r\n\r\nabcde",
                "BadHead false\n",
            ),
            (
                b"POST / HTTP/1.1\r\nTransfer-Encoding : chunked\r\nContent-Length: 5\r\n\r\nabcde",
                "BadHead false\n",
            ),
            (
                b"POST / HTTP/1.1\r\n Content-Length: 5\r\n\r\nabcde",
                "BadHead false\n",
            ),
            (
                b"POST / HTTP/1.1\r\nContent_Length: 5\r\n\r\nabcde",
                "NoLength false\n",
            ),
            // A transfer encoding beside a length (RFC 9112, 6.3).
            (
                b"POST / HTTP/1.1\r\nContent-Length: 5\r\nTransfer-Encoding: chunked\r\n\r\n0\r\n\r\n",
                "NoLength false\n",
            ),
            (
                b"POST / HTTP/1.1\r\ntransfer-encoding: xchunked\r\nContent-Length: 5\r\n\r\nabcde",
                "NoLength false\n",
            ),
            (
                b"POST / HTTP/1.1\r\nTransfer-Encoding: chunked\r\nTransfer-Encoding: identity\r\nContent-Length: 5\r\n\r\n",
                "NoLength false\n",
            ),
            // A folded line (RFC 9112, 5.2), a bare CR (2.2), and lines that LF alone ends (2.2).
            (b"GET / HTTP/1.1\r\nA: b\r\n c\r\n\r\n", "BadHead false\n"),
            (b"GET / HTTP/1.1\r\nA: b\r\n\tc\r\n\r\n", "BadHead false\n"),
            (
                b"GET / HTTP/1.1\r\nA: b\rContent-Length: 5\r\n\r\n",
                "BadHead false\n",
            ),
            (b"GET / HTTP/1.1\r\rA: b\r\n\r\n", "BadHead false\n"),
            (b"GET / HTTP/1.1\n\n", "Get / other stay \nEnded\n"),
            (
                b"POST / HTTP/1.1\nContent-Length: 1\n\nx",
                "Post / other stay 78\nEnded\n",
            ),
            (
                b"POST / HTTP/1.1\r\nContent-Length: 1\n\r\nxGET / HTTP/1.1\n\r\n",
                "Post / other stay 78\nGet / other stay \nEnded\n",
            ),
            // Empty lines before a head belong to it.
            (
                b"\r\n\n\r\nGET / HTTP/1.1\r\n\r\n",
                "Get / other stay \nEnded\n",
            ),
            (b"\r\n", "CutShort\n"),
            (
                b"GET / HTTP/1.1\r\n\r\n\r\n",
                "Get / other stay \nCutShort\n",
            ),
            // Bytes behind a request begin the next one.
            (
                b"POST / HTTP/1.1\r\nContent-Length: 1\r\n\r\nxyGET / HTTP/1.1\r\n\r\n",
                "Post / other stay 78\nOther / other stay \nEnded\n",
            ),
            (
                b"GET / HTTP/1.1\r\n\r\n\x00",
                "Get / other stay \nBadHead false\n",
            ),
            // A version, a start line or a name out of form.
            (b"GET / HTTP/1.2\r\n\r\n", "BadHead false\n"),
            (b"GET / http/1.1\r\n\r\n", "BadHead false\n"),
            (b"GET / HTTP/1.1 \r\n\r\n", "BadHead false\n"),
            (b"GET /\x7f HTTP/1.1\r\n\r\n", "BadHead false\n"),
            (b"GE(T / HTTP/1.1\r\n\r\n", "BadHead false\n"),
            (b" GET / HTTP/1.1\r\n\r\n", "BadHead false\n"),
            (b"GET / HTTP/1.1\r\nA\xff: b\r\n\r\n", "BadHead false\n"),
            (b"GET / HTTP/1.1\r\n: b\r\n\r\n", "BadHead false\n"),
            (b"GET / HTTP/1.1\r\nA\r\n\r\n", "BadHead false\n"),
            (
                b"GET / HTTP/1.1\r\nA: \xff\xfe\r\n\r\n",
                "Get / other stay \nEnded\n",
            ),
            (b"\x16\x03\x01\x02\x00", "BadHead false\n"),
        ],
    )
}
