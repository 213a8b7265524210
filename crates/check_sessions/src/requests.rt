// What a peer sends.
use cbor_core::Bytes;
use std::alloc::Global;
use std::test::Fail;

/// One request, or bytes that are none.
#[derive(Clone, Copy)]
pub enum Request {
    /// A GET of this target.
    Get(&'static str),
    /// So many of them.
    Gets(u32, &'static str),
    /// A POST of the statement of this number.
    Post(usize),
    /// A POST of each statement.
    Posts,
    /// A request line and fields, followed by the length of this body and the body.
    Body(&'static str, &'static [u8]),
    /// A GET of `/policy` with a field of so many bytes.
    Field(usize),
    /// This text.
    Raw(&'static str),
}

fn put_get(out: &mut Vec<u8>, target: &str) -> Result<(), Fail> {
    out.extend_from_slice(b"GET ")?;
    out.extend_from_slice(target.as_bytes())?;
    out.extend_from_slice(b" HTTP/1.1\r\nHost: log\r\n\r\n")?;
    Ok(())
}

fn put_body(alloc: Global, out: &mut Vec<u8>, front: &str, body: &[u8]) -> Result<(), Fail> {
    let length = format!(in alloc; "Content-Length: {}\r\n\r\n", body.len())?;
    out.extend_from_slice(front.as_bytes())?;
    out.extend_from_slice(length.as_bytes())?;
    out.extend_from_slice(body)?;
    Ok(())
}

fn put_field(out: &mut Vec<u8>, len: usize) -> Result<(), Fail> {
    out.extend_from_slice(b"GET /policy HTTP/1.1\r\nX: ")?;
    for _ in 0..len {
        out.push(b'x')?;
    }
    out.extend_from_slice(b"\r\n\r\n")?;
    Ok(())
}

fn put_gets(out: &mut Vec<u8>, count: u32, target: &str) -> Result<(), Fail> {
    for _ in 0..count {
        put_get(out, target)?;
    }
    Ok(())
}

fn put_post(alloc: Global, out: &mut Vec<u8>, statement: &Bytes) -> Result<(), Fail> {
    let front = "POST /entries HTTP/1.1\r\ncontent-type: Application/COSE; charset=x\r\n";
    put_body(alloc, out, front, statement.as_slice())
}

fn put_posts(alloc: Global, out: &mut Vec<u8>, statements: &[Bytes]) -> Result<(), Fail> {
    for statement in statements {
        put_post(alloc, out, statement)?;
    }
    Ok(())
}

fn put(
    alloc: Global,
    out: &mut Vec<u8>,
    statements: &[Bytes],
    request: &Request,
) -> Result<(), Fail> {
    match *request {
        Request::Get(target) => put_get(out, target),
        Request::Gets(count, target) => put_gets(out, count, target),
        Request::Post(number) => {
            let statement = statements.get(number).ok_or("no such statement")?;
            put_post(alloc, out, statement)
        }
        Request::Posts => put_posts(alloc, out, statements),
        Request::Body(front, body) => put_body(alloc, out, front, body),
        Request::Field(len) => put_field(out, len),
        Request::Raw(text) => Ok(out.extend_from_slice(text.as_bytes())?),
    }
}

/// The bytes of these requests, one after another.
pub fn spelled(alloc: Global, statements: &[Bytes], requests: &[Request]) -> Result<Vec<u8>, Fail> {
    let mut out = Vec::new(alloc);
    for request in requests {
        put(alloc, &mut out, statements, request)?;
    }
    Ok(out)
}
