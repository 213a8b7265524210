ghost use Rattle.std.specs.Prelude.{◌≡◌, ◌||◌, ℕ, ◌+◌, ◌-◌, ◌<◌, ◌≤◌, ◌⊎◌, List, [], length, take, drop, IfOk, IfErr, OnOk, OnErr, IsErrOf, IfSome, is_some, true, false, Some, None};
ghost use Rattle.httparse.specs.Grammar.{RequestHead};
ghost use Rattle.httparse.specs.Spans.{IsRequestAt, IsRequestWithin};
ghost use Rattle.http_wire.specs.Taking.{Takes, Fails, FillsShort, HasReadCause, next_of, stop_of};
ghost use Rattle.http_wire.specs.Parts.{ReadsParts, TakesBody, TakesRequest};
ghost use Rattle.http_wire.specs.Requests.{method_of};
ghost use Rattle.http_wire.specs.declared.request.Stop.TheVariants as stop;

use crate::fields::{Named, frame, length_of, only_named, says_close, says_cose};
use crate::gather::{drop_front, fill};
use crate::head::{HEAD_LIMIT, read_head};
use crate::request::{HeadFault, Method, Next, Request, Stop};
use cbor_core::{Bytes, Text};
use httparse::spans::{EMPTY_HEADER_SPAN, HeaderSpan, RequestSpans};
use scitt_io::{Link, Source};
use std::alloc::{AllocError, Global};
use std::marker::Model;

/// Reads the requests of a link, one after another.
#[derive(Drop)]
pub struct Wire {
    held: Vec<u8>,
    stop: Option<Stop>,
}

impl Model for Wire {
    ghost use Rattle.std.specs.Prelude.{◌≤◌, length};
    ghost use Rattle.http_wire.specs.Taking.{Waiting};

    ghost Value = { Waiting };

    ghost view = { λ w. record { held = w.held.items; stop = w.stop } };

    ghost invariant = { λ w. length w.held.items ≤ 8192 };
}

/// What is read from a head before its body.
#[derive(Drop)]
pub struct Parts {
    method: Method,
    target: Text,
    cose: bool,
    close: bool,
    size: u64,
}

fn method_named(name: &[u8]) -> Method
    ensures { result ≡ method_of name.now }
{
    if name == b"GET".as_slice() {
        Method::Get
    } else if name == b"POST".as_slice() {
        Method::Post
    } else if name == b"HEAD".as_slice() {
        Method::Head
    } else {
        Method::Other
    }
}

fn either(a: bool, b: bool) -> bool
    ensures { result ≡ (a || b) }
{
    a || b
}

fn read_parts(
    alloc: Global,
    buf: &[u8],
    head: &RequestSpans,
    headers: &[HeaderSpan],
) -> Result<Parts, Stop>
    requires { IsRequestWithin buf.now headers.now head.now }
    ensures { (h : RequestHead) → IsRequestAt buf.now headers.now head.now h → ReadsParts h result }
{
    let fields = &headers[..head.headers];
    let method = method_named(head.method.of(buf));
    let length = length_of(buf, only_named(buf, fields, b"content-length"));
    let coded = only_named(buf, fields, b"transfer-encoding") != Named::Absent;
    let size = match frame(length, coded, method == Method::Post) {
        Ok(size) => size,
        Err(fault) => return Err(Stop::Refused(fault, method == Method::Head)),
    };
    let Ok(path) = str::from_utf8(head.path.of(buf)) else {
        return Err(Stop::Refused(HeadFault::BadHead, false));
    };
    Ok(Parts {
        method,
        target: Text::from_str(alloc, path)?,
        cose: says_cose(buf, fields),
        close: either(head.version == 0, says_close(buf, fields)),
        size,
    })
}

/// Takes the body that begins at `start` of the bytes held, and goes on in the source.
fn read_body<L: Source>(
    alloc: Global,
    held: &mut Vec<u8>,
    link: &mut L,
    start: usize,
    size: usize,
) -> Result<Vec<u8>, Stop>
    requires { start ≤ length held.old.items }
    ensures body { IfOk result (λ body. TakesBody (drop start held.old.items) size (L.left link.old) (L.left link.new) body.items held.new.items) }
    ensures short { length held.new.items ≤ length held.old.items }
    ensures cut { IsErrOf result Stop.CutShort → FillsShort (drop start held.old.items) size (L.left link.old) (L.left link.new) }
    ensures why { IfErr result (λ why. (why ≡ stop.CutShort) ⊎ (why ≡ stop.ReadFault) ⊎ (why ≡ stop.OutOfMemory)) }
    ensures lost { OnErr result ((got : List ℕ) × Consumes (L.left link.old) (L.left link.new) got) }
    ensures telling { is_some (L.left link.new) ≡ is_some (L.left link.old) }
    ensures cause { HasReadCause (L.faults link.old) (L.faults link.new) (IsErrOf result Stop.ReadFault) }
    ensures keeps { L.read_keeps link.old link.new }
{
    let have = size.min(held.len() - start);
    let mut body = Vec::from_slice(alloc, &held[start..start + have])?;
    drop_front(held, start + have);
    fill(&mut body, link, size)?;
    Ok(body)
}

ghost use Rattle.std.specs.Io.KnownBytes.{Consumes};

fn request_from<L: Source>(alloc: Global, held: &mut Vec<u8>, link: &mut L) -> Result<Request, Stop>
    requires { length held.old.items ≤ 8192 }
    ensures request { IfOk result (λ q. TakesRequest held.old.items (L.left link.old) (L.left link.new) q held.new.items) }
    ensures stops { IfErr result (Fails held.old.items (L.left link.old) (L.left link.new)) }
    ensures short { length held.new.items ≤ 8192 }
    ensures telling { is_some (L.left link.new) ≡ is_some (L.left link.old) }
    ensures cause { HasReadCause (L.faults link.old) (L.faults link.new) (IsErrOf result Stop.ReadFault) }
    ensures keeps { L.read_keeps link.old link.new }
{
    let mut headers = [EMPTY_HEADER_SPAN; 32];
    let head = read_head(held, link, &mut headers)?;
    let parts = read_parts(alloc, held.as_slice(), &head, &headers)?;
    let body = read_body(alloc, held, link, head.len, parts.size as usize)?;
    Ok(Request {
        method: parts.method,
        target: parts.target,
        cose: parts.cose,
        body: Bytes::from_vec(body),
        close: parts.close,
    })
}

fn repeat(why: Stop) -> Next
    ensures { result ≡ next_of why }
{
    match why {
        Stop::Ended => Next::Ended,
        Stop::CutShort => Next::CutShort,
        Stop::Refused(fault, of_head) => Next::Refused(fault, of_head),
        Stop::ReadFault => Next::ReadFault,
        Stop::OutOfMemory => Next::OutOfMemory,
    }
}

impl Wire {
    pub fn new(alloc: Global) -> Result<Wire, AllocError>
        ensures { IfOk result (λ wire. wire ≡ record { held = []; stop = None }) }
    {
        Ok(Wire {
            held: Vec::with_capacity(alloc, HEAD_LIMIT)?,
            stop: None,
        })
    }

    /// The next request of the bytes, or why there is none. After all but a request each later call answers the same.
    pub fn next_request<L: Link>(&mut self, alloc: Global, link: &mut L) -> Next
        ensures takes { self.old.stop ≡ None → Takes self.old.held (L.left link.old) (L.left link.new) result self.new.held }
        ensures again { IfSome self.old.stop (λ why. (result ≡ next_of why) × (self.new ≡ self.old) × (link.new ≡ link.old)) }
        ensures stop { self.new.stop ≡ stop_of result }
        ensures telling { is_some (L.left link.new) ≡ is_some (L.left link.old) }
        ensures cause { self.old.stop ≡ None → HasReadCause (L.faults link.old) (L.faults link.new) (result ≡ Next.ReadFault) }
        ensures keeps { L.read_keeps link.old link.new }
    {
        if let Some(why) = self.stop {
            return repeat(why);
        }
        match request_from(alloc, &mut self.held, link) {
            Ok(request) => Next::Request(request),
            Err(why) => {
                self.stop = Some(why);
                repeat(why)
            }
        }
    }
}
