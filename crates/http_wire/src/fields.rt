ghost use Rattle.std.specs.Prelude.{◌≡◌, ℕ, ◌+◌, ◌≤◌, ◌<◌, List, [], ◌∷◌, length, map, All, Some, None, IfSome, Bool, true, false, if◌then◌else◌};
ghost use Rattle.std.specs.Str.{str_eq_ignore_ascii_case, bytes_eq};
ghost use Rattle.std.specs.List.{list_any};
ghost use Rattle.httparse.specs.Spans.{IsHeaderWithin, IsWithin, header_bytes, span_bytes};
ghost use Rattle.http_wire.specs.Heads.{values_of, length_in, framed, is_some_value, is_cose, has_close};
ghost use Rattle.http_wire.specs.Fields.{IsNamed, IsOnce, IsFirst};
ghost use Rattle.http_wire.specs.Tokens.{closes};

use crate::digits::decimal_of;
use crate::request::HeadFault;
use crate::tokens::{asks_to_close, is_type, same_name};
use httparse::spans::{HeaderSpan, Span};

/// The value of the only field of a name.
#[derive(Clone, Copy, Debug, PartialEq, Eq)]
pub enum Named {
    Absent,
    Once(Span),
    Twice,
}

pub fn only_named(buf: &[u8], headers: &[HeaderSpan], name: &[u8]) -> Named
    requires within { All (IsHeaderWithin (length buf.now)) headers.now }
    ensures named { IsNamed buf.now (values_of name.now (map (header_bytes buf.now) headers.now)) result }
    ensures within { IsOnce (IsWithin (length buf.now)) result }
{
    let mut found = Named::Absent;
    for header in headers {
        if same_name(header.name.of(buf), name) {
            if found != Named::Absent {
                return Named::Twice;
            }
            found = Named::Once(header.value);
        }
    }
    found
}

/// Whether the first field of the name Content-Type says that the body is COSE.
pub fn says_cose(buf: &[u8], headers: &[HeaderSpan]) -> bool
    requires within { All (IsHeaderWithin (length buf.now)) headers.now }
    ensures { result ≡ is_cose (map (header_bytes buf.now) headers.now) }
{
    match first_named(buf, headers, b"content-type") {
        Some(span) => is_type(span.of(buf), b"application/cose"),
        None => false,
    }
}

/// The value of the first field of a name.
fn first_named(buf: &[u8], headers: &[HeaderSpan], name: &[u8]) -> Option<Span>
    requires within { All (IsHeaderWithin (length buf.now)) headers.now }
    ensures first { IsFirst buf.now (values_of name.now (map (header_bytes buf.now) headers.now)) result }
    ensures within { IfSome result (IsWithin (length buf.now)) }
{
    for header in headers {
        if same_name(header.name.of(buf), name) {
            return Some(header.value);
        }
    }
    None
}

/// Whether a field of the name Connection asks to close.
pub fn says_close(buf: &[u8], headers: &[HeaderSpan]) -> bool
    requires within { All (IsHeaderWithin (length buf.now)) headers.now }
    ensures { result ≡ has_close (map (header_bytes buf.now) headers.now) }
{
    one_asks_to_close(buf, headers, b"connection")
}

fn one_asks_to_close(buf: &[u8], headers: &[HeaderSpan], name: &[u8]) -> bool
    requires within { All (IsHeaderWithin (length buf.now)) headers.now }
    ensures { result ≡ list_any closes (values_of name.now (map (header_bytes buf.now) headers.now)) }
{
    for header in headers {
        if same_name(header.name.of(buf), name) && asks_to_close(header.value.of(buf)) {
            return true;
        }
    }
    false
}

/// How many bytes the body has.
pub fn frame(length: Option<Option<u64>>, coded: bool, posts: bool) -> Result<u64, HeadFault>
    ensures { result ≡ framed length coded posts }
{
    match length {
        None => Err(HeadFault::BadHead),
        Some(None) if coded || posts => Err(HeadFault::NoLength),
        Some(None) => Ok(0),
        Some(Some(_)) if coded => Err(HeadFault::NoLength),
        Some(Some(n)) if n > 4_194_304 => Err(HeadFault::TooLarge),
        Some(Some(n)) => Ok(n),
    }
}

pub fn length_of(buf: &[u8], named: Named) -> Option<Option<u64>>
    requires within { IsOnce (IsWithin (length buf.now)) named }
    ensures { (values : List (List ℕ)) → IsNamed buf.now values named → result ≡ length_in values }
{
    match named {
        Named::Absent => Some(None),
        Named::Once(span) => decimal_of(span.of(buf)).map(Some),
        Named::Twice => None,
    }
}
