ghost use Rattle.std.specs.Prelude.{◌≡◌, ℕ, ◌+◌, ◌≤◌, ◌++◌, List, [], length, is_some, codes, decimal, Bool, true, false, Option, None, Some};
ghost use Rattle.scitt_io.specs.Causes.{HasCause};
ghost use Rattle.scitt_io.specs.Sink.{WritesFront};
ghost use Rattle.http.specs.StatusCode.{IsStatusCode, code_digits, reason_phrase};
ghost use Rattle.http_wire.specs.Answering.{answer_bytes, head_bytes, phrase_of, type_name, line_end, status_line, type_line, length_line, size_line, location_line, allow_line, close_line};

use crate::answer::{Allow, Answer, BodyKind};
use arrayvec::ArrayString;
use http::StatusCode;
use itoa::Buffer;
use scitt_io::{Link, WriteFault, write_all};

/// The head of an answer, in a place of its own.
type Head = ArrayString<512>;

fn code_of(status: u16) -> &'static str
    requires { IsStatusCode status }
    ensures value { result.now ≡ code_digits status }
    ensures short { length result.now ≤ 3 }
{
    match StatusCode::from_u16(status) {
        Ok(code) => code.as_str(),
        Err(_) => "",
    }
}

#[tactic(auto, unfolding(crate::specs::Answering::phrase_of))]
fn phrase(status: u16) -> &'static str
    requires { IsStatusCode status }
    ensures { result.now ≡ phrase_of status }
{
    match StatusCode::from_u16(status) {
        Ok(code) => code.canonical_reason().unwrap_or(""),
        Err(_) => "",
    }
}

fn name_of(kind: BodyKind) -> &'static str
    ensures value { result.now ≡ type_name kind }
    ensures short { length result.now ≤ 40 }
{
    match kind {
        BodyKind::Cose => "application/cose",
        BodyKind::Cbor => "application/cbor",
        BodyKind::Problem => "application/vnd.scitt-problem+cbor",
    }
}

#[tactic(auto, using(crate::proofs::Phrases::phrase_short), unfolding(crate::specs::Answering::status_line))]
fn push_status(head: &mut Head, status: u16)
    requires status { IsStatusCode status }
    requires room { length head.old.bytes ≤ 400 }
    ensures bytes { head.new.bytes ≡ head.old.bytes ++ status_line status }
    ensures short { length head.new.bytes ≤ length head.old.bytes + 60 }
{
    head.push_str("HTTP/1.1 ");
    head.push_str(code_of(status));
    head.push_str(" ");
    head.push_str(phrase(status));
    head.push_str("\r\n");
}

fn push_line(head: &mut Head, name: &str, value: &str)
    requires { length head.old.bytes + length name.now + length value.now ≤ 500 }
    ensures bytes { head.new.bytes ≡ head.old.bytes ++ (name.now ++ value.now ++ line_end) }
    ensures short { length head.new.bytes ≡ length head.old.bytes + length name.now + length value.now + 2 }
{
    head.push_str(name);
    head.push_str(value);
    head.push_str("\r\n");
}

#[tactic(auto, unfolding(crate::specs::Answering::length_line))]
fn push_length(head: &mut Head, head_only: bool, size: usize)
    requires { length head.old.bytes ≤ 400 }
    ensures bytes { head.new.bytes ≡ head.old.bytes ++ length_line head_only size }
    ensures short { length head.new.bytes ≤ length head.old.bytes + 60 }
{
    if !head_only {
        push_line(head, "Content-Length: ", Buffer::new().format(size));
    }
}

#[tactic(auto, unfolding(crate::specs::Answering::location_line))]
fn push_location(head: &mut Head, location: Option<u32>)
    requires { length head.old.bytes ≤ 400 }
    ensures bytes { head.new.bytes ≡ head.old.bytes ++ location_line location }
    ensures short { length head.new.bytes ≤ length head.old.bytes + 60 }
{
    if let Some(index) = location {
        push_line(head, "Location: /entries/", Buffer::new().format(index));
    }
}

#[tactic(auto, unfolding(crate::specs::Answering::allow_line))]
fn push_allow(head: &mut Head, allow: Allow)
    requires { length head.old.bytes ≤ 400 }
    ensures bytes { head.new.bytes ≡ head.old.bytes ++ allow_line allow }
    ensures short { length head.new.bytes ≤ length head.old.bytes + 20 }
{
    match allow {
        Allow::Absent => {}
        Allow::Get => push_line(head, "Allow: ", "GET"),
        Allow::Post => push_line(head, "Allow: ", "POST"),
    }
}

#[tactic(auto, unfolding(crate::specs::Answering::close_line))]
fn push_close(head: &mut Head, close: bool)
    requires { length head.old.bytes ≤ 400 }
    ensures bytes { head.new.bytes ≡ head.old.bytes ++ close_line close }
    ensures short { length head.new.bytes ≤ length head.old.bytes + 20 }
{
    if close {
        push_line(head, "Connection: ", "close");
    }
}

/// The bytes of an answer before its body.
fn head_of(answer: &Answer) -> Head
    requires { IsStatusCode answer.now.status }
    ensures { result.bytes ≡ head_bytes answer.now }
{
    let mut head = Head::new();
    push_status(&mut head, answer.status);
    push_line(&mut head, "Content-Type: ", name_of(answer.kind));
    push_length(&mut head, answer.head_only, answer.body.len());
    push_line(
        &mut head,
        "Scitt-Log-Size: ",
        Buffer::new().format(answer.size),
    );
    push_location(&mut head, answer.location);
    push_allow(&mut head, answer.allow);
    push_close(&mut head, answer.close);
    head.push_str("\r\n");
    head
}

/// Writes the bytes of an answer. After a fault a part of them from the front was taken.
pub fn write_response<L: Link>(link: &mut L, answer: &Answer) -> Result<(), WriteFault>
    requires { IsStatusCode answer.now.status }
    ensures front { WritesFront (answer_bytes answer.now) (L.taken link.old) (L.taken link.new) result }
    ensures telling { is_some (L.taken link.new) ≡ is_some (L.taken link.old) }
    ensures cause { HasCause (L.refused link.old) (L.refused link.new) result }
    ensures keeps { L.write_keeps link.old link.new }
{
    let head = head_of(answer);
    write_all(link, head.as_str().as_bytes())?;
    if answer.head_only {
        return Ok(());
    }
    write_all(link, answer.body.as_slice())
}
