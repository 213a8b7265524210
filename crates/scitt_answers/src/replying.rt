// The answer that a reply of the log gets.
ghost use Rattle.std.specs.Prelude.{◌≡◌, ◌≤◌, [], vec_capacity};
ghost use Rattle.std.specs.Result.{result_ok};
ghost use Rattle.http.specs.StatusCode.{IsStatusCode};
ghost use Rattle.scitt_answers.specs.Answers.{body_answer as body_told, problem_answer as problem_told, registered_answer as registered_told, read_answer as read_told, made_answer as made_told};

use crate::problem::{Problem, allow_of, problem_body, status_of};
use cbor_core::Bytes;
use http_wire::{Allow, Answer, BodyKind};
use registrar::{Outcome, ReadBack};
use std::alloc::AllocError;

/// What an answer has by its request and its place.
#[derive(Clone, Copy, Debug, PartialEq, Eq)]
pub struct Manner {
    /// Whether the connection ends behind it.
    pub close: bool,
    /// Whether its body is left out.
    pub head_only: bool,
}

fn body_answer(
    status: u16,
    kind: BodyKind,
    body: Bytes,
    location: Option<u32>,
    size: u32,
    manner: Manner,
) -> Answer
    ensures { result ≡ body_told status kind body location size manner }
{
    Answer {
        status,
        kind,
        body,
        size,
        location,
        allow: Allow::Absent,
        close: manner.close,
        head_only: manner.head_only,
    }
}

/// The answer that tells a problem, on a log of this size. Its body is written into `room`, so it takes no memory.
pub(crate) fn problem_answer(room: Vec<u8>, problem: Problem, size: u32, manner: Manner) -> Answer
    requires empty { room.items ≡ [] }
    requires room { 128 ≤ vec_capacity room }
    ensures answer { result ≡ problem_told problem size manner }
    ensures status { IsStatusCode result.status }
{
    Answer {
        status: status_of(problem),
        kind: BodyKind::Problem,
        body: problem_body(room, problem, size),
        size,
        location: None,
        allow: allow_of(problem),
        close: manner.close,
        head_only: manner.head_only,
    }
}

/// The answer to a registration: 201 for a new entry and 200 for one that stands already, each with its receipt and its place, else a problem. It takes no memory.
pub(crate) fn registered_answer(
    room: Vec<u8>,
    outcome: Outcome,
    size: u32,
    manner: Manner,
) -> Answer
    requires empty { room.items ≡ [] }
    requires room { 128 ≤ vec_capacity room }
    ensures answer { result ≡ registered_told outcome size manner }
    ensures status { IsStatusCode result.status }
{
    let problem = match outcome {
        Outcome::Admitted { index, receipt } => {
            return body_answer(201, BodyKind::Cose, receipt, Some(index), size, manner);
        }
        Outcome::Known { index, receipt } => {
            return body_answer(200, BodyKind::Cose, receipt, Some(index), size, manner);
        }
        Outcome::Denied { rule, moment, .. } => Problem::Denied { rule, moment },
        Outcome::LogFull { entries, bytes } => Problem::LogFull { entries, bytes },
        Outcome::KeyExhausted { next, capacity } => Problem::KeyExhausted { next, capacity },
        Outcome::OutOfMemory => Problem::OutOfMemory,
        Outcome::DiskFault => Problem::DiskFault,
        Outcome::Changed { number } => Problem::DiskChanged { number },
    };
    problem_answer(room, problem, size, manner)
}

/// The answer to what was read back. It takes no memory.
pub(crate) fn read_answer(
    room: Vec<u8>,
    read: Result<Bytes, ReadBack>,
    size: u32,
    manner: Manner,
) -> Answer
    requires empty { room.items ≡ [] }
    requires room { 128 ≤ vec_capacity room }
    ensures answer { result ≡ read_told read size manner }
    ensures status { IsStatusCode result.status }
{
    let problem = match read {
        Ok(body) => return body_answer(200, BodyKind::Cose, body, None, size, manner),
        Err(ReadBack::NoEntry { index, .. }) => Problem::NoEntry { index },
        Err(ReadBack::NoSuchSize { old, .. }) => Problem::NoSuchSize { old },
        Err(ReadBack::Changed { number }) => Problem::DiskChanged { number },
        Err(ReadBack::DiskFault) => Problem::DiskFault,
        Err(ReadBack::OutOfMemory) => Problem::OutOfMemory,
    };
    problem_answer(room, problem, size, manner)
}

/// The answer to a key set or a policy; nothing was made for want of memory. It takes no memory.
pub(crate) fn made_answer(
    room: Vec<u8>,
    made: Result<Bytes, AllocError>,
    size: u32,
    manner: Manner,
) -> Answer
    requires empty { room.items ≡ [] }
    requires room { 128 ≤ vec_capacity room }
    ensures answer { result ≡ made_told (result_ok made) size manner }
    ensures status { IsStatusCode result.status }
{
    match made {
        Ok(body) => body_answer(200, BodyKind::Cbor, body, None, size, manner),
        Err(_) => problem_answer(room, Problem::OutOfMemory, size, manner),
    }
}
