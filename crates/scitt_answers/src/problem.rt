// What a problem says, and its body.
ghost use Rattle.std.specs.Prelude.{◌≡◌, ◌<◌, ◌≤◌, ◌+◌, ◌++◌, [], length, vec_capacity};
ghost use Rattle.http.specs.StatusCode.{IsStatusCode};
ghost use Rattle.cbor_core.specs.Head.{head};
ghost use Rattle.cbor_core.specs.Encoding.{size_of};
ghost use Rattle.scitt_answers.specs.Problems.{kind_of as kind_said, numbers_of as numbers_said, allow_of as allow_said, fields_text, title_text, problem_bytes, head_problem as problem_of_head};

use cbor_core::{Bytes, strict_item_by_kind};
use http_wire::{Allow, HeadFault};

/// Why a request isn't answered with what it asked for, with the numbers that its body names (RFC 9290).
#[derive(Clone, Copy, Debug, PartialEq, Eq)]
pub enum Problem {
    /// The head is none, or its Content-Length is no number.
    BadHead,
    /// The body is no statement: the number of the rule that fails, and the place of a fault of its CBOR.
    BadStatement { number: u8, place: u64 },
    /// The statement is denied by this rule, as judged at this moment.
    Denied { rule: u16, moment: u64 },
    /// No path like this.
    NoRoute,
    /// The log has no such entry.
    NoEntry { index: u32 },
    /// The log had no such size, or it is 0.
    NoSuchSize { old: u32 },
    /// The path has another method.
    BadMethod { allowed: Allow },
    /// A body without its length.
    NoLength,
    /// A body that is too long.
    TooLarge,
    /// A body of another type.
    BadType,
    /// A head that is too long.
    HeadTooLong,
    /// The log has no room: its entries, and its logged bytes with this statement.
    LogFull { entries: u32, bytes: u64 },
    /// No signing index is left.
    KeyExhausted { next: u64, capacity: u64 },
    /// The disk failed.
    DiskFault,
    /// The clock gave no moment.
    ClockFault,
    /// Memory ran out.
    OutOfMemory,
    /// What was read of this record isn't what is kept of it.
    DiskChanged { number: u64 },
}

/// The code, the name and the status of a problem.
#[derive(Clone, Copy)]
struct Kind {
    code: u8,
    title: &'static str,
    status: u16,
}

/// The numbers that a problem names: the moment that was judged, and two more. Those that it doesn't name are 0.
#[derive(Clone, Copy)]
struct Numbers {
    moment: u64,
    a: u64,
    b: u64,
}

fn row(code: u8, title: &'static str, status: u16) -> Kind
    ensures { (result.code ≡ code) × (result.title.now ≡ title.now) × (result.status ≡ status) }
{
    Kind {
        code,
        title,
        status,
    }
}

fn kind_of(problem: Problem) -> Kind
    ensures code { result.code ≡ (kind_said problem).code }
    ensures title { result.title.now ≡ (kind_said problem).title }
    ensures short { length result.title.now ≤ 16 }
    ensures status { result.status ≡ (kind_said problem).status }
    ensures is_status { IsStatusCode result.status }
{
    match problem {
        Problem::BadHead => row(1, "BadHead", 400),
        Problem::BadStatement { .. } => row(2, "BadStatement", 400),
        Problem::Denied { .. } => row(3, "Denied", 403),
        Problem::NoRoute => row(4, "NoRoute", 404),
        Problem::NoEntry { .. } => row(5, "NoEntry", 404),
        Problem::NoSuchSize { .. } => row(6, "NoSuchSize", 404),
        Problem::BadMethod { .. } => row(7, "BadMethod", 405),
        Problem::NoLength => row(8, "NoLength", 411),
        Problem::TooLarge => row(9, "TooLarge", 413),
        Problem::BadType => row(10, "BadType", 415),
        Problem::HeadTooLong => row(11, "HeadTooLong", 431),
        Problem::LogFull { .. } => row(12, "LogFull", 503),
        Problem::KeyExhausted { .. } => row(13, "KeyExhausted", 503),
        Problem::DiskFault => row(14, "DiskFault", 503),
        Problem::ClockFault => row(15, "ClockFault", 503),
        Problem::OutOfMemory => row(16, "OutOfMemory", 503),
        Problem::DiskChanged { .. } => row(19, "DiskChanged", 503),
    }
}

/// The status code of a problem's answer (RFC 9110, 15).
pub(crate) fn status_of(problem: Problem) -> u16
    ensures value { result ≡ (kind_said problem).status }
    ensures is_status { IsStatusCode result }
{
    kind_of(problem).status
}

/// The method that a problem's answer allows in the place of another (RFC 9110, 10.2.1).
pub(crate) fn allow_of(problem: Problem) -> Allow
    ensures { result ≡ allow_said problem }
{
    match problem {
        Problem::BadMethod { allowed } => allowed,
        _ => Allow::Absent,
    }
}

/// The problem of a head that is refused.
pub(crate) fn head_problem(fault: HeadFault) -> Problem
    ensures { result ≡ problem_of_head fault }
{
    match fault {
        HeadFault::BadHead => Problem::BadHead,
        HeadFault::NoLength => Problem::NoLength,
        HeadFault::TooLarge => Problem::TooLarge,
        HeadFault::HeadTooLong => Problem::HeadTooLong,
    }
}

fn three(moment: u64, a: u64, b: u64) -> Numbers
    ensures { (result.moment ≡ moment) × (result.a ≡ a) × (result.b ≡ b) }
{
    Numbers { moment, a, b }
}

fn numbers_of(problem: Problem) -> Numbers
    ensures moment { result.moment ≡ (numbers_said problem).moment }
    ensures a { result.a ≡ (numbers_said problem).a }
    ensures b { result.b ≡ (numbers_said problem).b }
{
    match problem {
        Problem::BadStatement { number, place } => three(0, u64::from(number), place),
        Problem::Denied { rule, moment } => three(moment, u64::from(rule), 0),
        Problem::NoEntry { index } => three(0, u64::from(index), 0),
        Problem::NoSuchSize { old } => three(0, u64::from(old), 0),
        Problem::LogFull { entries, bytes } => three(0, u64::from(entries), bytes),
        Problem::KeyExhausted { next, capacity } => three(0, next, capacity),
        Problem::DiskChanged { number } => three(0, number, 0),
        _ => three(0, 0, 0),
    }
}

fn put(out: &mut Vec<u8>, piece: &[u8])
    requires { length out.old.items + length piece.now ≤ vec_capacity out.old }
    ensures items { out.new.items ≡ out.old.items ++ piece.now }
    ensures room { vec_capacity out.old ≤ vec_capacity out.new }
{
    out.extend_from_slice(piece).unwrap();
}

fn put_short_head(out: &mut Vec<u8>, major: u8, n: u32)
    requires major { major < 8 }
    requires room { length out.old.items + 9 ≤ vec_capacity out.old }
    ensures items { out.new.items ≡ out.old.items ++ head major (size_of n) n }
    ensures room { vec_capacity out.old ≤ vec_capacity out.new }
{
    let first = 32 * major;
    if n < 24 {
        return put(out, &[first + n as u8]);
    }
    if n < 0x100 {
        return put(out, &[first + 24, n as u8]);
    }
    if n < 0x1_0000 {
        let [a, b] = (n as u16).to_be_bytes();
        return put(out, &[first + 25, a, b]);
    }
    let [a, b, c, d] = n.to_be_bytes();
    put(out, &[first + 26, a, b, c, d])
}

/// Puts the shortest head of a number (RFC 8949, 3 and 4.2.1) behind what stands.
#[tactic(auto, using(crate::proofs::Bodies::head_short))]
fn put_head(out: &mut Vec<u8>, major: u8, n: u64)
    requires major { major < 8 }
    requires room { length out.old.items + 9 ≤ vec_capacity out.old }
    ensures items { out.new.items ≡ out.old.items ++ head major (size_of n) n }
    ensures short { length out.new.items ≤ length out.old.items + 9 }
    ensures room { vec_capacity out.old ≤ vec_capacity out.new }
{
    if n < 0x1_0000_0000 {
        return put_short_head(out, major, n as u32);
    }
    let [a, b, c, d, e, f, g, h] = n.to_be_bytes();
    put(out, &[32 * major + 27, a, b, c, d, e, f, g, h])
}

fn put_fields(out: &mut Vec<u8>, code: u8, size: u32, numbers: Numbers)
    requires { length out.old.items + 48 ≤ vec_capacity out.old }
    ensures items { out.new.items ≡ out.old.items ++ fields_text code size numbers.moment numbers.a numbers.b }
    ensures short { length out.new.items ≤ length out.old.items + 48 }
    ensures room { vec_capacity out.old ≤ vec_capacity out.new }
{
    put(out, &[0xa2, 1, 0x85]);
    put_head(out, 0, u64::from(code));
    put_head(out, 0, u64::from(size));
    put_head(out, 0, numbers.moment);
    put_head(out, 0, numbers.a);
    put_head(out, 0, numbers.b);
}

fn put_title(out: &mut Vec<u8>, title: &str)
    requires short { length title.now ≤ 16 }
    requires room { length out.old.items + 26 ≤ vec_capacity out.old }
    ensures { out.new.items ≡ out.old.items ++ title_text title.now }
{
    put(out, &[0x20]);
    put_head(out, 3, title.len() as u64);
    put(out, title.as_bytes());
}

/// The body of a problem's answer on a log of this size, in the place that was taken for it. It takes no memory.
pub(crate) fn problem_body(room: Vec<u8>, problem: Problem, size: u32) -> Bytes
    requires empty { room.items ≡ [] }
    requires room { 128 ≤ vec_capacity room }
    ensures { result ≡ problem_bytes problem size }
{
    strict_item_by_kind();
    let kind = kind_of(problem);
    let mut body = room;
    put_fields(&mut body, kind.code, size, numbers_of(problem));
    put_title(&mut body, kind.title);
    Bytes::from_vec(body)
}
