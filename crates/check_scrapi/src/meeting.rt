// Two connections, or a connection and another seat, on two threads.
ghost use Rattle.std.specs.Prelude.{◌≡◌, ◌≤◌, IfOk};
ghost use Rattle.turn_lock.specs.Calls.{lighter};

use crate::gates::{After, Meeting, comes_to};
use cbor_core::Bytes;
use registrar::Registrar;
use scitt_disk::MemDisk;
use scitt_io::{MemClock, MemLink};
use scitt_service::Service;
use scrapi::{SessionEnd, serve_connection};
use std::alloc::Global;
use std::process::Abort;
use std::sync::Wait;
use std::sync::atomic::{AtomicU64, Ordering};
use std::test::Fail;
use std::thread;
use std::thread::Threads;
use test_cast::{Cast, begun, fresh, genesis, issued, new_cast, registers};
use turn_lock::CallerSeat;

const ALG: &[u8] = &[0x38, 0x2d];

const GET_POLICY: &[u8] = b"GET /policy HTTP/1.1\r\n\r\n";

// A POST of this statement, at the end of what is sent.
fn post(alloc: Global, out: &mut Vec<u8>, body: &Bytes) -> Result<(), Fail> {
    out.extend_from_slice(b"POST /entries HTTP/1.1\r\nContent-Type: application/cose\r\n")?;
    let length = format!(in alloc; "Content-Length: {}\r\n\r\n", body.len())?;
    out.extend_from_slice(length.as_bytes())?;
    out.extend_from_slice(body.as_slice())?;
    Ok(())
}

// A link with a POST of this statement alone.
fn posts(alloc: Global, body: &Bytes) -> Result<MemLink, Fail> {
    let mut sent = Vec::new(alloc);
    post(alloc, &mut sent, body)?;
    Ok(MemLink::new(alloc, sent, Vec::new(alloc)))
}

// A clock that stands at 1,000 for two readings.
fn clock_of(alloc: Global) -> Result<MemClock, Fail> {
    Ok(MemClock::new(Vec::from_slice(alloc, &[1_000, 1_000])?, Vec::new(alloc)))
}

// A service of a log just begun, and the seat with all its weight.
fn opened(
    rt: &impl Abort,
    alloc: Global,
    cast: &Cast,
) -> Result<(Service<MemDisk>, CallerSeat), Fail>
    ensures { IfOk result (λ pair. (pair.1.lock ≡ pair.0) × (pair.1.weight ≡ 1024)) }
{
    let log = begun(alloc, fresh(alloc, &[])?, cast, 100, 4)?;
    let Ok(pair) = Service::new(alloc, log) else {
        panic!(rt; "no service")
    };
    Ok(pair)
}

// A seat of weight 1, split off this one.
fn split_off(rt: &impl Abort, service: &Service<MemDisk>, seat: &mut CallerSeat) -> CallerSeat
    requires lock { seat.old.lock ≡ service.now }
    requires weight { 2 ≤ seat.old.weight }
    ensures kept { seat.new ≡ lighter seat.old }
    ensures made { result.lock ≡ service.now }
{
    let Ok(other) = service.split(seat) else {
        panic!(rt; "no seat")
    };
    other
}

// The log of a service whose two seats are there.
fn closed(
    rt: &impl Abort,
    service: Service<MemDisk>,
    mut first: CallerSeat,
    second: CallerSeat,
) -> Registrar<MemDisk>
    requires first { first.lock ≡ service }
    requires second { second.lock ≡ service }
{
    service.join(&mut first, second);
    let Ok(log) = service.close(first) else {
        panic!(rt; "all seats are there")
    };
    log
}

// What a connection leaves beside its seat: what was written, and whether it ended and its gate was met.
#[derive(Drop)]
struct Left {
    text: Vec<u8>,
    end: SessionEnd,
    met: bool,
}

impl Left {
    fn ended(&self) -> bool {
        self.met && self.end == SessionEnd::Ended
    }
}

// A connection whose checks wait until two are open.
fn meets(
    rt: &impl Wait,
    alloc: Global,
    service: &Service<MemDisk>,
    mut seat: CallerSeat,
    mut link: MemLink,
    mut clock: MemClock,
    open: &AtomicU64,
) -> (CallerSeat, Left)
    requires { seat.lock ≡ service.now }
    ensures { result.0.lock ≡ service.now }
{
    let mut gate = Meeting { open, met: false };
    let end = serve_connection(
        rt, alloc, service, &mut seat, &mut link, &mut clock, &mut gate,
    );
    let left = Left {
        text: link.into_content(),
        end,
        met: gate.met,
    };
    (seat, left)
}

// Both connections at once.
fn both_meet(
    rt: &(impl Wait + Threads + Sync),
    alloc: Global,
    service: &Service<MemDisk>,
    seats: (CallerSeat, CallerSeat),
    links: (MemLink, MemLink),
    clocks: (MemClock, MemClock),
) -> (CallerSeat, CallerSeat, (Left, Left))
    requires first { seats.0.lock ≡ service.now }
    requires second { seats.1.lock ≡ service.now }
    ensures first { result.0.lock ≡ service.now }
    ensures second { result.1.lock ≡ service.now }
{
    let open = AtomicU64::new(0);
    let count = &open;
    let (first, second) = seats;
    let (one, other) = links;
    let (early, late) = clocks;
    let ((first, a), (second, b)) = thread::join(
        rt,
        move || meets(rt, alloc, service, first, one, early, count),
        move || meets(rt, alloc, service, second, other, late, count),
    );
    (first, second, (a, b))
}

#[test]
fn two_checks_are_open_at_once(rt: HostRuntime) -> Result<(), Fail> {
    let alloc = rt.alloc();
    let mut cast = new_cast(alloc)?;
    let genesis = genesis(alloc, &mut cast)?;
    let one = posts(alloc, &issued(alloc, &mut cast, 0, ALG, &[0])?)?;
    let other = posts(alloc, &issued(alloc, &mut cast, 1, ALG, &[1])?)?;
    let clocks = (clock_of(alloc)?, clock_of(alloc)?);
    let (service, mut first) = opened(&rt, alloc, &cast)?;
    let second = split_off(&rt, &service, &mut first);
    assert!(rt; registers(&rt, alloc, &service, &mut first, &genesis, 1_000) == Some((0, true)));
    let (first, second, (a, b)) = both_meet(
        &rt,
        alloc,
        &service,
        (first, second),
        (one, other),
        clocks,
    );
    assert!(rt; a.ended() && b.ended());
    assert!(rt; a.text.starts_with(b"HTTP/1.1 201 Created\r\n"));
    assert!(rt; b.text.starts_with(b"HTTP/1.1 201 Created\r\n"));
    let log = closed(&rt, service, first, second);
    assert!(rt; log.size() == 3);
    Ok(())
}

// A connection at each of whose checks another thread goes first.
fn comes_second(
    rt: &impl Wait,
    alloc: Global,
    service: &Service<MemDisk>,
    mut seat: CallerSeat,
    mut link: MemLink,
    mut clock: MemClock,
    asked: &AtomicU64,
    done: &AtomicU64,
) -> (CallerSeat, Left)
    requires { seat.lock ≡ service.now }
    ensures { result.0.lock ≡ service.now }
{
    let mut gate = After {
        asked,
        done,
        checks: 0,
        went_first: true,
    };
    let end = serve_connection(
        rt, alloc, service, &mut seat, &mut link, &mut clock, &mut gate,
    );
    let left = Left {
        text: link.into_content(),
        end,
        met: gate.went_first,
    };
    (seat, left)
}

// The other thread: it registers both statements, each where it is asked to.
fn goes_first(
    rt: &impl Wait,
    alloc: Global,
    service: &Service<MemDisk>,
    mut seat: CallerSeat,
    bytes: &[Bytes; 2],
    asked: &AtomicU64,
    done: &AtomicU64,
) -> (CallerSeat, bool)
    requires { seat.lock ≡ service.now }
    ensures { result.0.lock ≡ service.now }
{
    let mut admitted = comes_to(asked, 1);
    admitted = registers(rt, alloc, service, &mut seat, &bytes[0], 1_000) == Some((0, true))
        && admitted;
    done.store(1, Ordering::SeqCst);
    admitted = comes_to(asked, 2) && admitted;
    admitted = registers(rt, alloc, service, &mut seat, &bytes[1], 1_000) == Some((1, true))
        && admitted;
    done.store(2, Ordering::SeqCst);
    (seat, admitted)
}

// The connection beside the other thread.
fn one_goes_first(
    rt: &(impl Wait + Threads + Sync),
    alloc: Global,
    service: &Service<MemDisk>,
    seats: (CallerSeat, CallerSeat),
    link: MemLink,
    clock: MemClock,
    bytes: &[Bytes; 2],
) -> (CallerSeat, CallerSeat, (Left, bool))
    requires first { seats.0.lock ≡ service.now }
    requires second { seats.1.lock ≡ service.now }
    ensures first { result.0.lock ≡ service.now }
    ensures second { result.1.lock ≡ service.now }
{
    let asked = AtomicU64::new(0);
    let done = AtomicU64::new(0);
    let (asking, doing) = (&asked, &done);
    let (first, second) = seats;
    let ((first, left), (second, admitted)) = thread::join(
        rt,
        move || comes_second(rt, alloc, service, first, link, clock, asking, doing),
        move || goes_first(rt, alloc, service, second, bytes, asking, doing),
    );
    (first, second, (left, admitted))
}

// The heads of the three answers, by the rules of the profile: both statements are known, and the policy is that of the first.
static HEADS: [&[u8]; 3] = [
    b"HTTP/1.1 200 OK\r\nContent-Type: application/cose\r\n",
    b"Scitt-Log-Size: 1\r\nLocation: /entries/0\r\n\r\n",
    b"Scitt-Log-Size: 2\r\nLocation: /entries/1\r\n\r\n",
];

fn holds(text: &[u8], part: &[u8]) -> bool {
    for at in 0..text.len() {
        match text.get(at..) {
            Some(rest) if rest.starts_with(part) => return true,
            _ => {}
        }
    }
    false
}

// The log holds both entries, and its policy is the last that was written.
fn is_of_both(rt: &impl Abort, log: &Registrar<MemDisk>, text: &[u8]) {
    assert!(rt; log.size() == 2);
    match log.policy() {
        Ok(policy) => assert!(rt; text.ends_with(policy.as_slice())),
        Err(_) => panic!(rt; "no policy"),
    }
}

// What is sent: both statements, and the policy is asked for.
fn all_sent(alloc: Global, genesis: &Bytes, acme: &Bytes) -> Result<MemLink, Fail> {
    let mut sent = Vec::new(alloc);
    post(alloc, &mut sent, genesis)?;
    post(alloc, &mut sent, acme)?;
    sent.extend_from_slice(GET_POLICY)?;
    Ok(MemLink::new(alloc, sent, Vec::new(alloc)))
}

#[test]
fn another_seat_registers_first(rt: HostRuntime) -> Result<(), Fail> {
    let alloc = rt.alloc();
    let mut cast = new_cast(alloc)?;
    let genesis = genesis(alloc, &mut cast)?;
    let acme = issued(alloc, &mut cast, 0, ALG, &[0])?;
    let link = all_sent(alloc, &genesis, &acme)?;
    let clock = clock_of(alloc)?;
    let (service, mut first) = opened(&rt, alloc, &cast)?;
    let second = split_off(&rt, &service, &mut first);
    let (first, second, (left, admitted)) = one_goes_first(
        &rt,
        alloc,
        &service,
        (first, second),
        link,
        clock,
        &[genesis, acme],
    );
    assert!(rt; admitted && left.ended());
    for head in HEADS {
        assert!(rt; holds(&left.text, head));
    }
    assert!(rt; !holds(&left.text, b"201 Created"));
    let log = closed(&rt, service, first, second);
    is_of_both(&rt, &log, &left.text);
    Ok(())
}
