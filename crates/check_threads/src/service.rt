// Two callers of one service, on two threads.
ghost use Rattle.std.specs.Prelude.{◌≡◌, ◌≤◌, IfOk};
ghost use Rattle.turn_lock.specs.Calls.{lighter};

use cbor_core::Bytes;
use registrar::{ReadBack, Registrar};
use scitt_disk::MemDisk;
use scitt_service::{SeatsOut, Service};
use std::alloc::Global;
use std::process::Abort;
use std::sync::Wait;
use std::test::Fail;
use std::thread;
use std::thread::Threads;
use test_cast::{Cast, begun, fresh, genesis, issued, new_cast, registers};
use turn_lock::CallerSeat;

const ALG: &[u8] = &[0x38, 0x2d];

// A service of a log just begun, and the seat with all its weight.
fn opened(
    rt: &impl Abort,
    alloc: Global,
    cast: &Cast,
) -> Result<(Service<MemDisk>, CallerSeat), Fail>
    ensures { IfOk result (λ pair. (pair.1.lock ≡ pair.0) × (pair.1.weight ≡ 1024)) }
{
    let log = begun(alloc, fresh(alloc, &[])?, cast, 100, 4)?;
    let Ok(pair) = Service::new(alloc, log) else {
        panic!(rt; "no service")
    };
    Ok(pair)
}

// A seat of weight 1, split off this one.
fn split_off(rt: &impl Abort, service: &Service<MemDisk>, seat: &mut CallerSeat) -> CallerSeat
    requires lock { seat.old.lock ≡ service.now }
    requires weight { 2 ≤ seat.old.weight }
    ensures kept { seat.new ≡ lighter seat.old }
    ensures made { result.lock ≡ service.now }
{
    let Ok(other) = service.split(seat) else {
        panic!(rt; "no seat")
    };
    other
}

// One caller's work: its seat comes back, with its answer.
fn calls(
    rt: &impl Wait,
    alloc: Global,
    service: &Service<MemDisk>,
    mut seat: CallerSeat,
    bytes: Bytes,
) -> (CallerSeat, Option<(u32, bool)>)
    requires { seat.lock ≡ service.now }
    ensures lock { result.0.lock ≡ service.now }
    ensures weight { result.0.weight ≡ seat.weight }
{
    let answer = registers(rt, alloc, service, &mut seat, &bytes, 1_000);
    (seat, answer)
}

// Both at work. Their seats come back, with whether both statements were admitted behind the policy, in either order.
fn admits_both(
    rt: &(impl Wait + Threads + Sync),
    alloc: Global,
    service: &Service<MemDisk>,
    first: CallerSeat,
    second: CallerSeat,
    one: Bytes,
    other: Bytes,
) -> (CallerSeat, CallerSeat, bool)
    requires first { first.lock ≡ service.now }
    requires second { second.lock ≡ service.now }
    ensures first { result.0.lock ≡ service.now }
    ensures second { result.1.lock ≡ service.now }
{
    let ((first, said), (second, answered)) = thread::join(
        rt,
        move || calls(rt, alloc, service, first, one),
        move || calls(rt, alloc, service, second, other),
    );
    let in_order = said == Some((1, true)) && answered == Some((2, true));
    let turned = said == Some((2, true)) && answered == Some((1, true));
    (first, second, in_order || turned)
}

// Closes the service by a seat before the last one is joined, which is refused with the weight that is there, and then with it.
fn closed(
    rt: &impl Abort,
    service: Service<MemDisk>,
    first: CallerSeat,
    third: CallerSeat,
) -> Registrar<MemDisk>
    requires first { first.lock ≡ service }
    requires third { third.lock ≡ service }
{
    let Err(out) = service.close(first) else {
        panic!(rt; "a seat is out")
    };
    let SeatsOut {
        service,
        seat: mut first,
        weight,
    } = out;
    assert!(rt; weight == 1023);
    service.join(&mut first, third);
    let Ok(log) = service.close(first) else {
        panic!(rt; "all seats are there")
    };
    log
}

// What the log holds: both answers behind the policy, on the disk too.
fn holds_both(rt: &impl Abort, alloc: Global, mut log: Registrar<MemDisk>) {
    assert!(rt; log.size() == 3 && log.records() == 5 && log.next() == 3);
    match log.receipt(alloc, 3) {
        Err(ReadBack::NoEntry { index, size }) => assert!(rt; index == 3 && size == 3),
        _ => panic!(rt; "no entry of that index"),
    }
    match Registrar::load(alloc, log.close(), [7; 32], [9; 16]) {
        Ok(log) => assert!(rt; log.size() == 3),
        Err(_) => panic!(rt; "the log isn't loaded"),
    }
}

#[test]
fn two_callers_of_one_service(rt: HostRuntime) -> Result<(), Fail> {
    let alloc = rt.alloc();
    let mut cast = new_cast(alloc)?;
    let genesis = genesis(alloc, &mut cast)?;
    let one = issued(alloc, &mut cast, 0, ALG, &[0])?;
    let other = issued(alloc, &mut cast, 1, ALG, &[1])?;
    let (service, mut first) = opened(&rt, alloc, &cast)?;
    let second = split_off(&rt, &service, &mut first);
    let third = split_off(&rt, &service, &mut first);
    let answer = registers(&rt, alloc, &service, &mut first, &genesis, 1_000);
    assert!(rt; answer == Some((0, true)));
    let (mut first, second, both) = admits_both(&rt, alloc, &service, first, second, one, other);
    assert!(rt; both);
    service.join(&mut first, second);
    holds_both(&rt, alloc, closed(&rt, service, first, third));
    Ok(())
}
