ghost use Rattle.std.specs.Prelude.{◌≡◌, ◌++◌, [], ◌∷◌, MatchBool};

use crate::notes::{Notes, Silent};
use std::process::Abort;
use std::sync::Wait;
use std::test::Fail;
use std::thread;
use turn_lock::{CallerSeat, SeatsOut, TurnLock};

const TURNS: u8 = 100;

// One turn: where it answers true, the line stands behind all that the turn found.
fn add(rt: &impl Wait, lock: &TurnLock<Notes>, seat: &mut CallerSeat, line: &[u8]) -> bool
    requires { seat.old.lock ≡ lock.now }
    ensures lock { seat.new.lock ≡ lock.now }
    ensures weight { seat.new.weight ≡ seat.old.weight }
    ensures line { MatchBool result (seat.new.seen ≡ seat.new.found ++ line.now ∷ []) (seat.new.seen ≡ seat.new.found) }
{
    lock.with(rt, seat, |notes: &mut Notes| notes.add(line))
}

// A hundred turns, each with a line of this mark and the turn's number.
fn add_all(
    rt: &impl Wait,
    lock: &TurnLock<Notes>,
    mut seat: CallerSeat,
    mark: u8,
) -> (CallerSeat, bool)
    requires { seat.lock ≡ lock.now }
    ensures lock { result.0.lock ≡ lock.now }
    ensures weight { result.0.weight ≡ seat.weight }
{
    let mut added = true;
    for turn in 0..TURNS {
        added = add(rt, lock, &mut seat, &[mark, turn]) && added;
    }
    (seat, added)
}

// The lines of a mark stand in their order, and all of them.
fn in_order(notes: &Notes, mark: u8) -> bool {
    let mut next = 0u8;
    for line in notes.lines() {
        if let [by, turn] = line.as_slice() {
            if *by == mark {
                if *turn != next || next == TURNS {
                    return false;
                }
                next += 1;
            }
        }
    }
    next == TURNS
}

#[test]
fn two_seats_on_two_threads(rt: HostRuntime) -> Result<(), Fail> {
    let Ok((lock, mut first)) = TurnLock::new(rt.alloc(), Notes::new(rt.alloc())) else {
        panic!(rt; "there was no memory")
    };
    let second = lock.split(&mut first)?;
    let third = lock.split(&mut first)?;
    assert_eq!(rt;
        (first.weight(), second.weight(), third.weight()),
        (1022, 1, 1)
    );
    let shared = &lock;
    let handle = &rt;
    let ((mut first, a), (second, b)) = thread::join(
        handle,
        move || add_all(handle, shared, first, b'a'),
        move || add_all(handle, shared, second, b'b'),
    );
    assert!(rt; a && b);
    lock.join(&mut first, second);
    assert_eq!(rt; first.weight(), 1023);
    let Err(out) = lock.close(first) else {
        panic!(rt; "a seat is out")
    };
    let SeatsOut {
        lock,
        mut seat,
        weight,
    } = out;
    assert_eq!(rt; weight, 1023);
    assert!(rt; add(&rt, &lock, &mut seat, b"more"));
    lock.join(&mut seat, third);
    assert_eq!(rt; seat.weight(), 1024);
    let Ok(notes) = lock.close(seat) else {
        panic!(rt; "all seats are there")
    };
    assert_eq!(rt; notes.lines().len(), 201);
    assert_eq!(rt;
        notes.lines().last().ok_or("no line")?.as_slice(),
        b"more".as_slice()
    );
    assert!(rt; in_order(&notes, b'a') && in_order(&notes, b'b'));
    Ok(())
}

fn count(rt: &impl Wait, lock: &TurnLock<Silent>, mut seat: CallerSeat) -> CallerSeat
    requires { seat.lock ≡ lock.now }
    ensures lock { result.lock ≡ lock.now }
    ensures weight { result.weight ≡ seat.weight }
{
    for _ in 0..1000 {
        lock.with(
            rt,
            &mut seat,
            |silent: &mut Silent| silent.count = silent.count.wrapping_add(1),
        );
    }
    seat
}

#[test]
fn a_value_that_tells_nothing(rt: HostRuntime) -> Result<(), Fail> {
    let Ok((lock, mut first)) = TurnLock::new(rt.alloc(), Silent { count: 5 }) else {
        panic!(rt; "there was no memory")
    };
    let second = lock.split(&mut first)?;
    let shared = &lock;
    let handle = &rt;
    let (mut first, second) = thread::join(
        handle,
        move || count(handle, shared, first),
        move || count(handle, shared, second),
    );
    let last = lock.with(&rt, &mut first, |silent: &mut Silent| silent.count);
    assert_eq!(rt; last, 2005);
    lock.join(&mut first, second);
    let Ok(silent) = lock.close(first) else {
        panic!(rt; "all seats are there")
    };
    assert_eq!(rt; silent.count, 2005);
    Ok(())
}
