//! Links, clocks and random bytes.
use scitt_io::{
    Clock, ClockFault, MemClock, MemLink, RandomSource, ReadFault, Sink, Source, SureClock,
    SureLink, TcpLink, WallClock, WriteFault, write_all,
};
use std::net::{TcpListener, TcpStream};
use std::test::Fail;
use std::time::Duration;

// The calls of both halves are counted together, and the faults of both are summed.
#[test]
fn counts_both_halves(rt: HostRuntime) -> Result<(), Fail> {
    let alloc = rt.alloc();
    let fails = Vec::from_slice(alloc, &[1, 2, 4])?;
    let mut link = MemLink::new(alloc, Vec::from_slice(alloc, b"abc")?, fails);
    let mut buf = [0; 2];
    assert_eq!(rt; link.read(&mut buf).ok(), Some(2));
    assert_eq!(rt; link.write(b"x").err(), Some(WriteFault));
    assert_eq!(rt; link.read(&mut buf).err(), Some(ReadFault));
    assert_eq!(rt; link.write(b"yz").ok(), Some(2));
    assert_eq!(rt; link.write(b"y").err(), Some(WriteFault));
    assert_eq!(rt; link.read(&mut buf).ok(), Some(1));
    assert_eq!(rt; buf, *b"cb");
    assert_eq!(rt; link.read(&mut buf).ok(), Some(0));
    assert_eq!(rt; link.faults(), 3);
    assert_eq!(rt; link.into_content().as_slice(), b"yz".as_slice());
    let mut sure = SureLink::new(Vec::from_slice(alloc, b"a")?);
    assert_eq!(rt; sure.write(b"gone").ok(), Some(4));
    assert_eq!(rt; sure.read(&mut buf).ok(), Some(1));
    assert_eq!(rt; sure.read(&mut buf).ok(), Some(0));
    Ok(())
}

// The moments come in their order, a listed call takes none, and after the last each call is a fault.
#[test]
fn gives_the_moments_in_order(rt: HostRuntime) -> Result<(), Fail> {
    let alloc = rt.alloc();
    let moments = Vec::from_slice(alloc, &[5, 7])?;
    let mut clock = MemClock::new(moments, Vec::from_slice(alloc, &[1])?);
    assert_eq!(rt; clock.now().ok(), Some(5));
    assert_eq!(rt; clock.now().err(), Some(ClockFault));
    assert_eq!(rt; clock.faults(), 1);
    assert_eq!(rt; clock.now().ok(), Some(7));
    assert_eq!(rt; clock.now().err(), Some(ClockFault));
    assert_eq!(rt; clock.now().err(), Some(ClockFault));
    assert_eq!(rt; clock.faults(), 3);
    let mut sure = SureClock::new(9);
    assert_eq!(rt; sure.now().ok(), Some(9));
    assert_eq!(rt; sure.now().ok(), Some(9));
    Ok(())
}

// The system's clock is behind the year 2020, and doesn't go back here.
#[test]
fn reads_the_wall_clock(rt: HostRuntime) -> Result<(), Fail> {
    let mut clock = WallClock::new(&rt);
    let first = clock.now()?;
    let second = clock.now()?;
    assert!(rt; first > 1_577_836_800);
    assert!(rt; second >= first);
    Ok(())
}

// Two pieces of random bytes differ, but for a chance of one in 2 to the power of 384.
#[test]
fn reads_random_bytes(rt: HostRuntime) -> Result<(), Fail> {
    let mut random = RandomSource::new(&rt);
    let mut pieces = [[0; 48]; 2];
    for i in 0..2 {
        let mut piece = [0; 48];
        assert_eq!(rt; random.read(&mut piece).ok(), Some(48));
        pieces[i] = piece;
    }
    assert!(rt; pieces[0] != pieces[1]);
    assert_eq!(rt; random.read(&mut []).ok(), Some(0));
    Ok(())
}

// Two ends of a connection: what is written at one is read at the other; a read that finds nothing in time is a fault, and
// what was written and read before it stands; where the other end has gone, the input is at its end.
#[test]
fn connects_two_ends(rt: HostRuntime) -> Result<(), Fail> {
    let listener = TcpListener::bind(&rt, "127.0.0.1:0")?;
    let address = listener.local_addr()?;
    let near = TcpStream::connect(&rt, address)?;
    let (far, _) = listener.accept()?;
    let limit = Duration::from_millis(50);
    let mut near = TcpLink::new(near, limit)?;
    let mut far = TcpLink::new(far, limit)?;
    let mut buf = [0; 8];
    assert_eq!(rt; near.write(b"").ok(), Some(0));
    assert_eq!(rt; write_all(&mut near, b"there").ok(), Some(()));
    assert_eq!(rt; far.read(&mut buf).ok(), Some(5));
    assert_eq!(rt; buf, *b"there\0\0\0");
    assert_eq!(rt; far.read(&mut buf).err(), Some(ReadFault));
    assert_eq!(rt; write_all(&mut far, b"back").ok(), Some(()));
    assert_eq!(rt; near.read(&mut buf).ok(), Some(4));
    drop(far);
    assert_eq!(rt; near.read(&mut buf).ok(), Some(0));
    Ok(())
}
