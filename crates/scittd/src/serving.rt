// The workers and their connections.

ghost use Rattle.std.specs.Prelude.{◌≡◌, ◌<◌, All, IfOk, IfErr, length};
ghost use Rattle.turn_lock.specs.Calls.{Caller};
ghost use Rattle.scittd.specs.Seats.{IsSeated};
ghost use Rattle.scittd.specs.declared.fault.StartFault.TheVariants.{NoMemory};

use crate::fault::StartFault;
use crate::timed::TimedStream;
use scitt_answers::{NoGate, SessionEnd};
use scitt_disk::Disk;
use scitt_io::{TcpLink, WallClock};
use scitt_service::Service;
use scrapi::serve_connection;
use std::alloc::Global;
use std::io::Read;
use std::net::{Shutdown, TcpListener, TcpStream};
use std::sync::Wait;
use std::thread::Threads;
use std::time::{Clock, Duration};
use std::{io, thread};
use turn_lock::CallerSeat;

/// How long a worker waits for a peer in one read or write, in seconds.
const WAIT_LIMIT: u64 = 10;

/// How long a connection may take in all, in seconds; no read or write is begun after it.
const CONNECTION_LIMIT: u64 = 120;

/// How long a worker rests where no connection can be accepted, in milliseconds.
const REST: u64 = 100;

/// How long a worker takes what a peer still sends after the last answer, in seconds, and how long it waits for that.
const LEAVE_LIMIT: u64 = 5;

/// How many reads are made of it.
const LEAVE_READS: u32 = 2048;

/// A server that has started: where it listens, its service, and a seat of it for each worker.
#[derive(Drop)]
pub struct Server<D: Disk> {
    pub listener: TcpListener,
    pub service: Service<D>,
    pub seats: Vec<CallerSeat>,
}

/// A seat for each worker, split from the first.
pub fn seats_of<D: Disk>(
    alloc: Global,
    service: &Service<D>,
    first: &mut CallerSeat,
    workers: usize,
) -> Result<Vec<CallerSeat>, StartFault>
    requires lock { first.old.lock ≡ service.now }
    requires weight { workers < first.old.weight }
    ensures seats { IfOk result (λ seats. All (λ (seat : Caller). seat.lock ≡ service.now) seats.items) }
    ensures count { IfOk result (λ seats. length seats.items ≡ workers) }
    ensures memory { IfErr result (λ fault. fault ≡ NoMemory) }
{
    let mut seats = Vec::new(alloc);
    while seats.len() < workers {
        let Ok(seat) = service.split(first) else {
            return Err(StartFault::NoMemory);
        };
        if seats.push(seat).is_err() {
            return Err(StartFault::NoMemory);
        }
    }
    Ok(seats)
}

/// Takes what is still sent.
fn take_rest<S: Read>(stream: &mut S) {
    let mut rest = [0; 4096];
    for _ in 0..LEAVE_READS {
        match stream.read(&mut rest) {
            Ok(count) if count > 0 => {}
            _ => return,
        }
    }
}

/// Serves one connection to its end.
fn serve_stream<R: Clock + Wait, D: Disk>(
    rt: &R,
    alloc: Global,
    service: &Service<D>,
    seat: &mut CallerSeat,
    stream: &TcpStream,
) -> io::Result<()>
    requires { seat.old.lock ≡ service.now }
    ensures { seat.new.lock ≡ service.now }
{
    stream.set_nodelay(true)?;
    let timed = TimedStream::new(rt, stream, Duration::from_secs(CONNECTION_LIMIT))?;
    let mut link = TcpLink::new(timed, Duration::from_secs(WAIT_LIMIT))?;
    let mut clock = WallClock::new(rt);
    let end = serve_connection(rt, alloc, service, seat, &mut link, &mut clock, &mut NoGate);
    match end {
        SessionEnd::ReadFault | SessionEnd::WriteFault => Ok(()),
        _ => close_stream(rt, stream),
    }
}

/// Closes a connection of which the last answer was written. What the peer still sends is taken first, so that the answer isn't lost to it.
fn close_stream<R: Clock>(rt: &R, stream: &TcpStream) -> io::Result<()> {
    let limit = Duration::from_secs(LEAVE_LIMIT);
    stream.shutdown(Shutdown::Write)?;
    stream.set_read_timeout(Some(limit))?;
    take_rest(&mut TimedStream::new(rt, stream, limit)?);
    Ok(())
}

/// Serves one connection after another.
fn work<R: Clock + Wait, D: Disk>(
    rt: &R,
    alloc: Global,
    listener: &TcpListener,
    service: &Service<D>,
    seat: &mut CallerSeat,
)
    requires { seat.old.lock ≡ service.now }
    ensures { seat.new.lock ≡ service.now }
{
    for accepted in listener.incoming() {
        match accepted {
            Ok(stream) => {
                let _ = serve_stream(rt, alloc, service, seat, &stream);
            }
            Err(_) => thread::sleep(rt, Duration::from_millis(REST)),
        }
    }
}

/// Starts a worker for each seat of the server. Each serves one connection after another.
pub fn serve<R: Clock + Threads + Wait + Sync, D: Disk + Send>(
    rt: &R,
    alloc: Global,
    server: &mut Server<D>,
)
    requires { IsSeated server.old }
{
    let listener = &server.listener;
    let service = &server.service;
    let workers = server.seats.len();
    thread::for_each_mut(
        rt,
        server.seats.as_mut_slice(),
        workers,
        &|_, seat| work(rt, alloc, listener, service, seat),
    );
}
