// A connection that ends in time.

use std::io;
use std::io::{ErrorKind, Read, Write};
use std::net::{OpenStream, TcpStream};
use std::time::{Clock, Duration, Instant};

/// A connection of which no read and no write is begun once its time is over.
#[derive(Drop)]
pub struct TimedStream<'a, R: Clock> {
    clock: &'a R,
    stream: &'a TcpStream,
    from: Instant,
    limit: Duration,
}

impl<'a, R: Clock> TimedStream<'a, R> {
    /// This connection, for so long from now on.
    pub fn new(clock: &'a R, stream: &'a TcpStream, limit: Duration) -> io::Result<Self> {
        let from = Instant::now(clock)?;
        Ok(TimedStream {
            clock,
            stream,
            from,
            limit,
        })
    }

    fn in_time(&self) -> io::Result<()> {
        if self.from.elapsed(self.clock)? >= self.limit {
            return Err(io::Error::from(ErrorKind::TimedOut));
        }
        Ok(())
    }
}

impl<'a, R: Clock> Read for TimedStream<'a, R> {
    fn read(&mut self, buf: &mut [u8]) -> io::Result<usize> {
        self.in_time()?;
        let mut stream = self.stream;
        stream.read(buf)
    }
}

impl<'a, R: Clock> Write for TimedStream<'a, R> {
    fn write(&mut self, buf: &[u8]) -> io::Result<usize> {
        self.in_time()?;
        let mut stream = self.stream;
        stream.write(buf)
    }

    fn flush(&mut self) -> io::Result<()> {
        Ok(())
    }
}

impl<'a, R: Clock> OpenStream for TimedStream<'a, R> {
    fn set_read_timeout(&self, dur: Option<Duration>) -> io::Result<()> {
        self.stream.set_read_timeout(dur)
    }

    fn set_write_timeout(&self, dur: Option<Duration>) -> io::Result<()> {
        self.stream.set_write_timeout(dur)
    }
}
