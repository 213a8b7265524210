// One connection, and what its peer hears, as text.
use crate::requests::{Request, spelled};
use cbor_core::Bytes;
use registrar::Registrar;
use scitt_answers::{SessionEnd, serve_local};
use scitt_disk::MemDisk;
use scitt_io::{MemClock, MemLink};
use std::alloc::Global;
use std::test::Fail;
use test_cast::digest;

/// What a peer sends, how many of these bytes come where not all do, the moments of the clock, and the calls at which the link and the
/// clock fail.
#[derive(Clone, Copy)]
pub struct Talk {
    pub sent: &'static [Request],
    pub cut: Option<usize>,
    pub moments: &'static [u64],
    pub link_fails: &'static [u32],
    pub clock_fails: &'static [u32],
}

/// A connection on which nothing is sent and nothing fails.
pub const QUIET: Talk = Talk {
    sent: &[],
    cut: None,
    moments: &[],
    link_fails: &[],
    clock_fails: &[],
};

fn told_end(end: SessionEnd) -> &'static str {
    match end {
        SessionEnd::Ended => "ended",
        SessionEnd::CutShort => "cut short",
        SessionEnd::HeadRefused => "head refused",
        SessionEnd::TurnsSpent => "turns spent",
        SessionEnd::ReadFault => "read fault",
        SessionEnd::WriteFault => "write fault",
        SessionEnd::OutOfMemory => "no memory",
    }
}

fn link_of(alloc: Global, statements: &[Bytes], talk: &Talk) -> Result<MemLink, Fail> {
    let fails = Vec::from_slice(alloc, talk.link_fails)?;
    let mut sent = spelled(alloc, statements, talk.sent)?;
    if let Some(len) = talk.cut {
        sent.truncate(len);
    }
    Ok(MemLink::new(alloc, sent, fails))
}

fn clock_of(alloc: Global, talk: &Talk) -> Result<MemClock, Fail> {
    let fails = Vec::from_slice(alloc, talk.clock_fails)?;
    let moments = Vec::from_slice(alloc, talk.moments)?;
    Ok(MemClock::new(moments, fails))
}

fn told(alloc: Global, end: SessionEnd, link: MemLink, clock_faults: u64) -> Result<String, Fail> {
    let end = told_end(end);
    let link_faults = link.faults();
    let heard = link.into_content();
    let len = heard.len();
    let hash = digest(alloc, &heard)?;
    Ok(format!(in alloc; "{end} {link_faults} {clock_faults} {len} {hash}\n")?)
}

/// How the connection ended, how often its link and its clock failed, how many bytes were heard, and their SHA-256: a line.
pub fn talked(
    alloc: Global,
    log: &mut Registrar<MemDisk>,
    statements: &[Bytes],
    talk: &Talk,
) -> Result<String, Fail> {
    let mut clock = clock_of(alloc, talk)?;
    let mut link = link_of(alloc, statements, talk)?;
    let end = serve_local(alloc, log, &mut link, &mut clock);
    told(alloc, end, link, clock.faults())
}
