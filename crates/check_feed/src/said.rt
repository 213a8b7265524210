use cbor_core::{DecodeStop, Fault, Grammar, Item, decode_strict, decode_wide, same_item};
use cbor_feed::{Fed, Feed};
use std::alloc::{AllocError, Global};

/// What a feed, or a decoder of all the bytes, says of them.
#[derive(Drop)]
pub enum Verdict {
    /// An item and how many bytes spell it.
    Item(Item, usize),
    Fault(Fault),
    OutOfMemory,
}

pub fn decoded(alloc: Global, grammar: Grammar, bytes: &[u8]) -> Verdict {
    let answer = match grammar {
        Grammar::Strict => decode_strict(alloc, bytes),
        Grammar::Wide => decode_wide(alloc, bytes),
    };
    match answer {
        Ok((item, len)) => Verdict::Item(item, len),
        Err(DecodeStop::Fault(fault)) => Verdict::Fault(fault),
        Err(DecodeStop::OutOfMemory) => Verdict::OutOfMemory,
    }
}

/// What the feed gives in the end, where so many bytes were used.
fn finished(feed: Feed, used: usize) -> Verdict {
    match feed.finish() {
        Ok(item) => Verdict::Item(item, used),
        Err(DecodeStop::Fault(fault)) => Verdict::Fault(fault),
        Err(DecodeStop::OutOfMemory) => Verdict::OutOfMemory,
    }
}

/// What a feed says of the bytes in two pieces, cut there.
pub fn fed_in_two(alloc: Global, grammar: Grammar, bytes: &[u8], cut: usize) -> Verdict {
    let (front, back) = bytes.split_at(cut.min(bytes.len()));
    let mut feed = Feed::new(alloc, grammar);
    match feed.push(front) {
        Fed::NeedMore => {}
        Fed::Done(used) => return finished(feed, used),
        Fed::Fault(_) | Fed::OutOfMemory => return finished(feed, 0),
    }
    match feed.push(back) {
        Fed::Done(used) => finished(feed, front.len().saturating_add(used)),
        Fed::NeedMore | Fed::Fault(_) | Fed::OutOfMemory => finished(feed, 0),
    }
}

/// What a feed says of the bytes one by one.
pub fn fed_by_bytes(alloc: Global, grammar: Grammar, bytes: &[u8]) -> Verdict {
    let mut feed = Feed::new(alloc, grammar);
    for (i, byte) in bytes.iter().enumerate() {
        match feed.push(&[*byte]) {
            Fed::NeedMore => {}
            Fed::Done(used) => return finished(feed, i.saturating_add(used)),
            Fed::Fault(_) | Fed::OutOfMemory => return finished(feed, 0),
        }
    }
    finished(feed, 0)
}

/// Whether both say the same.
pub fn agree(a: &Verdict, b: &Verdict) -> bool {
    match (a, b) {
        (Verdict::Item(x, m), Verdict::Item(y, n)) => *m == *n && same_item(x, y),
        (Verdict::Fault(x), Verdict::Fault(y)) => x.at == y.at && x.why == y.why,
        (Verdict::OutOfMemory, Verdict::OutOfMemory) => true,
        _ => false,
    }
}

/// The verdict in words: of bytes behind an item as of a decoder that takes all of them.
fn told(alloc: Global, verdict: &Verdict, len: usize) -> Result<String, AllocError> {
    match verdict {
        Verdict::Item(_, used) => {
            let used = *used;
            if used == len {
                return String::from_str(alloc, "ok");
            }
            format!(in alloc; "Trailing at {used}")
        }
        Verdict::Fault(fault) => {
            let why = fault.why;
            let at = fault.at;
            format!(in alloc; "{why:?} at {at}")
        }
        Verdict::OutOfMemory => String::from_str(alloc, "out of memory"),
    }
}

fn fed_said(alloc: Global, grammar: Grammar, bytes: &[u8]) -> Result<String, AllocError> {
    let whole = fed_by_bytes(alloc, grammar, bytes);
    for cut in 0..bytes.len() {
        if !agree(&fed_in_two(alloc, grammar, bytes, cut), &whole) {
            return format!(in alloc; "cut at {cut} another answer");
        }
    }
    told(alloc, &whole, bytes.len())
}

/// The input, and behind it what the feeds say.
pub fn line_said(alloc: Global, line: &str) -> Result<String, AllocError> {
    let Ok(bytes) = hex::decode(alloc, line) else {
        return String::from_str(alloc, "no hexadecimal");
    };
    let strict = fed_said(alloc, Grammar::Strict, bytes.as_slice())?;
    let wide = fed_said(alloc, Grammar::Wide, bytes.as_slice())?;
    format!(in alloc; "{line}|{strict}|{wide}")
}
