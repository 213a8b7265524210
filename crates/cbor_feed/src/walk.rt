ghost use Rattle.std.specs.Prelude.{◌≡◌, ℕ, ◌≤◌, IfOk, length, reverse};
ghost use Rattle.cbor_feed.specs.Chains.{opened_parts};
ghost use Rattle.cbor_feed.specs.Chains.{room_of, start_of, Chain, IsRead, IsStopped, HasSettled, HasWalked};

use crate::containers::Container;
use crate::frames::{Frame, Parts, Span, Step, frame_with};
use crate::keys::KeyedPairs;
use crate::parts::{Part, PartStop, part_of};
use cbor_core::{Fault, Grammar, Item, Why, read_keys_are_spelled};
use sqlite_items::Items;
use std::alloc::{AllocError, Global};

/// The most arrays, maps and tags that are open at once, each inside the one before.
const MOST_CONTAINERS: usize = 16;

/// What an item came to that the containers around it were handed.
#[derive(Drop)]
pub enum Settled {
    /// One of them wants another part.
    Goes,
    /// All of them are whole: the outermost item.
    Whole(Item),
    /// A map has no place for a key.
    Stuck(Fault),
}

/// What the bytes so far come to.
#[derive(Drop)]
pub enum Walked {
    /// They end before the item does.
    Cut,
    /// The item, and how many bytes spell it.
    Whole(Item, usize),
    /// The first fault, which isn't that they end.
    Stuck(Fault),
}

/// Where the next part of the innermost container begins.
pub fn place(frames: &[Frame]) -> usize
    ensures { result ≡ start_of (reverse frames.now) }
{
    match frames.last() {
        Some(frame) => frame.start,
        None => 0,
    }
}

// How many containers may be opened inside these.
fn room_in(frames: &[Frame]) -> u8
    ensures { result ≡ room_of (reverse frames.now) }
{
    MOST_CONTAINERS.saturating_sub(frames.len()) as u8
}

fn parts_of(alloc: Global, room: u8, container: Container) -> Parts
    ensures { result ≡ opened_parts container }
{
    match container {
        Container::Array(n) => Parts::Items(n.saturating_sub(1), Items::new(alloc)),
        Container::Map(n) => Parts::Key(
            n.saturating_sub(1),
            KeyedPairs::new(alloc, room),
            Span { from: 0, to: 0 },
        ),
        Container::Tag(n) => Parts::Tag(n),
    }
}

fn stopped(at: usize, why: Why) -> Walked
    ensures { IsStopped at why result }
{
    if why == Why::Truncated {
        return Walked::Cut;
    }
    let at = at as u64;
    Walked::Stuck(Fault { at, why })
}

// Hands an item, which ends there, to the innermost container, and what is whole by it to the one around it.
fn settle(
    alloc: Global,
    g: Grammar,
    frames: &mut Vec<Frame>,
    held: &[u8],
    item: Item,
    end: usize,
) -> Result<Settled, AllocError>
    requires chain { Chain g (reverse frames.old.items) held.now }
    requires item { IsRead g (reverse frames.old.items) held.now item end }
    ensures { IfOk result (λ settled. HasSettled g (reverse frames.new.items) held.now end settled) }
{
    read_keys_are_spelled();
    let mut item = item;
    while let Some(frame) = frames.pop() {
        let start = frame.start;
        let room = room_in(frames.as_slice()).saturating_sub(1);
        match frame_with(alloc, g, room, held, frame, item, end)? {
            Step::Goes(frame) => {
                frames.push(frame)?;
                return Ok(Settled::Goes);
            }
            Step::Whole(whole) => item = whole,
            Step::Stuck(why) => {
                let at = start as u64;
                return Ok(Settled::Stuck(Fault { at, why }));
            }
        }
    }
    Ok(Settled::Whole(item))
}

/// Reads on from where the containers under work want their next part, as far as the bytes go.
pub fn walk(
    alloc: Global,
    g: Grammar,
    frames: &mut Vec<Frame>,
    held: &[u8],
) -> Result<Walked, AllocError>
    requires chain { Chain g (reverse frames.old.items) held.now }
    requires place { start_of (reverse frames.old.items) ≤ length held.now }
    ensures { IfOk result (λ walked. HasWalked g (reverse frames.new.items) held.now walked) }
{
    let mut at = place(frames.as_slice());
    loop {
        let room = room_in(frames.as_slice());
        match part_of(alloc, g, room, &held[at..]) {
            Ok(Part::Whole(item, len)) => {
                at += len;
                match settle(alloc, g, frames, held, item, at)? {
                    Settled::Goes => {}
                    Settled::Whole(item) => return Ok(Walked::Whole(item, at)),
                    Settled::Stuck(fault) => return Ok(Walked::Stuck(fault)),
                }
            }
            Ok(Part::Opens(container, len)) => {
                at += len;
                frames.push(Frame {
                    start: at,
                    parts: parts_of(alloc, room.saturating_sub(1), container),
                })?;
            }
            Err(PartStop::At(why)) => return Ok(stopped(at, why)),
            Err(PartStop::Memory) => return Err(AllocError),
        }
    }
}
