ghost use Rattle.std.specs.Prelude.{◌≡◌, ◌<◌, ◌/◌, ◌⊎◌, length, slice_index};
ghost use Rattle.cbor_core.specs.Decoding.{Decoded};
ghost use Rattle.cbor_feed.specs.Parts.{IsPart, opening};

use crate::containers::{Container, container_of};
use cbor_core::{DecodeStop, Grammar, Item, Node, Why, decode_strict, decode_wide};
use sqlite_items::Items;
use std::alloc::Global;

/// What stands at the front of the bytes, with how many bytes it has.
#[derive(Drop)]
pub enum Part {
    /// An item that holds no other.
    Whole(Item, usize),
    /// The head of a container that holds at least one part.
    Opens(Container, usize),
}

/// Why nothing was found there.
#[derive(Clone, Copy)]
pub enum PartStop {
    /// The first fault, which is of the head or the string at the front.
    At(Why),
    /// Memory ran out.
    Memory,
}

fn decode(alloc: Global, g: Grammar, bytes: &[u8]) -> Result<(Item, usize), DecodeStop>
    ensures { Decoded g bytes.now result }
{
    match g {
        Grammar::Strict => decode_strict(alloc, bytes),
        Grammar::Wide => decode_wide(alloc, bytes),
    }
}

fn leaf_of(alloc: Global, g: Grammar, room: u8, bytes: &[u8]) -> Result<Part, PartStop>
    requires not_empty { 0 < length bytes.now }
    requires leaf { (slice_index bytes.now 0 / 32 < 4) ⊎ (slice_index bytes.now 0 / 32 ≡ 7) }
    ensures { IsPart g room bytes.now result }
{
    match decode(alloc, g, bytes) {
        Ok((item, len)) => Ok(Part::Whole(item, len)),
        Err(DecodeStop::Fault(fault)) => Err(PartStop::At(fault.why)),
        Err(DecodeStop::OutOfMemory) => Err(PartStop::Memory),
    }
}

fn opening_of(alloc: Global, container: Container, len: usize) -> Part
    ensures { result ≡ opening container len }
{
    match container {
        Container::Array(n) => {
            if n == 0 {
                return Part::Whole(
                    Item {
                        node: Node::Array(Items::new(alloc)),
                    },
                    len,
                );
            }
            Part::Opens(Container::Array(n), len)
        }
        Container::Map(n) => {
            if n == 0 {
                return Part::Whole(
                    Item {
                        node: Node::Map(Items::new(alloc)),
                    },
                    len,
                );
            }
            Part::Opens(Container::Map(n), len)
        }
        Container::Tag(n) => Part::Opens(Container::Tag(n), len),
    }
}

/// The item or the head of a container at the front of the bytes, where so many containers may still be opened, or the first fault there.
pub fn part_of(alloc: Global, g: Grammar, room: u8, bytes: &[u8]) -> Result<Part, PartStop>
    ensures { IsPart g room bytes.now result }
{
    if bytes.is_empty() {
        return Err(PartStop::At(Why::Truncated));
    }
    let major = bytes[0] / 32;
    if major < 4 {
        return leaf_of(alloc, g, room, bytes);
    }
    if major == 7 {
        return leaf_of(alloc, g, room, bytes);
    }
    match container_of(g, room, bytes) {
        Ok((container, rest)) => Ok(opening_of(
            alloc,
            container,
            bytes.len().saturating_sub(rest.len()),
        )),
        Err(why) => Err(PartStop::At(why)),
    }
}
