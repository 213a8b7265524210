ghost use Rattle.std.specs.Prelude.{◌≡◌, ◌≤◌, ◌<◌, ◌/◌, ℕ, length, Ok, Err, MatchResult, slice_index};
ghost use Rattle.cbor_core.specs.Spells.{is_strict as strict_grammar};
ghost use Rattle.cbor_core.specs.Reading.{opened};
ghost use Rattle.cbor_feed.specs.Containers.{kind, refused_by, container_at};

use crate::heads::{Argument, argument_of};
use cbor_core::{Grammar, Why};

/// The most items of an array, and the most pairs of a map.
const MOST_PARTS: u64 = 4096;

/// A container by its head: the number of an array's items or a map's pairs, or a tag's number.
#[derive(Clone, Copy)]
pub enum Container {
    Array(u64),
    Map(u64),
    Tag(u64),
}

/// Whether the grammar is the strict one.
pub fn is_strict(g: Grammar) -> bool
    ensures { result ≡ strict_grammar g }
{
    match g {
        Grammar::Strict => true,
        Grammar::Wide => false,
    }
}

fn refused(g: Grammar, room: u8, major: u8, argument: Argument) -> Option<Why>
    ensures { result ≡ refused_by g room major argument }
{
    if is_strict(g) && argument.value < argument.least {
        return Some(Why::NotShortest);
    }
    if major < 6 && argument.value > MOST_PARTS {
        return Some(Why::TooLong);
    }
    if room == 0 {
        return Some(Why::TooDeep);
    }
    None
}

fn kind_of(major: u8, n: u64) -> Container
    ensures { result ≡ kind major n }
{
    if major == 4 {
        return Container::Array(n);
    }
    if major == 5 {
        return Container::Map(n);
    }
    Container::Tag(n)
}

/// The container whose head is at the front of the bytes and what follows its head, or the first fault of that head.
pub fn container_of(g: Grammar, room: u8, bytes: &[u8]) -> Result<(Container, &[u8]), Why>
    requires not_empty { 0 < length bytes.now }
    requires from { 4 ≤ slice_index bytes.now 0 / 32 }
    requires to { slice_index bytes.now 0 / 32 < 7 }
    ensures { MatchResult result (λ x. container_at (opened g room bytes.now) ≡ Ok (x.0, x.1.now)) (λ why. opened g room bytes.now ≡ Err (record { left = length bytes.now; why = why })) }
{
    let major = bytes[0] / 32;
    let (argument, rest) = match argument_of(bytes) {
        Ok(read) => read,
        Err(why) => return Err(why),
    };
    match refused(g, room, major, argument) {
        Some(why) => Err(why),
        None => Ok((kind_of(major, argument.value), rest)),
    }
}
