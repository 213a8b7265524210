// The bytes at one gate of a log.
ghost use Rattle.std.specs.Prelude.{◌≡◌, ℕ, ◌+◌, ◌<◌, ◌≤◌, ◌^◌, [], ◌∷◌, ◌++◌, List, length, take, Option, Some, None, IsErrOf, is_some};
ghost use Rattle.std.specs.Io.KnownBytes.{IsAtEnd};
ghost use Rattle.scitt_journal.specs.Layout.{size_bytes, size_in, spelled, AllFit, Cut};
ghost use Rattle.log_replay.specs.Records.{Log};
ghost use Rattle.auditor.specs.Streams.{Says, HasReadCause};
ghost use Rattle.auditor.specs.Fetches.{Took, IsBehind, Reads, AreBefore, gate_bytes, read_of};

use crate::answers::Ended;
use crate::fetching::{count_rest, fetch};
use crate::record::length_of;
use cbor_core::Bytes;
use scitt_io::{ReadStop, Source};
use std::alloc::Global;

/// An open gate.
const OPEN: u8 = 1;

/// A record's body and the gate behind it.
#[derive(Drop)]
pub(crate) struct Whole {
    pub body: Bytes,
    pub gate: u8,
}

/// What follows an open gate: a record and the next gate, or too few bytes for them, so many.
#[derive(Drop)]
pub(crate) enum Behind {
    Whole(Whole),
    Cut(u64),
}

// What follows the length at an open gate, as many bytes as it wants and one more, or fewer.
fn parted(four: &[u8], size: u32, bytes: Vec<u8>) -> Behind
    requires four { length four.now ≡ 4 }
    requires size { size ≡ size_in four.now }
    requires spells { size_bytes size ≡ four.now }
    requires most { length bytes.items ≤ size + 1 }
    ensures { (left : Option (List ℕ)) → (length bytes.items < size + 1 → IsAtEnd left) → IsBehind (four.now ++ bytes.items) left result }
{
    let mut body = bytes;
    if body.len() as u64 <= u64::from(size) {
        return Behind::Cut(4 + body.len() as u64);
    }
    match body.pop() {
        None => unreachable!(),
        Some(gate) => Behind::Whole(Whole {
            body: Bytes::from_vec(body),
            gate,
        }),
    }
}

// What follows an open gate.
fn read_behind_gate<S: Source>(alloc: Global, source: &mut S, room: u64) -> Result<Behind, ReadStop>
    ensures took { Took room IsBehind (S.left source.old) (S.left source.new) result }
    ensures telling { is_some (S.left source.new) ≡ is_some (S.left source.old) }
    ensures cause { HasReadCause (S.faults source.old) (S.faults source.new) (IsErrOf result ReadStop.ReadFault) }
    ensures keeps { S.read_keeps source.old source.new }
{
    let four = fetch(alloc, source, 4, room)?;
    if four.len() < 4 {
        return Ok(Behind::Cut(four.len() as u64));
    }
    let size = length_of(&four);
    let bytes = fetch(alloc, source, u64::from(size) + 1, room - 4)?;
    Ok(parted(&four, size, bytes))
}

// Why no record follows a gate that isn't open, and so many bytes behind it.
fn shut(place: u64, rest: u64) -> Ended
    ensures says { (R : Log) (gate : ℕ) (bytes : List ℕ) (left : Option (List ℕ)) → AreBefore R place (Some gate) → (gate ≡ 1 → ⊥) → rest ≡ length bytes → IsAtEnd left
        → Says R (spelled R ++ gate ∷ bytes) left (read_of result) [] }
    ensures told { (result ≡ Ended.ReadFault → ⊥) × (result ≡ Ended.TooLong → ⊥) }
{
    if place == 0 {
        Ended::NoLog
    } else {
        Ended::End(rest)
    }
}

// Why no record follows an open gate, and so many bytes behind it.
fn cut(place: u64, tail: u64) -> Ended
    ensures says { (R : Log) (bytes : List ℕ) (left : Option (List ℕ)) → AreBefore R place (Some 1) → Cut bytes → tail ≡ length bytes → IsAtEnd left
        → Says R (spelled R ++ 1 ∷ bytes) left (read_of result) [] }
    ensures told { (result ≡ Ended.ReadFault → ⊥) × (result ≡ Ended.TooLong → ⊥) }
{
    if place == 0 && tail < 5 {
        Ended::NoLog
    } else {
        Ended::Short(place)
    }
}

/// The record at this gate, at this place of the log, or why there is none.
fn read_at_gate<S: Source>(
    alloc: Global,
    source: &mut S,
    limit: u64,
    place: u64,
    gate: u8,
) -> Result<Whole, Ended>
    requires { place < limit }
    ensures reads { (R : Log) → AreBefore R place (Some gate) → Reads limit R (spelled R ++ gate ∷ []) (S.left source.old) (S.left source.new) result }
    ensures telling { is_some (S.left source.new) ≡ is_some (S.left source.old) }
    ensures cause { HasReadCause (S.faults source.old) (S.faults source.new) (IsErrOf result Ended.ReadFault) }
    ensures keeps { S.read_keeps source.old source.new }
{
    let room = limit - place - 1;
    if gate != OPEN {
        let rest = count_rest(source, room)?;
        return Err(shut(place, rest));
    }
    match read_behind_gate(alloc, source, room)? {
        Behind::Whole(whole) => Ok(whole),
        Behind::Cut(tail) => Err(cut(place, tail)),
    }
}

// The first record, or why there is none.
fn read_first<S: Source>(alloc: Global, source: &mut S, limit: u64) -> Result<Whole, Ended>
    ensures reads { Reads limit [] [] (S.left source.old) (S.left source.new) result }
    ensures telling { is_some (S.left source.new) ≡ is_some (S.left source.old) }
    ensures cause { HasReadCause (S.faults source.old) (S.faults source.new) (IsErrOf result Ended.ReadFault) }
    ensures keeps { S.read_keeps source.old source.new }
{
    let one = fetch(alloc, source, 1, limit)?;
    if one.is_empty() {
        return Err(Ended::NoLog);
    }
    read_at_gate(alloc, source, limit, 0, one[0])
}

/// The record at this place of the log, whose gate was read already but for the first, or why there is none.
pub(crate) fn read_on<S: Source>(
    alloc: Global,
    source: &mut S,
    limit: u64,
    place: u64,
    gate: Option<u8>,
) -> Result<Whole, Ended>
    requires { (g : ℕ) → gate ≡ Some g → place < limit }
    ensures reads { (R : Log) → AreBefore R place gate → Reads limit R (spelled R ++ gate_bytes gate) (S.left source.old) (S.left source.new) result }
    ensures telling { is_some (S.left source.new) ≡ is_some (S.left source.old) }
    ensures cause { HasReadCause (S.faults source.old) (S.faults source.new) (IsErrOf result Ended.ReadFault) }
    ensures keeps { S.read_keeps source.old source.new }
{
    match gate {
        None => read_first(alloc, source, limit),
        Some(gate) => read_at_gate(alloc, source, limit, place, gate),
    }
}
