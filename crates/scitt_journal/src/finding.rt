// How the records of a file are found.
ghost use Rattle.std.specs.Prelude.{◌≡◌, ◌≢◌, ℕ, ◌+◌, ◌-◌, ◌*◌, ◌≤◌, ◌^◌, ◌<◌, max, IsTrue, IfOk, IfSome, IfErr, IsErrOf, OnOk, ◌⊎◌, [], ◌∷◌, ◌++◌, List, length, take, drop, None, slice_index, vec_len, vec_capacity};
ghost use Rattle.scitt_io.specs.Causes.{HasCause, Rose};
ghost use Rattle.scitt_disk.specs.Images.{CrashLeaves, moment};
ghost use Rattle.scitt_disk.specs.Changes.{after_sync};
ghost use Rattle.scitt_journal.specs.Layout.{size_bytes, size_in, NoLog};
ghost use Rattle.scitt_journal.specs.State.{Closed};
ghost use Rattle.scitt_journal.specs.Stops.{ExplainsLoad, ExplainsCreate, ExplainsBody, ExplainsCut, IsWhole, Finds};

use crate::steps::{OPEN, SHUT, write_and_sync};
use crate::stops::{BodyStop, CreateStop, LoadStop};
use scitt_disk::{Disk, DiskFault};
use std::alloc::Global;

/// The offsets of the records' gates, the offset of the gate that ends them, and the number of bytes after it.
#[derive(Drop)]
pub struct Found {
    pub offsets: Vec<u64>,
    pub gate: u64,
    pub rest: u64,
    pub buffer: Vec<u8>,
}

/// What a new journal needs: a list with a place for one offset, the number of bytes after the first gate, and a buffer.
#[derive(Drop)]
pub struct Prepared {
    pub offsets: Vec<u64>,
    pub rest: u64,
    pub buffer: Vec<u8>,
}

/// The byte at a place.
pub fn read_byte<D: Disk>(disk: &mut D, at: u64) -> Result<u8, DiskFault>
    ensures byte { IfOk result (λ byte. IsTrue D.tells → byte ≡ slice_index (D.held disk.old).seen at) }
    ensures kept { IsTrue D.tells → D.held disk.new ≡ D.held disk.old }
    ensures cause { HasCause (D.fault_count disk.old) (D.fault_count disk.new) result }
    ensures in_range { IsTrue D.tells → at < length (D.held disk.old).seen → D.strays disk.new ≡ D.strays disk.old }
    ensures same { D.same disk.old disk.new }
{
    let mut byte = [0; 1];
    disk.read_at(at, &mut byte)?;
    Ok(byte[0])
}

// A gate, and the number that the four bytes behind it spell.
#[derive(Clone, Copy)]
struct Head {
    gate: u8,
    size: u32,
}

// The gate at a place and the four bytes behind it, by one read.
fn read_head<D: Disk>(disk: &mut D, at: u64) -> Result<Head, DiskFault>
    ensures gate { IfOk result (λ head. IsTrue D.tells → head.gate ≡ slice_index (D.held disk.old).seen at) }
    ensures size { IfOk result (λ head. IsTrue D.tells
        → head.size ≡ size_in (take 4 (drop (at + 1) (D.held disk.old).seen))) }
    ensures spells { IfOk result (λ head. IsTrue D.tells
        → size_bytes head.size ≡ take 4 (drop (at + 1) (D.held disk.old).seen)) }
    ensures kept { IsTrue D.tells → D.held disk.new ≡ D.held disk.old }
    ensures cause { HasCause (D.fault_count disk.old) (D.fault_count disk.new) result }
    ensures in_range { IsTrue D.tells → at + 5 ≤ length (D.held disk.old).seen → D.strays disk.new ≡ D.strays disk.old }
    ensures same { D.same disk.old disk.new }
{
    let mut bytes = [0; 5];
    disk.read_at(at, &mut bytes)?;
    let [gate, a, b, c, d] = bytes;
    Ok(Head {
        gate,
        size: spelled_size(&[a, b, c, d]),
    })
}

fn spelled_size(bytes: &[u8; 4]) -> u32
    ensures size { result ≡ size_in bytes.now }
    ensures spells { size_bytes result ≡ bytes.now }
{
    u32::from_be_bytes(*bytes)
}

// The place of the gate behind the record of this gate, in a file of this length; `None` where this gate isn't open.
// `Short` where that record passes the end. One read of the disk.
fn next_gate<D: Disk>(disk: &mut D, gate: u64, len: u64) -> Result<Option<u64>, LoadStop>
    requires within { gate < len }
    requires long { IsTrue D.tells → len ≡ length (D.held disk.old).seen }
    ensures within { IfOk result (λ found. IfSome found (λ next. next < len)) }
    ensures further { IfOk result (λ found. IfSome found (λ next. gate + 5 ≤ next)) }
    ensures near { IfOk result (λ found. IfSome found (λ next. next ≤ gate + 4294967300)) }
    ensures opened { IfOk result (λ found. IfSome found (λ _. IsTrue D.tells
        → slice_index (D.held disk.old).seen gate ≡ 1)) }
    ensures whole { IfOk result (λ found. IfSome found (λ next. IsTrue D.tells
        → IsWhole (D.held disk.old).seen gate next)) }
    ensures shut { IfOk result (λ found. found ≡ None → IsTrue D.tells
        → slice_index (D.held disk.old).seen gate ≢ 1) }
    ensures stops { IfErr result (ExplainsCut
        (IsTrue D.tells) (D.held disk.old).seen gate
        (D.fault_count disk.old) (D.fault_count disk.new)) }
    ensures kept { IsTrue D.tells → D.held disk.new ≡ D.held disk.old }
    ensures later { D.fault_count disk.old ≤ D.fault_count disk.new }
    ensures counted { OnOk result (D.fault_count disk.new ≡ D.fault_count disk.old) }
    ensures strays { IsTrue D.tells → D.strays disk.new ≡ D.strays disk.old }
    ensures same { D.same disk.old disk.new }
{
    let left = len - gate;
    if left < 5 {
        if read_byte(disk, gate)? == OPEN {
            return Err(LoadStop::Short(gate));
        }
        return Ok(None);
    }
    let head = read_head(disk, gate)?;
    if head.gate != OPEN {
        return Ok(None);
    }
    let size = u64::from(head.size);
    if left - 5 <= size {
        return Err(LoadStop::Short(gate));
    }
    Ok(Some(gate + 5 + size))
}

// The records of a file of this length. `NoLog` where its first gate isn't open.
fn walk<D: Disk>(alloc: Global, disk: &mut D, len: u64, buffer: Vec<u8>) -> Result<Found, LoadStop>
    requires six { 6 ≤ len }
    requires long { IsTrue D.tells → len ≡ length (D.held disk.old).seen }
    ensures finds { IfOk result (λ found. IsTrue D.tells
        → Finds (D.held disk.old).seen found.offsets.items found.gate found.rest) }
    ensures bound { IfOk result (λ found. found.gate ≤ vec_len found.offsets * 4294967300) }
    ensures some { IfOk result (λ found. 0 < vec_len found.offsets) }
    ensures buffer { IfOk result (λ found. found.buffer ≡ buffer) }
    ensures stops { IfErr result (ExplainsLoad
        (IsTrue D.tells) (D.held disk.old).seen (D.fault_count disk.old) (D.fault_count disk.new)) }
    ensures kept { IsTrue D.tells → D.held disk.new ≡ D.held disk.old }
    ensures later { D.fault_count disk.old ≤ D.fault_count disk.new }
    ensures counted { OnOk result (D.fault_count disk.new ≡ D.fault_count disk.old) }
    ensures strays { IsTrue D.tells → D.strays disk.new ≡ D.strays disk.old }
    ensures same { D.same disk.old disk.new }
{
    let mut offsets = Vec::new(alloc);
    let mut gate = 0;
    'records: loop {
        let Some(next) = next_gate(disk, gate, len)? else {
            if offsets.is_empty() {
                return Err(LoadStop::NoLog);
            }
            return Ok(Found {
                offsets,
                gate,
                rest: len - gate - 1,
                buffer,
            });
        };
        offsets.push(gate)?;
        gate = next;
    }
}

/// Syncs, and finds the records.
pub fn find_records<D: Disk>(alloc: Global, disk: &mut D) -> Result<Found, LoadStop>
    ensures finds { IfOk result (λ found. IsTrue D.tells
        → Finds (D.held disk.old).seen found.offsets.items found.gate found.rest) }
    ensures bound { IfOk result (λ found. found.gate ≤ vec_len found.offsets * 4294967300) }
    ensures some { IfOk result (λ found. 0 < vec_len found.offsets) }
    ensures room { IfOk result (λ found. 5 ≤ vec_capacity found.buffer) }
    ensures synced { OnOk result (IsTrue D.tells → D.held disk.new ≡ after_sync (D.held disk.old)) }
    ensures nothing_written { IsTrue D.tells
        → (D.held disk.new ≡ D.held disk.old) ⊎ (D.held disk.new ≡ after_sync (D.held disk.old)) }
    ensures stops { IfErr result (ExplainsLoad
        (IsTrue D.tells) (D.held disk.old).seen (D.fault_count disk.old) (D.fault_count disk.new)) }
    ensures later { D.fault_count disk.old ≤ D.fault_count disk.new }
    ensures counted { OnOk result (D.fault_count disk.new ≡ D.fault_count disk.old) }
    ensures strays { IsTrue D.tells → D.strays disk.new ≡ D.strays disk.old }
    ensures same { D.same disk.old disk.new }
{
    let buffer = Vec::with_capacity(alloc, 5)?;
    disk.sync()?;
    let len = disk.len()?;
    if len < 6 {
        return Err(LoadStop::NoLog);
    }
    walk(alloc, disk, len, buffer)
}

/// Takes the memory for a journal with a first record of this length, and then begins it.
pub fn prepare<D: Disk>(alloc: Global, disk: &mut D, len: usize) -> Result<Prepared, CreateStop>
    requires { len ≤ 16777216 }
    ensures buffer { IfOk result (λ prepared. len + 5 ≤ vec_capacity prepared.buffer) }
    ensures offsets { IfOk result (λ prepared. prepared.offsets.items ≡ []) }
    ensures count { IfOk result (λ prepared. vec_len prepared.offsets ≡ 0) }
    ensures place { IfOk result (λ prepared. 1 ≤ vec_capacity prepared.offsets) }
    ensures none { OnOk result (IsTrue D.tells → NoLog (D.held disk.old).seen) }
    ensures closed { OnOk result (IsTrue D.tells → Closed (D.held disk.new) 0 []) }
    ensures rest { IfOk result (λ prepared. IsTrue D.tells
        → prepared.rest + 1 ≡ max 1 (length (D.held disk.old).seen)) }
    ensures left { IfOk result (λ prepared. IsTrue D.tells
        → prepared.rest + 1 ≡ length (D.held disk.new).seen) }
    ensures synced { OnOk result (IsTrue D.tells
        → moment (D.held disk.old) < moment (D.held disk.new)) }
    ensures any_moment { IsTrue D.tells → NoLog (D.held disk.old).seen
        → moment (D.held disk.old) < moment (D.held disk.new)
        → CrashLeaves NoLog (after_sync (D.held disk.old)) (D.held disk.new) }
    ensures log_kept { IsTrue D.tells → (NoLog (D.held disk.old).seen → ⊥)
        → (D.held disk.new ≡ D.held disk.old) ⊎ (D.held disk.new ≡ after_sync (D.held disk.old)) }
    ensures untouched { IsTrue D.tells → moment (D.held disk.new) ≡ moment (D.held disk.old)
        → D.held disk.new ≡ D.held disk.old }
    ensures stops { IfErr result (ExplainsCreate
        (IsTrue D.tells) (D.held disk.old).seen (D.fault_count disk.old) (D.fault_count disk.new)) }
    ensures memory { IsErrOf result CreateStop.OutOfMemory → disk.new ≡ disk.old }
    ensures later { D.fault_count disk.old ≤ D.fault_count disk.new }
    ensures counted { OnOk result (D.fault_count disk.new ≡ D.fault_count disk.old) }
    ensures strays { IsTrue D.tells → D.strays disk.new ≡ D.strays disk.old }
    ensures same { D.same disk.old disk.new }
{
    let offsets = Vec::with_capacity(alloc, 1)?;
    let buffer = Vec::with_capacity(alloc, len + 5)?;
    let rest = begin(disk)?;
    Ok(Prepared {
        offsets,
        rest,
        buffer,
    })
}

/// Syncs, and makes a file without a log begin with a closed gate. The number of bytes after that gate.
fn begin<D: Disk>(disk: &mut D) -> Result<u64, CreateStop>
    ensures none { OnOk result (IsTrue D.tells → NoLog (D.held disk.old).seen) }
    ensures closed { OnOk result (IsTrue D.tells → Closed (D.held disk.new) 0 []) }
    ensures rest { IfOk result (λ rest. IsTrue D.tells
        → rest + 1 ≡ max 1 (length (D.held disk.old).seen)) }
    ensures left { IfOk result (λ rest. IsTrue D.tells
        → rest + 1 ≡ length (D.held disk.new).seen) }
    ensures synced { OnOk result (IsTrue D.tells
        → moment (D.held disk.old) < moment (D.held disk.new)) }
    ensures any_moment { IsTrue D.tells → NoLog (D.held disk.old).seen
        → moment (D.held disk.old) < moment (D.held disk.new)
        → CrashLeaves NoLog (after_sync (D.held disk.old)) (D.held disk.new) }
    ensures log_kept { IsTrue D.tells → (NoLog (D.held disk.old).seen → ⊥)
        → (D.held disk.new ≡ D.held disk.old) ⊎ (D.held disk.new ≡ after_sync (D.held disk.old)) }
    ensures untouched { IsTrue D.tells → moment (D.held disk.new) ≡ moment (D.held disk.old)
        → D.held disk.new ≡ D.held disk.old }
    ensures stops { IfErr result (ExplainsCreate
        (IsTrue D.tells) (D.held disk.old).seen (D.fault_count disk.old) (D.fault_count disk.new)) }
    ensures no_memory { IsErrOf result CreateStop.OutOfMemory → ⊥ }
    ensures later { D.fault_count disk.old ≤ D.fault_count disk.new }
    ensures counted { OnOk result (D.fault_count disk.new ≡ D.fault_count disk.old) }
    ensures strays { IsTrue D.tells → D.strays disk.new ≡ D.strays disk.old }
    ensures same { D.same disk.old disk.new }
{
    disk.sync()?;
    let len = disk.len()?;
    if len < 6 {
        write_and_sync(disk, 0, &[SHUT])?;
        return Ok(len.saturating_sub(1));
    }
    if read_byte(disk, 0)? == OPEN {
        return Err(CreateStop::LogExists);
    }
    Ok(len - 1)
}

/// The place of a record's gate and that of the next.
pub fn bounds(offsets: &[u64], gate: u64, number: usize) -> (u64, u64)
    requires { number < length offsets.now }
    ensures start { result.0 ≡ slice_index offsets.now number }
    ensures end { result.1 ≡ slice_index (offsets.now ++ gate ∷ []) (number + 1) }
    ensures range { result.1 < 2 ^ 64 }
{
    let end = if number + 1 < offsets.len() {
        offsets[number + 1]
    } else {
        gate
    };
    (offsets[number], end)
}

/// The bytes from one place up to another.
pub fn read_body<D: Disk>(
    alloc: Global,
    disk: &mut D,
    start: u64,
    end: u64,
) -> Result<Vec<u8>, BodyStop>
    ensures body { IfOk result (λ bytes. IsTrue D.tells
        → bytes.items ≡ take (end - start) (drop start (D.held disk.old).seen)) }
    ensures stops { IfErr result (ExplainsBody (D.fault_count disk.old) (D.fault_count disk.new)) }
    ensures kept { IsTrue D.tells → D.held disk.new ≡ D.held disk.old }
    ensures later { D.fault_count disk.old ≤ D.fault_count disk.new }
    ensures counted { OnOk result (D.fault_count disk.new ≡ D.fault_count disk.old) }
    ensures in_range { IsTrue D.tells → start + (end - start) ≤ length (D.held disk.old).seen
        → D.strays disk.new ≡ D.strays disk.old }
    ensures same { D.same disk.old disk.new }
{
    let len = end.saturating_sub(start) as usize;
    let mut bytes = vec![in alloc; 0; len]?;
    disk.read_at(start, &mut bytes)?;
    Ok(bytes)
}
