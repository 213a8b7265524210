// What a crash leaves of a file in memory.
ghost use Rattle.std.specs.Prelude.{◌≡◌, ℕ, ◌+◌, ◌-◌, ◌^◌, ◌≤◌, min, max, IfOk, OnOk, List, length, take, if◌then◌else◌};
ghost use Rattle.scitt_disk.specs.Images.{Held, greatest, IsImage};
ghost use Rattle.scitt_disk.specs.Changes.{fresh};
ghost use Rattle.scitt_disk.specs.Calls.{replay, after_change, ends_epoch, end_of};
ghost use Rattle.scitt_disk.specs.Mixed.{IsMixed, IsPicked, picked_len, picked_byte, takes_new};

use crate::changes::Change;
use crate::edits::overwrite;
use std::alloc::{AllocError, Global};

/// The one or the other.
pub fn chosen<'a>(which: bool, one: &'a [u8], other: &'a [u8]) -> &'a [u8]
    ensures { result.now ≡ (if which then one.now else other.now) }
{
    if which { one } else { other }
}

/// One of the images of a file: `bytes` is what a read gives, after these changes of its first bytes.
pub fn image_of(
    alloc: Global,
    first: &[u8],
    bytes: &[u8],
    changes: &[Change],
    pick: u64,
) -> Result<Vec<u8>, AllocError>
    requires { bytes.now ≡ (replay (fresh first.now) changes.now).seen }
    ensures picked { IfOk result (λ v. IsPicked pick (replay (fresh first.now) changes.now) v.items) }
    ensures image { IfOk result (λ v. IsImage (replay (fresh first.now) changes.now).epoch v.items) }
    ensures oldest { IfOk result (λ v. pick ≡ 0
        → v.items ≡ (replay (fresh first.now) changes.now).epoch.synced) }
    ensures newest { IfOk result (λ v. pick ≡ 1 → v.items ≡ bytes.now) }
{
    let last = last_sync(changes);
    let synced = replayed(alloc, first, &changes[..last])?;
    let most = written_end(changes).max(bytes.len() as u64);
    mixed(alloc, &synced, bytes, most, pick)
}

// How many changes there are up to the last sync.
fn last_sync(changes: &[Change]) -> usize
    ensures within { result ≤ length changes.now }
    ensures synced { (first : List ℕ) → (replay (fresh first) changes.now).epoch.synced
        ≡ (replay (fresh first) (take result changes.now)).seen }
{
    let mut last = 0;
    for (i, change) in changes.iter().enumerate() {
        if change.is_sync() {
            last = i + 1;
        }
    }
    last
}

// The file after these changes.
fn replayed(alloc: Global, first: &[u8], changes: &[Change]) -> Result<Vec<u8>, AllocError>
    ensures { IfOk result (λ v. v.items ≡ (replay (fresh first.now) changes.now).seen) }
{
    let mut bytes = Vec::from_slice(alloc, first)?;
    for change in changes {
        repeat_change(&mut bytes, change)?;
    }
    Ok(bytes)
}

fn repeat_change(bytes: &mut Vec<u8>, change: &Change) -> Result<(), AllocError>
    ensures { OnOk result ((held : Held) → bytes.old.items ≡ held.seen
        → bytes.new.items ≡ (after_change held change.now).seen) }
{
    match change {
        Change::Wrote(at, piece) => overwrite(bytes, *at, piece),
        _ => Ok(()),
    }
}

// Where the last of the ranges ends that were written since the last sync, or the greatest number where it ends past that.
fn written_end(changes: &[Change]) -> u64
    ensures { (first : List ℕ) → result ≡ min (greatest 0 (replay (fresh first) changes.now).epoch.written) (2 ^ 64 - 1) }
{
    let mut end = 0;
    for change in changes {
        end = end_after(end, change);
    }
    end
}

fn end_after(end: u64, change: &Change) -> u64
    ensures { result ≡ min (if ends_epoch change.now then 0 else max end (end_of change.now)) (2 ^ 64 - 1) }
{
    match change {
        Change::Wrote(at, piece) => end.max(at.saturating_add(piece.len() as u64)),
        Change::Refused(at, n) => end.max(at.saturating_add(*n)),
        Change::Synced => 0,
    }
}

// A mix of an old file and a new one, of a length up to `most`.
fn mixed(alloc: Global, old: &[u8], new: &[u8], most: u64, pick: u64) -> Result<Vec<u8>, AllocError>
    ensures { IfOk result (λ v. IsMixed pick most old.now new.now v.items) }
{
    let len = chosen_len(old.len() as u64, new.len() as u64, most, pick);
    let mut image = Vec::new(alloc);
    for i in 0..len {
        image.push(byte_at(old, new, i as usize, pick))?;
    }
    Ok(image)
}

fn chosen_len(old: u64, new: u64, most: u64, pick: u64) -> u64
    ensures { result ≡ picked_len pick old new most }
{
    if pick == 1 {
        return new;
    }
    if pick < 3 {
        return old;
    }
    old.max(most.saturating_sub((pick / 4).saturating_sub(1)))
}

// The byte at place i: the new one, the old one, or one of this pick's own where there is no other.
fn byte_at(old: &[u8], new: &[u8], i: usize, pick: u64) -> u8
    ensures { result ≡ picked_byte pick old.now new.now i }
{
    if i < new.len() && is_new(pick, i as u64) {
        return new[i];
    }
    if i < old.len() {
        return old[i];
    }
    (pick % 3 + 1) as u8
}

fn is_new(pick: u64, i: u64) -> bool
    ensures { result ≡ takes_new pick i }
{
    if pick < 4 {
        return pick == 1 || pick == 2;
    }
    let run = pick % 4 + 1;
    (pick / 4 % 2 + i / run % 2) % 2 == 0
}
