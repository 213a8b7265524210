// A file in memory and the list of its changes, as plain vectors.
ghost use Rattle.std.specs.Prelude.{◌≡◌, OnOk, OnErr, [], ◌∷◌, ◌++◌};
ghost use Rattle.scitt_disk.specs.Images.{Held};
ghost use Rattle.scitt_disk.specs.Changes.{put, after_write, after_refusal, after_sync};
ghost use Rattle.scitt_disk.specs.Calls.{replay};

use crate::changes::Change;
use std::alloc::AllocError;

/// Writes the piece from place `at` on, in place. Nothing has changed where memory is wanting.
pub fn overwrite(bytes: &mut Vec<u8>, at: u64, piece: &[u8]) -> Result<(), AllocError>
    ensures written { OnOk result (bytes.new.items ≡ put bytes.old.items at piece.now) }
    ensures kept { OnErr result (bytes.new.items ≡ bytes.old.items) }
{
    let len = bytes.len();
    if at >= len as u64 {
        bytes.extend_from_slice(piece)?;
        return Ok(());
    }
    let at = at as usize;
    if piece.len() <= len - at {
        bytes[at..at + piece.len()].copy_from_slice(piece);
        return Ok(());
    }
    let (front, back) = piece.split_at(len - at);
    bytes.extend_from_slice(back)?;
    bytes[at..len].copy_from_slice(front);
    Ok(())
}

#[tactic(auto, using(crate::proofs::Replay::replay_push))]
/// Notes a sync. Nothing has changed where memory is wanting.
pub fn note_sync(changes: &mut Vec<Change>) -> Result<(), AllocError>
    ensures noted { OnOk result ((start : Held)
        → replay start changes.new.items ≡ after_sync (replay start changes.old.items)) }
    ensures kept { OnErr result (changes.new.items ≡ changes.old.items) }
{
    note(changes, Change::Synced)
}

/// Adds a change to the list.
fn note(changes: &mut Vec<Change>, change: Change) -> Result<(), AllocError>
    ensures added { OnOk result (changes.new.items ≡ changes.old.items ++ change ∷ []) }
    ensures kept { OnErr result (changes.new.items ≡ changes.old.items) }
{
    changes.push(change)?;
    Ok(())
}

#[tactic(auto, using(crate::proofs::Replay::replay_push))]
/// Notes that a write was refused. Nothing has changed where memory is wanting.
pub fn note_refusal(changes: &mut Vec<Change>, at: u64, n: u64) -> Result<(), AllocError>
    ensures noted { OnOk result ((start : Held)
        → replay start changes.new.items ≡ after_refusal at n (replay start changes.old.items)) }
    ensures kept { OnErr result (changes.new.items ≡ changes.old.items) }
{
    note(changes, Change::Refused(at, n))
}

#[tactic(auto, using(crate::proofs::Replay::replay_push))]
/// Makes a write and notes it. Nothing has changed where memory is wanting.
pub fn write_and_note(
    bytes: &mut Vec<u8>,
    changes: &mut Vec<Change>,
    at: u64,
    piece: &[u8],
) -> Result<(), AllocError>
    ensures written { OnOk result (bytes.new.items ≡ put bytes.old.items at piece.now) }
    ensures noted { OnOk result ((start : Held)
        → replay start changes.new.items ≡ after_write at piece.now (replay start changes.old.items)) }
    ensures bytes_kept { OnErr result (bytes.new.items ≡ bytes.old.items) }
    ensures changes_kept { OnErr result (changes.new.items ≡ changes.old.items) }
{
    let copy = Vec::from_slice(*bytes.allocator(), piece)?;
    changes.reserve(1)?;
    overwrite(bytes, at, piece)?;
    changes.push(Change::Wrote(at, copy)).unwrap();
    Ok(())
}
