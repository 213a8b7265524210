ghost use Rattle.std.specs.Prelude.{◌≡◌, ℕ, List, ◌+◌, ◌≤◌, ◌<◌, ◌↔◌, ◌⊎◌, Bool, true, IsTrue, IfOk, OnOk, OnErr, IsErr, [], length, take, drop, if◌then◌else◌};
ghost use Rattle.scitt_io.specs.Causes.{HasCause, Rose, raised};
ghost use Rattle.scitt_disk.specs.Images.{ImageNow};
ghost use Rattle.scitt_disk.specs.Changes.{fresh, after_write, after_refusal, after_sync, AfterFailedWrite};
ghost use Rattle.scitt_disk.specs.Calls.{held_from};
ghost use Rattle.scitt_disk.specs.Mixed.{IsPicked};
ghost use Rattle.scitt_disk.specs.Failing.{FailsNow, Advances};

use crate::changes::Change;
use crate::crash::{chosen, image_of};
use crate::device::{Disk, DiskFault};
use crate::edits::{note_refusal, note_sync, write_and_note};
use crate::failing::{count_fault, fails_next};
use scitt_io::Plan;
use std::alloc::AllocError;

/// A disk in memory that tells what it holds, and fails at the listed calls, counted from 0 over `len`, `read_at`,
/// `write_at` and `sync` together.
///
/// From its first change on it keeps its first bytes and each change, once, and so what it held at each sync. A write
/// goes in place. Where it finds no memory for a change it answers `DiskFault` and counts it; such a call isn't listed, and
/// `wants_of` counts it besides. A write that is listed is noted as refused, or counted there.
#[derive(Drop)]
pub struct MemDisk {
    bytes: Vec<u8>,
    first: Vec<u8>,
    kept: bool,
    changes: Vec<Change>,
    plan: Plan,
    strays: u64,
    wants: u64,
    ghost replayed: { bytes.items ≡ (held_from kept first.items bytes.items changes.items).seen },
}

impl MemDisk {
    ghost use Rattle.scitt_disk.specs.Memory.{held_of, plan_of, strays_of, wants_of};

    /// A disk of these bytes with nothing pending. It takes no memory.
    pub fn new(bytes: Vec<u8>, fails: Vec<u32>) -> MemDisk
        ensures held { held_of result ≡ fresh bytes.items }
        ensures fails { (plan_of result).fails ≡ fails }
        ensures made { (plan_of result).made ≡ 0 }
        ensures faults { (plan_of result).faults ≡ 0 }
        ensures strays { strays_of result ≡ 0 }
        ensures wants { wants_of result ≡ 0 }
    {
        let alloc = *bytes.allocator();
        MemDisk {
            bytes,
            first: Vec::new(alloc),
            kept: false,
            changes: Vec::new(alloc),
            plan: Plan::new(fails),
            strays: 0,
            wants: 0,
        }
    }

    /// The bytes that a read gives.
    pub fn into_content(self) -> Vec<u8>
        ensures { result.items ≡ (held_of self).seen }
    {
        self.bytes
    }

    /// A disk that holds one of the images of this one, with nothing pending and no failing calls. Pick 0 gives the
    /// bytes at the last sync, pick 1 what a read gives, pick 2 the shortest file with new bytes and pick 3 the
    /// longest with old ones; the others mix old and new bytes by turns, at each length from the longest down. Where there is
    /// neither an old byte nor a new one that the pick takes, the byte is 1, 2 or 3.
    pub fn crash(&self, pick: u64) -> Result<MemDisk, AllocError>
        ensures picked { IfOk result (λ d. (image : List ℕ) × IsPicked pick (held_of self.now) image × (held_of d ≡ fresh image)) }
        ensures image { IfOk result (λ d. (image : List ℕ) × ImageNow (held_of self.now) image × (held_of d ≡ fresh image)) }
        ensures oldest { IfOk result (λ d. pick ≡ 0
            → held_of d ≡ fresh (held_of self.now).epoch.synced) }
        ensures newest { IfOk result (λ d. pick ≡ 1 → held_of d ≡ fresh (held_of self.now).seen) }
        ensures fails { IfOk result (λ d. (plan_of d).fails.items ≡ []) }
        ensures made { IfOk result (λ d. (plan_of d).made ≡ 0) }
        ensures faults { IfOk result (λ d. (plan_of d).faults ≡ 0) }
        ensures strays { IfOk result (λ d. strays_of d ≡ 0) }
        ensures wants { IfOk result (λ d. wants_of d ≡ 0) }
    {
        let alloc = *self.bytes.allocator();
        let first = chosen(self.kept, &self.first, &self.bytes);
        let image = image_of(alloc, first, &self.bytes, &self.changes, pick)?;
        Ok(MemDisk::new(image, Vec::new(alloc)))
    }

    // Whether a range of n bytes from this place on passes the end; counts a stray where it does.
    fn passes_end(&mut self, at: u64, n: usize) -> bool
        ensures passes { IsTrue result ↔ (length (held_of self.old).seen < at + n) }
        ensures strays { strays_of self.new ≡ (if result then raised (strays_of self.old) else strays_of self.old) }
        ensures later { strays_of self.old ≤ strays_of self.new }
        ensures held { held_of self.new ≡ held_of self.old }
        ensures plan { plan_of self.new ≡ plan_of self.old }
        ensures wants { wants_of self.new ≡ wants_of self.old }
    {
        let len = self.bytes.len();
        let passes = at > len as u64 || n > len - at as usize;
        let _before = self.strays;
        if passes {
            self.strays = self.strays.saturating_add(1);
        }
        passes
    }

    // Counts a fault of a call that found no memory.
    fn count_want(&mut self)
        ensures held { held_of self.new ≡ held_of self.old }
        ensures fails { (plan_of self.new).fails ≡ (plan_of self.old).fails }
        ensures made { (plan_of self.new).made ≡ (plan_of self.old).made }
        ensures faults { (plan_of self.new).faults ≡ raised (plan_of self.old).faults }
        ensures rose { Rose (plan_of self.old).faults (plan_of self.new).faults }
        ensures later { (plan_of self.old).faults ≤ (plan_of self.new).faults }
        ensures wants { wants_of self.new ≡ raised (wants_of self.old) }
        ensures strays { strays_of self.new ≡ strays_of self.old }
    {
        let _before = self.wants;
        count_fault(&mut self.plan);
        self.wants = self.wants.saturating_add(1);
    }

    // Keeps the first bytes, at the first change.
    fn keep_first(&mut self) -> Result<(), AllocError>
        ensures held { held_of self.new ≡ held_of self.old }
        ensures kept { OnOk result (IsTrue self.new.kept) }
        ensures plan { plan_of self.new ≡ plan_of self.old }
        ensures strays { strays_of self.new ≡ strays_of self.old }
        ensures wants { wants_of self.new ≡ wants_of self.old }
    {
        if !self.kept {
            self.first = Vec::from_slice(*self.bytes.allocator(), &self.bytes)?;
            self.kept = true;
        }
        Ok(())
    }

    // Notes a write that the list refuses; a want is counted where there is no memory for the note.
    fn refuse(&mut self, at: u64, n: u64)
        ensures noted { (held_of self.new ≡ after_refusal at n (held_of self.old))
            ⊎ ((held_of self.new ≡ held_of self.old) × Rose (wants_of self.old) (wants_of self.new)) }
        ensures plan { plan_of self.new ≡ plan_of self.old }
        ensures strays { strays_of self.new ≡ strays_of self.old }
    {
        let _before = self.wants;
        if note_refusal(&mut self.changes, at, n).is_err() {
            self.wants = self.wants.saturating_add(1);
        }
    }

    // Makes a write. Nothing has changed where memory is wanting.
    fn store(&mut self, at: u64, piece: &[u8]) -> Result<(), AllocError>
        ensures ok { OnOk result (held_of self.new ≡ after_write at piece.now (held_of self.old)) }
        ensures err { OnErr result (held_of self.new ≡ held_of self.old) }
        ensures plan { plan_of self.new ≡ plan_of self.old }
        ensures strays { strays_of self.new ≡ strays_of self.old }
        ensures wants { wants_of self.new ≡ wants_of self.old }
    {
        self.keep_first()?;
        write_and_note(&mut self.bytes, &mut self.changes, at, piece)?;
        Ok(())
    }
}

impl Disk for MemDisk {
    ghost use Rattle.scitt_disk.specs.Memory.{held_of, plan_of, strays_of, wants_of};
    ghost use Rattle.scitt_disk.specs.SeenIsImage.{IsImage-held_of};

    ghost tells = { true };

    ghost held = { held_of };

    ghost fault_count = { λ d. (plan_of d).faults };

    ghost strays = { strays_of };

    ghost same = { λ _ _. Unit {0} };

    ghost same_self = { λ _. tt };

    ghost same_then = { λ _ _ _ _ _. tt };

    ghost seen_is_image = { λ d _. IsImage-held_of d };

    fn len(&mut self) -> Result<u64, DiskFault>
        ensures len { IfOk result (λ n. n ≡ length (held_of self.old).seen) }
        ensures kept { held_of self.new ≡ held_of self.old }
        ensures cause { HasCause (plan_of self.old).faults (plan_of self.new).faults result }
        ensures listed { IsErr result ↔ FailsNow (plan_of self.old) }
        ensures counted { Advances (plan_of self.old) (plan_of self.new) }
        ensures once { OnErr result ((plan_of self.new).faults ≡ raised (plan_of self.old).faults) }
        ensures strays { strays_of self.new ≡ strays_of self.old }
        ensures wants { wants_of self.new ≡ wants_of self.old }
    {
        if fails_next(&mut self.plan) {
            return Err(DiskFault);
        }
        Ok(self.bytes.len() as u64)
    }

    fn read_at(&mut self, at: u64, buf: &mut [u8]) -> Result<(), DiskFault>
        ensures bytes { OnOk result (buf.new
            ≡ take (length buf.old) (drop at (held_of self.old).seen)) }
        ensures within { OnOk result (at + length buf.old ≤ length (held_of self.old).seen) }
        ensures kept { held_of self.new ≡ held_of self.old }
        ensures cause { HasCause (plan_of self.old).faults (plan_of self.new).faults result }
        ensures listed { FailsNow (plan_of self.old) → IsErr result }
        ensures past { length (held_of self.old).seen < at + length buf.old → IsErr result }
        ensures only { OnErr result (FailsNow (plan_of self.old) ⊎ (length (held_of self.old).seen
            < at + length buf.old)) }
        ensures counted { Advances (plan_of self.old) (plan_of self.new) }
        ensures once { OnErr result ((plan_of self.new).faults ≡ raised (plan_of self.old).faults) }
        ensures strays { strays_of self.old ≤ strays_of self.new }
        ensures in_range { at + length buf.old ≤ length (held_of self.old).seen
            → strays_of self.new ≡ strays_of self.old }
        ensures stray { length (held_of self.old).seen < at + length buf.old
            → strays_of self.new ≡ raised (strays_of self.old) }
        ensures wants { wants_of self.new ≡ wants_of self.old }
    {
        let passes = self.passes_end(at, buf.len());
        if fails_next(&mut self.plan) {
            return Err(DiskFault);
        }
        if passes {
            count_fault(&mut self.plan);
            return Err(DiskFault);
        }
        let at = at as usize;
        buf.copy_from_slice(&self.bytes[at..at + buf.len()]);
        Ok(())
    }

    fn write_at(&mut self, at: u64, bytes: &[u8]) -> Result<(), DiskFault>
        ensures written { OnOk result (held_of self.new ≡ after_write at bytes.now (held_of self.old)) }
        ensures within { OnOk result (at ≤ length (held_of self.old).seen) }
        ensures failed { OnErr result (AfterFailedWrite at (length bytes.now) (held_of self.old) (held_of self.new)) }
        ensures cause { HasCause (plan_of self.old).faults (plan_of self.new).faults result }
        ensures listed { FailsNow (plan_of self.old) → IsErr result }
        ensures past { length (held_of self.old).seen < at → IsErr result }
        ensures only { OnErr result (FailsNow (plan_of self.old) ⊎ (length (held_of self.old).seen < at)
            ⊎ Rose (wants_of self.old) (wants_of self.new)) }
        ensures counted { Advances (plan_of self.old) (plan_of self.new) }
        ensures refused { FailsNow (plan_of self.old)
            → (held_of self.new ≡ after_refusal at (length bytes.now) (held_of self.old)) ⊎ Rose (wants_of self.old) (wants_of self.new) }
        ensures once { OnErr result ((plan_of self.new).faults ≡ raised (plan_of self.old).faults) }
        ensures strays { strays_of self.old ≤ strays_of self.new }
        ensures in_range { at ≤ length (held_of self.old).seen → strays_of self.new ≡ strays_of self.old }
        ensures stray { length (held_of self.old).seen < at → strays_of self.new ≡ raised (strays_of self.old) }
        ensures wants { OnOk result (wants_of self.new ≡ wants_of self.old) }
    {
        let passes = self.passes_end(at, 0);
        if fails_next(&mut self.plan) {
            self.refuse(at, bytes.len() as u64);
            return Err(DiskFault);
        }
        if passes {
            count_fault(&mut self.plan);
            return Err(DiskFault);
        }
        if self.store(at, bytes).is_err() {
            self.count_want();
            return Err(DiskFault);
        }
        Ok(())
    }

    fn sync(&mut self) -> Result<(), DiskFault>
        ensures synced { OnOk result (held_of self.new ≡ after_sync (held_of self.old)) }
        ensures failed { OnErr result (held_of self.new ≡ held_of self.old) }
        ensures cause { HasCause (plan_of self.old).faults (plan_of self.new).faults result }
        ensures listed { FailsNow (plan_of self.old) → IsErr result }
        ensures only { OnErr result (FailsNow (plan_of self.old) ⊎ Rose (wants_of self.old) (wants_of self.new)) }
        ensures counted { Advances (plan_of self.old) (plan_of self.new) }
        ensures once { OnErr result ((plan_of self.new).faults ≡ raised (plan_of self.old).faults) }
        ensures strays { strays_of self.new ≡ strays_of self.old }
        ensures wants { OnOk result (wants_of self.new ≡ wants_of self.old) }
    {
        if fails_next(&mut self.plan) {
            return Err(DiskFault);
        }
        if note_sync(&mut self.changes).is_err() {
            self.count_want();
            return Err(DiskFault);
        }
        Ok(())
    }

    fn faults(&self) -> u64 {
        self.plan.faults
    }
}
