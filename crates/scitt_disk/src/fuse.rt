ghost use Rattle.std.specs.Prelude.{◌≡◌, ◌+◌, ◌-◌, ◌^◌, ◌<◌, ◌≤◌, ◌↔◌, true, false, IsTrue, IsErr, IfOk, OnOk, OnErr, length, take, drop};
ghost use Rattle.scitt_io.specs.Causes.{HasCause, raised};
ghost use Rattle.scitt_disk.specs.Changes.{after_write, after_sync, AfterFailedWrite};
ghost use Rattle.scitt_disk.specs.Failing.{Advances};
ghost use Rattle.scitt_disk.specs.Memory.{held_of, plan_of, strays_of, wants_of};
ghost use Rattle.scitt_disk.specs.SeenIsImage.{IsImage-held_of};

use crate::device::{Disk, DiskFault};
use crate::memory::MemDisk;

/// A disk in memory that passes a number of calls on, and then fails every call without passing it on: a stop after
/// so many calls.
#[derive(Drop)]
pub struct FuseDisk {
    disk: MemDisk,
    passes: u32,
    refused: u64,
}

impl FuseDisk {
    ghost use Rattle.scitt_disk.specs.Fuse.{beneath, passes_of, faults_of};

    /// Lets so many calls pass.
    pub fn new(disk: MemDisk, passes: u32) -> FuseDisk
        ensures disk { beneath result ≡ disk }
        ensures passes { passes_of result ≡ passes }
        ensures faults { faults_of result ≡ (plan_of disk).faults }
    {
        let _before = disk.faults();
        FuseDisk {
            disk,
            passes,
            refused: 0,
        }
    }

    /// The disk beneath, as the calls that passed have left it.
    pub fn into_disk(self) -> MemDisk
        ensures { result ≡ beneath self }
    {
        self.disk
    }

    // Counts a call; answers whether it is refused.
    fn refuses(&mut self) -> bool
        ensures disk { beneath self.new ≡ beneath self.old }
        ensures refused { IsTrue result → (self.new.refused ≡ raised self.old.refused) }
        ensures spent { IsTrue result ↔ (passes_of self.old ≡ 0) }
        ensures passed { result ≡ false → (self.new.refused ≡ self.old.refused) }
        ensures passes { passes_of self.new ≡ passes_of self.old - 1 }
        ensures range { self.old.refused < 2 ^ 64 }
    {
        if self.passes == 0 {
            self.refused = self.refused.saturating_add(1);
            return true;
        }
        let _before = self.refused;
        self.passes -= 1;
        false
    }
}

impl Disk for FuseDisk {
    ghost use Rattle.scitt_disk.specs.Fuse.{beneath, passes_of, faults_of};

    ghost tells = { true };

    ghost held = { λ f. held_of (beneath f) };

    ghost fault_count = { faults_of };

    ghost strays = { λ f. strays_of (beneath f) };

    ghost same = { λ _ _. Unit {0} };

    ghost same_self = { λ _. tt };

    ghost same_then = { λ _ _ _ _ _. tt };

    ghost seen_is_image = { λ f _. IsImage-held_of f.disk };

    fn len(&mut self) -> Result<u64, DiskFault>
        ensures len { IfOk result (λ n. n ≡ length (held_of (beneath self.old)).seen) }
        ensures kept { held_of (beneath self.new) ≡ held_of (beneath self.old) }
        ensures cause { HasCause (faults_of self.old) (faults_of self.new) result }
        ensures strays { strays_of (beneath self.new) ≡ strays_of (beneath self.old) }
        ensures spent { passes_of self.old ≡ 0 → IsErr result }
        ensures stopped { passes_of self.old ≡ 0 → beneath self.new ≡ beneath self.old }
        ensures passed { 0 < passes_of self.old
            → Advances (plan_of (beneath self.old)) (plan_of (beneath self.new)) }
        ensures passed_on { 0 < passes_of self.old
            → HasCause (plan_of (beneath self.old)).faults (plan_of (beneath self.new)).faults result }
        ensures passes { passes_of self.new ≡ passes_of self.old - 1 }
        ensures once { OnErr result (faults_of self.new ≡ raised (faults_of self.old)) }
    {
        if self.refuses() {
            return Err(DiskFault);
        }
        self.disk.len()
    }

    fn read_at(&mut self, at: u64, buf: &mut [u8]) -> Result<(), DiskFault>
        ensures bytes { OnOk result (buf.new
            ≡ take (length buf.old) (drop at (held_of (beneath self.old)).seen)) }
        ensures within { OnOk result (at + length buf.old ≤ length (held_of (beneath self.old)).seen) }
        ensures kept { held_of (beneath self.new) ≡ held_of (beneath self.old) }
        ensures cause { HasCause (faults_of self.old) (faults_of self.new) result }
        ensures strays { strays_of (beneath self.old) ≤ strays_of (beneath self.new) }
        ensures in_range { at + length buf.old ≤ length (held_of (beneath self.old)).seen
            → strays_of (beneath self.new) ≡ strays_of (beneath self.old) }
        ensures spent { passes_of self.old ≡ 0 → IsErr result }
        ensures stopped { passes_of self.old ≡ 0 → beneath self.new ≡ beneath self.old }
        ensures passed { 0 < passes_of self.old
            → Advances (plan_of (beneath self.old)) (plan_of (beneath self.new)) }
        ensures passed_on { 0 < passes_of self.old
            → HasCause (plan_of (beneath self.old)).faults (plan_of (beneath self.new)).faults result }
        ensures passes { passes_of self.new ≡ passes_of self.old - 1 }
        ensures once { OnErr result (faults_of self.new ≡ raised (faults_of self.old)) }
    {
        if self.refuses() {
            return Err(DiskFault);
        }
        self.disk.read_at(at, buf)
    }

    fn write_at(&mut self, at: u64, bytes: &[u8]) -> Result<(), DiskFault>
        ensures written { OnOk result (held_of (beneath self.new)
            ≡ after_write at bytes.now (held_of (beneath self.old))) }
        ensures within { OnOk result (at ≤ length (held_of (beneath self.old)).seen) }
        ensures failed { OnErr result (AfterFailedWrite at (length bytes.now) (held_of (beneath self.old)) (held_of (beneath self.new))) }
        ensures cause { HasCause (faults_of self.old) (faults_of self.new) result }
        ensures strays { strays_of (beneath self.old) ≤ strays_of (beneath self.new) }
        ensures in_range { at ≤ length (held_of (beneath self.old)).seen
            → strays_of (beneath self.new) ≡ strays_of (beneath self.old) }
        ensures spent { passes_of self.old ≡ 0 → IsErr result }
        ensures stopped { passes_of self.old ≡ 0 → beneath self.new ≡ beneath self.old }
        ensures passed { 0 < passes_of self.old
            → Advances (plan_of (beneath self.old)) (plan_of (beneath self.new)) }
        ensures passed_on { 0 < passes_of self.old
            → HasCause (plan_of (beneath self.old)).faults (plan_of (beneath self.new)).faults result }
        ensures passes { passes_of self.new ≡ passes_of self.old - 1 }
        ensures once { OnErr result (faults_of self.new ≡ raised (faults_of self.old)) }
    {
        if self.refuses() {
            return Err(DiskFault);
        }
        self.disk.write_at(at, bytes)
    }

    fn sync(&mut self) -> Result<(), DiskFault>
        ensures synced { OnOk result (held_of (beneath self.new)
            ≡ after_sync (held_of (beneath self.old))) }
        ensures failed { OnErr result (held_of (beneath self.new) ≡ held_of (beneath self.old)) }
        ensures cause { HasCause (faults_of self.old) (faults_of self.new) result }
        ensures strays { strays_of (beneath self.new) ≡ strays_of (beneath self.old) }
        ensures spent { passes_of self.old ≡ 0 → IsErr result }
        ensures stopped { passes_of self.old ≡ 0 → beneath self.new ≡ beneath self.old }
        ensures passed { 0 < passes_of self.old
            → Advances (plan_of (beneath self.old)) (plan_of (beneath self.new)) }
        ensures passed_on { 0 < passes_of self.old
            → HasCause (plan_of (beneath self.old)).faults (plan_of (beneath self.new)).faults result }
        ensures passes { passes_of self.new ≡ passes_of self.old - 1 }
        ensures once { OnErr result (faults_of self.new ≡ raised (faults_of self.old)) }
    {
        if self.refuses() {
            return Err(DiskFault);
        }
        self.disk.sync()
    }

    fn faults(&self) -> u64 {
        self.disk.faults().saturating_add(self.refused)
    }
}
