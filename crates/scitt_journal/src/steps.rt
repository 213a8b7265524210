// Steps on a disk that the journal's calls are made of.
ghost use Rattle.std.specs.Prelude.{◌≡◌, ℕ, ◌+◌, ◌≤◌, ◌^◌, ◌<◌, IsTrue, OnOk, OnErr, List, [], ◌∷◌, ◌++◌, length, vec_capacity};
ghost use Rattle.scitt_io.specs.Causes.{HasCause};
ghost use Rattle.scitt_disk.specs.Images.{CrashLeaves};
ghost use Rattle.scitt_disk.specs.Changes.{after_write, after_sync, AfterFailedWrite};
ghost use Rattle.scitt_journal.specs.Layout.{sized};
ghost use Rattle.scitt_journal.specs.State.{MayLeave};

use scitt_disk::{Disk, DiskFault, image_laws, moment_laws};

/// An open gate, and a closed one.
pub const OPEN: u8 = 1;

pub const SHUT: u8 = 0;

/// Writes and syncs.
pub fn write_and_sync<D: Disk>(disk: &mut D, at: u64, bytes: &[u8]) -> Result<(), DiskFault>
    ensures done { OnOk result (IsTrue D.tells
        → D.held disk.new ≡ after_sync (after_write at bytes.now (D.held disk.old))) }
    ensures failed { OnErr result (IsTrue D.tells
        → AfterFailedWrite at (length bytes.now) (D.held disk.old) (D.held disk.new)) }
    ensures any_moment { IsTrue D.tells → CrashLeaves
        (MayLeave at bytes.now (D.held disk.old)) (D.held disk.old) (D.held disk.new) }
    ensures cause { HasCause (D.fault_count disk.old) (D.fault_count disk.new) result }
    ensures in_range { IsTrue D.tells → at ≤ length (D.held disk.old).seen → D.strays disk.new ≡ D.strays disk.old }
    ensures same { D.same disk.old disk.new }
{
    image_laws();
    moment_laws();
    disk.write_at(at, bytes)?;
    disk.sync()
}

/// Fills the buffer with a record and the closed gate behind it. It takes no memory.
pub fn fill(buffer: &mut Vec<u8>, body: &[u8])
    requires short { length body.now < 2 ^ 32 }
    requires room { length body.now + 5 ≤ vec_capacity buffer.old }
    ensures items { buffer.new.items ≡ sized body.now ++ 0 ∷ [] }
    ensures capacity { vec_capacity buffer.old ≤ vec_capacity buffer.new }
{
    let size = (body.len() as u32).to_be_bytes();
    buffer.clear();
    buffer.extend_from_slice(&size).unwrap();
    buffer.extend_from_slice(body).unwrap();
    buffer.push(SHUT).unwrap();
}
