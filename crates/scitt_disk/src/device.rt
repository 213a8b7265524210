ghost use Rattle.std.specs.Prelude.{◌≡◌, ℕ, ◌+◌, ◌≤◌, Bool, IsTrue, IfOk, OnOk, OnErr, length, take, drop};
ghost use Rattle.scitt_io.specs.Causes.{HasCause};
ghost use Rattle.scitt_disk.specs.Images.{Held, IsImage};
ghost use Rattle.scitt_disk.specs.Changes.{after_write, after_sync, AfterFailedWrite};

use thiserror::Error;

/// A call of a disk failed. The disk has counted it.
#[derive(Debug, Clone, Copy, PartialEq, Eq, Error)]
#[error("disk fault")]
pub struct DiskFault;

/// A file that is read and written at any place, and synced.
///
/// Whether a disk tells what it holds is fixed by its type. Where it tells, `held` has the bytes that reads see, the
/// bytes as the last successful sync left them, and the ranges written after it. Those three decide what may be found
/// after a crash: outside of these ranges, up to the synced length, the synced bytes; inside of them, and further on,
/// anything; and a length from the synced one up to the furthest that was reached. A successful sync thus leaves a
/// single outcome, the bytes that reads see. A failed write is a written range too, or else it widens nothing; a failed
/// sync changes nothing.
///
/// A caller can provoke a fault by asking for what isn't held. `strays` counts such calls, so that a call above can say
/// that it made none: then each fault that it answers is the disk's own.
pub trait Disk {
    ghost tells: { Bool };

    ghost held: { Self → Held };

    ghost fault_count: { Self → ℕ };

    // how often it was asked for what it doesn't hold: a read of a range that passes the end, a write that begins past it
    ghost strays: { Self → ℕ };

    // the two are one object: whoever lends a disk knows it again
    ghost same: { Self → Self → Type 0 };

    /// The length of the file in bytes. `DiskFault` where the count of faults rose.
    fn len(&mut self) -> Result<u64, DiskFault>
        ensures len { IfOk result (λ n. IsTrue tells → n ≡ length (held self.old).seen) }
        ensures kept { IsTrue tells → held self.new ≡ held self.old }
        ensures cause { HasCause (fault_count self.old) (fault_count self.new) result }
        ensures strays { strays self.new ≡ strays self.old }
        ensures same { same self.old self.new };

    /// Fills the buffer with the bytes from place `at` on. `DiskFault` where the count of faults rose, as it does for
    /// a range that passes the end. Only such a call raises the count of strays.
    fn read_at(&mut self, at: u64, buf: &mut [u8]) -> Result<(), DiskFault>
        ensures bytes { OnOk result (IsTrue tells
            → buf.new ≡ take (length buf.old) (drop at (held self.old).seen)) }
        ensures within { OnOk result (IsTrue tells
            → at + length buf.old ≤ length (held self.old).seen) }
        ensures kept { IsTrue tells → held self.new ≡ held self.old }
        ensures cause { HasCause (fault_count self.old) (fault_count self.new) result }
        ensures strays { strays self.old ≤ strays self.new }
        ensures in_range { IsTrue tells → at + length buf.old ≤ length (held self.old).seen
            → strays self.new ≡ strays self.old }
        ensures same { same self.old self.new };

    /// Writes the bytes from place `at` on; the file grows where they pass its end. `DiskFault` where the count of
    /// faults rose, as it does for a write that begins past the end. Only such a call raises the count of strays.
    fn write_at(&mut self, at: u64, bytes: &[u8]) -> Result<(), DiskFault>
        ensures written { OnOk result (IsTrue tells
            → held self.new ≡ after_write at bytes.now (held self.old)) }
        ensures within { OnOk result (IsTrue tells → at ≤ length (held self.old).seen) }
        ensures failed { OnErr result (IsTrue tells
            → AfterFailedWrite at (length bytes.now) (held self.old) (held self.new)) }
        ensures cause { HasCause (fault_count self.old) (fault_count self.new) result }
        ensures strays { strays self.old ≤ strays self.new }
        ensures in_range { IsTrue tells → at ≤ length (held self.old).seen
            → strays self.new ≡ strays self.old }
        ensures same { same self.old self.new };

    /// From its success until the next write a crash leaves just the bytes that reads see. `DiskFault` where the count of
    /// faults rose; nothing has changed then.
    fn sync(&mut self) -> Result<(), DiskFault>
        ensures synced { OnOk result (IsTrue tells → held self.new ≡ after_sync (held self.old)) }
        ensures failed { OnErr result (IsTrue tells → held self.new ≡ held self.old) }
        ensures cause { HasCause (fault_count self.old) (fault_count self.new) result }
        ensures strays { strays self.new ≡ strays self.old }
        ensures same { same self.old self.new };

    /// How often a call of this disk has failed, up to 2^64 - 1. This is no call of the device, and never fails.
    fn faults(&self) -> u64
        ensures { result ≡ fault_count self.now };

    ghost same_self: { (a : Self) → same a a };

    ghost same_then: { (a b c : Self) → same a b → same b c → same a c };

    // a crash may also leave all that was written
    ghost seen_is_image: { (d : Self) → IsTrue tells → IsImage (held d).epoch (held d).seen };
}
