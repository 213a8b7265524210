ghost use Rattle.std.specs.Prelude.{◌≡◌, ℕ, false, [], IsOk, EachIndex, slice_index};
ghost use Rattle.scitt_io.specs.Causes.{HasCause};
ghost use Rattle.scitt_disk.specs.Changes.{fresh};
ghost use Rattle.scitt_disk.specs.SeenIsImage.{IsImage-from_fresh};

use crate::device::{Disk, DiskFault};

/// A disk that never fails: its count of faults is the constant 0. It drops what is written, reads zeros in any
/// range, and has length 0. What it holds isn't told.
#[derive(Debug, Clone, Copy, PartialEq, Eq)]
pub struct SureDisk;

impl SureDisk {
    pub fn new() -> SureDisk {
        SureDisk
    }
}

impl Default for SureDisk {
    fn default() -> SureDisk {
        SureDisk
    }
}

impl Disk for SureDisk {
    ghost tells = { false };

    ghost held = { λ _. fresh [] };

    ghost fault_count = { λ _. 0 };

    ghost strays = { λ _. 0 };

    ghost same = { λ _ _. Unit {0} };

    ghost same_self = { λ _. tt };

    ghost same_then = { λ _ _ _ _ _. tt };

    ghost seen_is_image = { λ _ _. IsImage-from_fresh [] [] };

    fn len(&mut self) -> Result<u64, DiskFault>
        ensures len { result ≡ Ok 0 }
        ensures cause { HasCause 0 0 result }
    {
        Ok(0)
    }

    fn read_at(&mut self, _at: u64, buf: &mut [u8]) -> Result<(), DiskFault>
        ensures ok { IsOk result }
        ensures zeros { EachIndex buf.new (λ k. slice_index buf.new k ≡ 0) }
        ensures cause { HasCause 0 0 result }
    {
        for byte in buf.iter_mut() {
            *byte = 0;
        }
        Ok(())
    }

    fn write_at(&mut self, _at: u64, _bytes: &[u8]) -> Result<(), DiskFault> {
        Ok(())
    }

    fn sync(&mut self) -> Result<(), DiskFault> {
        Ok(())
    }

    fn faults(&self) -> u64 {
        0
    }
}
