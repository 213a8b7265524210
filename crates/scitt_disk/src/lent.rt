ghost use Rattle.std.specs.Prelude.{◌≡◌, refl};
ghost use Rattle.std.proofs.Common.{◌∙◌};

use crate::device::{Disk, DiskFault};

/// A disk that is lent is a disk.
impl<D: Disk> Disk for &mut D {
    ghost tells = { D.tells };

    ghost held = { λ d. D.held d.now };

    ghost fault_count = { λ d. D.fault_count d.now };

    ghost strays = { λ d. D.strays d.now };

    ghost same = { λ a b. b.ghost_name ≡ a.ghost_name };

    ghost same_self = { λ a. refl };

    ghost same_then = { λ a b c p q. q ∙ p };

    ghost seen_is_image = { λ d. D.seen_is_image d.now };

    fn len(&mut self) -> Result<u64, DiskFault> {
        (**self).len()
    }

    fn read_at(&mut self, at: u64, buf: &mut [u8]) -> Result<(), DiskFault> {
        (**self).read_at(at, buf)
    }

    fn write_at(&mut self, at: u64, bytes: &[u8]) -> Result<(), DiskFault> {
        (**self).write_at(at, bytes)
    }

    fn sync(&mut self) -> Result<(), DiskFault> {
        (**self).sync()
    }

    fn faults(&self) -> u64 {
        (**self).faults()
    }
}
