ghost use Rattle.std.specs.Prelude.{◌≡◌, ℕ, ◌≤◌, ◌<◌, IsTrue, [], ◌∷◌, length};
ghost use Rattle.scitt_journal.specs.State.{Closed};

use scitt_disk::Disk;
use scitt_journal::Journal;
use std::alloc::Global;

/// Makes a journal on a disk that is lent, and gives the disk back: what the disk then holds is known to the lender.
pub fn made_on<D: Disk>(alloc: Global, disk: &mut D, body: &[u8]) -> bool
    requires some { 0 < length body.now }
    requires short { length body.now ≤ 16777216 }
    ensures { IsTrue result → IsTrue D.tells → (gate : ℕ) × Closed (D.held disk.new) gate (body.now ∷ []) }
{
    let Ok(journal) = Journal::create(alloc, disk, body) else {
        return false;
    };
    let _disk = journal.close();
    true
}
