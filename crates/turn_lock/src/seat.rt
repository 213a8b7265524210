// A caller's seat.
ghost use Rattle.std.specs.Prelude.{◌≡◌};

use crate::view::View;
use atomic_table::Badge;
use std::marker::Model;

/// The seat of one caller of a lock. It knows the list that it saw last, the list that its last turn found, and the marks
/// that this turn found and left. It has a weight; the seats of a lock that weren't given up have 1,024 in all.
#[derive(Drop)]
pub struct CallerSeat {
    pub(crate) badge: Badge<View>,
    pub(crate) weight: u32,
    pub(crate) length_found: u64,
    pub(crate) marks_found: [u64; 2],
    pub(crate) marks_left: [u64; 2],
}

impl Model for CallerSeat {
    ghost use Rattle.turn_lock.specs.Calls.{Caller, caller_of};
    ghost use Rattle.turn_lock.specs.Seats.{IsAtRest};

    ghost Value = { Caller };

    ghost view = { λ s. caller_of s.badge.table_id s.badge.views s.weight s.length_found s.marks_found s.marks_left };

    ghost invariant = { λ s. IsAtRest s.badge.views s.weight };
}

impl CallerSeat {
    /// How much of the lock this seat is, of 1,024.
    pub fn weight(&self) -> u32
        ensures { result ≡ self.now.weight }
    {
        self.weight
    }
}
