// The service: its lock, and the seats of its callers.
ghost use Rattle.std.specs.Prelude.{◌≡◌, ◌≢◌, ◌≤◌, IsOk, IfOk, IfErr};
ghost use mathlib.Core.List.{IsPrefix};
ghost use Rattle.turn_lock.specs.Calls.{Joined, fresh, lighter};

use crate::held::Held;
use registrar::Registrar;
use scitt_disk::Disk;
use std::alloc::Global;
use std::marker::Model;
use turn_lock::{CallerSeat, OutOfMemory, TurnLock};

/// A registrar behind a lock. A clause sees it as which lock it is.
#[derive(Drop)]
pub struct Service<D: Disk> {
    pub(crate) lock: TurnLock<Held<D>>,
}

impl<D: Disk> Model for Service<D> {
    ghost use Rattle.atomic_table.specs.Seated.{TableId, table_id_coded};

    ghost Value = { TableId };

    ghost coded = { table_id_coded };

    ghost view = { λ s. s.lock };
}

/// Not all seats are there: the service and the seat come back, with the seat's weight.
#[derive(Drop)]
pub struct SeatsOut<D: Disk> {
    pub service: Service<D>,
    pub seat: CallerSeat,
    pub weight: u32,
}

impl<D: Disk> Service<D> {
    /// A service of this registrar, and the seat that has all its weight, 1,024. The seat has seen the registrar's log.
    /// Without memory the registrar comes back.
    pub fn new(
        alloc: Global,
        registrar: Registrar<D>,
    ) -> Result<(Service<D>, CallerSeat), (Registrar<D>, OutOfMemory)>
        ensures ok { IfOk result (λ r. r.1 ≡ fresh r.0 1024 registrar.standing.log) }
        ensures err { IfErr result (λ r. r.0 ≡ registrar) }
    {
        match TurnLock::new(alloc, Held { registrar }) {
            Ok((lock, seat)) => Ok((Service { lock }, seat)),
            Err((held, wanting)) => {
                let Held { registrar } = held;
                Err((registrar, wanting))
            }
        }
    }

    /// A seat of weight 1, split off this one, which loses 1. It has seen the same. Condition: the seat is this service's,
    /// and its weight is at least 2. It takes no memory, so no answer is an `Err`.
    pub fn split(&self, seat: &mut CallerSeat) -> Result<CallerSeat, OutOfMemory>
        requires lock { seat.old.lock ≡ self.now }
        requires weight { 2 ≤ seat.old.weight }
        ensures made { IsOk result }
        ensures ok { IfOk result (λ r. (r ≡ fresh self.now 1 seat.old.seen) × (seat.new ≡ lighter seat.old)) }
    {
        self.lock.split(seat)
    }

    /// Gives the other seat up to this one. The weights add up. One of the two seen logs begins the other, which the seat
    /// has then seen. Condition: both seats are this service's.
    pub fn join(&self, seat: &mut CallerSeat, other: CallerSeat)
        requires lock { (seat.old.lock ≡ self.now) × (other.lock ≡ self.now) }
        ensures { Joined seat.old other seat.new }
    {
        self.lock.join(seat, other);
    }

    /// The registrar, where this seat has all the weight; what the seat has seen begins its log. `SeatsOut` where and only
    /// where the weight isn't 1,024: the service and the seat come back. It waits for nobody. Condition: the seat is this
    /// service's.
    pub fn close(self, seat: CallerSeat) -> Result<Registrar<D>, SeatsOut<D>>
        requires lock { seat.lock ≡ self }
        ensures ok { IfOk result (λ r. IsPrefix seat.seen r.standing.log × (seat.weight ≡ 1024)) }
        ensures err { IfErr result (λ out. (out.service ≡ self) × (out.seat ≡ seat) × (out.weight ≡ seat.weight) × (seat.weight ≢ 1024)) }
    {
        let Service { lock } = self;
        match lock.close(seat) {
            Ok(held) => {
                let Held { registrar } = held;
                Ok(registrar)
            }
            Err(out) => {
                let turn_lock::SeatsOut { lock, seat, weight } = out;
                Err(SeatsOut {
                    service: Service { lock },
                    seat,
                    weight,
                })
            }
        }
    }
}
