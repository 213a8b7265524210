// A seat at a service that serves a connection.
ghost use Rattle.std.specs.Prelude.{◌≡◌, List, ℕ, [], Some};
ghost use Rattle.http_wire.specs.Taking.{HasReadCause};
ghost use Rattle.scitt_answers.specs.Exchanges.{state_of};
ghost use Rattle.scitt_answers.specs.Sessions.{Served};
ghost use Rattle.scitt_answers.specs.declared.serving.SessionEnd.TheVariants as end;
ghost use Rattle.scrapi.specs.Seats.{begins_at, LastTurn, Follows, IsSameSeat};

use cbor_core::Bytes;
use hss_keys::Key60;
use log_replay::Checked;
use registrar::{Outcome, ReadBack};
use scitt_answers::{Gate, SessionEnd, Turns, serve};
use scitt_disk::Disk;
use scitt_io::{Clock, Link};
use scitt_service::Service;
use statement::Statement;
use std::alloc::{AllocError, Global};
use std::sync::Wait;
use turn_lock::CallerSeat;

/// A seat that is lent for a connection: between its turns others may make theirs.
#[derive(Drop)]
pub struct Seated<'a, D: Disk, R: Wait> {
    rt: &'a R,
    service: &'a Service<D>,
    seat: &'a mut CallerSeat,
}

impl<'a, D: Disk, R: Wait> Turns for Seated<'a, D, R> {
    ghost use Rattle.std.proofs.Common.{subst, sym, refl, ◌∙◌};
    ghost use mathlib.Core.List.{IsPrefix};
    ghost use Rattle.log_replay.specs.Judging.{key_of};
    ghost use Rattle.log_replay.specs.Records.{Log};

    ghost tells = { D.tells };

    ghost ready = { λ s. s.seat.now.lock ≡ s.service.now };

    ghost begins = { λ s m. begins_at s.seat.now m };

    ghost last = { λ s found left. LastTurn s.seat.now found left };

    ghost follows = { Follows };

    ghost names = { λ s said. key_of s.seat.now.seen said };

    ghost same = { λ a b. (b.seat.ghost_name ≡ a.seat.ghost_name) × IsSameSeat a.seat.now b.seat.now };

    fn key_hint(&mut self, statement: &Statement) -> Option<Key60> {
        self.service.key_hint(self.rt, self.seat, statement)
    }

    fn register(&mut self, alloc: Global, checked: &Checked, moment: u64) -> (Outcome, u32) {
        self.service
            .register(self.rt, alloc, self.seat, checked, moment)
    }

    fn receipt(&mut self, alloc: Global, index: u32) -> (Result<Bytes, ReadBack>, u32) {
        self.service.receipt(self.rt, alloc, self.seat, index)
    }

    fn statement(&mut self, alloc: Global, index: u32) -> (Result<Bytes, ReadBack>, u32) {
        self.service.statement(self.rt, alloc, self.seat, index)
    }

    fn consistency(&mut self, alloc: Global, old: u32) -> (Result<Bytes, ReadBack>, u32) {
        self.service.consistency(self.rt, alloc, self.seat, old)
    }

    fn policy(&mut self) -> (Result<Bytes, AllocError>, u32) {
        self.service.policy(self.rt, self.seat)
    }

    fn keys(&mut self, alloc: Global) -> (Result<Bytes, AllocError>, u32) {
        self.service.keys(self.rt, alloc, self.seat)
    }

    fn size(&mut self) -> u32 {
        self.service.size(self.rt, self.seat)
    }

    ghost same_self = { λ _. (refl, record { lock = refl; weight = refl }) };

    ghost same_then = { λ _ _ _ p q. (q.0 ∙ p.0, record { lock = q.1.lock ∙ p.1.lock; weight = q.1.weight ∙ p.1.weight }) };

    ghost follows_last = { λ _ _ _ next p q. subst (λ (log : Log). IsPrefix log next.standing.log) (sym p.log_left) q };
}

/// Serves one connection by a seat at a service: all that the server does for it. Between its turns others may make theirs.
///
/// Each request has its answer by the log that its turn found, which begins with what the seat had seen and begins what the seat has
/// seen afterwards. A statement's signature is checked outside every turn, between two calls of the gate. Where the session ended
/// and what was written are those of `scitt_answers::serve`. It waits for other callers' turns.
///
/// Condition: the seat is this service's.
pub fn serve_connection<D: Disk, L: Link, C: Clock, G: Gate>(
    rt: &impl Wait,
    alloc: Global,
    service: &Service<D>,
    seat: &mut CallerSeat,
    link: &mut L,
    clock: &mut C,
    gate: &mut G,
) -> SessionEnd
    requires lock { seat.old.lock ≡ service.now }
    ensures served { (held : List ℕ) × Served D.tells Follows 1 1001 (begins_at seat.old) (begins_at seat.new) (LastTurn seat.old) (LastTurn seat.new) [] held
        (L.left link.old) (L.left link.new) (L.taken link.old) (L.taken link.new)
        (state_of C.misses C.readings C.moments clock.old) (state_of C.misses C.readings C.moments clock.new) (Some result) }
    ensures seat { IsSameSeat seat.old seat.new }
    ensures reading { HasReadCause (L.faults link.old) (L.faults link.new) (result ≡ end.ReadFault) }
    ensures writing { HasReadCause (L.refused link.old) (L.refused link.new) (result ≡ end.WriteFault) }
{
    let mut seated = Seated { rt, service, seat };
    serve(alloc, &mut seated, link, clock, gate)
}
