// A registrar on one thread.
ghost use Rattle.std.specs.Prelude.{◌≡◌, ℕ, ◌<◌, ◌^◌, List, [], Some};
ghost use Rattle.http_wire.specs.Taking.{HasReadCause};
ghost use Rattle.scitt_answers.specs.Marks.{mark_of};
ghost use Rattle.scitt_answers.specs.Exchanges.{state_of};
ghost use Rattle.scitt_answers.specs.Holding.{KeepsDisk};
ghost use Rattle.scitt_answers.specs.Sessions.{Served};
ghost use Rattle.scitt_answers.specs.declared.serving.SessionEnd.TheVariants as end;

use crate::gate::NoGate;
use crate::serving::{SessionEnd, serve};
use crate::turns::Turns;
use cbor_core::Bytes;
use hss_keys::Key60;
use log_replay::Checked;
use registrar::{Outcome, ReadBack, Registrar, turn_laws};
use scitt_disk::Disk;
use scitt_io::{Clock, Link};
use statement::Statement;
use std::alloc::{AllocError, Global};

// A law: a disk's count of faults has 64 bits.
fn count_law<D: Disk>(registrar: &Registrar<D>)
    ensures { D.fault_count registrar.now.disk < 2 ^ 64 }
{
    let _count = registrar.faults();
}

/// A registrar on one thread: each turn finds what the turn before left.
#[derive(Drop)]
pub struct Local<'a, D: Disk> {
    /// The registrar that is lent.
    pub registrar: &'a mut Registrar<D>,
}

impl<'a, D: Disk> Turns for Local<'a, D> {
    ghost use Rattle.std.proofs.Common.{◌∙◌, sym, refl, le_refl, le_trans};
    ghost use Rattle.log_replay.specs.Judging.{key_of};

    ghost tells = { D.tells };

    ghost ready = { λ _. Unit {0} };

    ghost begins = { λ l m. m ≡ mark_of D.fault_count l.registrar.now };

    ghost last = { λ l found left. left ≡ mark_of D.fault_count l.registrar.now };

    ghost follows = { λ left next. next ≡ left };

    ghost names = { λ l said. key_of l.registrar.now.standing.log said };

    ghost same = { λ a b. (b.registrar.ghost_name ≡ a.registrar.ghost_name)
        × KeepsDisk D.tells D.same D.strays D.fault_count a.registrar.now.disk b.registrar.now.disk };

    ghost same_self = { λ a. (refl, record { same_one = D.same_self a.registrar.now.disk; no_strays = λ _. refl; later = le_refl _ }) };

    ghost same_then = { λ a b c p q. (
      q.0 ∙ p.0,
      record {
        same_one = D.same_then a.registrar.now.disk b.registrar.now.disk c.registrar.now.disk p.1.same_one q.1.same_one;
        no_strays = λ tells. q.1.no_strays tells ∙ p.1.no_strays tells;
        later = le_trans p.1.later q.1.later;
      },
    ) };

    fn key_hint(&mut self, statement: &Statement) -> Option<Key60> {
        self.registrar.sound();
        self.registrar.key_hint(statement)
    }

    fn register(&mut self, alloc: Global, checked: &Checked, moment: u64) -> (Outcome, u32) {
        turn_laws();
        count_law(self.registrar);
        let outcome = self.registrar.register(alloc, checked, moment);
        let size = self.registrar.size();
        (outcome, size)
    }

    fn receipt(&mut self, alloc: Global, index: u32) -> (Result<Bytes, ReadBack>, u32) {
        count_law(self.registrar);
        let bytes = self.registrar.receipt(alloc, index);
        let size = self.registrar.size();
        (bytes, size)
    }

    fn statement(&mut self, alloc: Global, index: u32) -> (Result<Bytes, ReadBack>, u32) {
        count_law(self.registrar);
        let bytes = self.registrar.statement(alloc, index);
        let size = self.registrar.size();
        (bytes, size)
    }

    fn consistency(&mut self, alloc: Global, old: u32) -> (Result<Bytes, ReadBack>, u32) {
        count_law(self.registrar);
        let bytes = self.registrar.consistency(alloc, old);
        let size = self.registrar.size();
        (bytes, size)
    }

    fn policy(&mut self) -> (Result<Bytes, AllocError>, u32) {
        let bytes = self.registrar.policy();
        let size = self.registrar.size();
        (bytes, size)
    }

    fn keys(&mut self, alloc: Global) -> (Result<Bytes, AllocError>, u32) {
        let bytes = self.registrar.keys(alloc);
        let size = self.registrar.size();
        (bytes, size)
    }

    fn size(&mut self) -> u32 {
        self.registrar.sound();
        self.registrar.size()
    }

    ghost follows_last = { λ _ _ _ _ p q. q ∙ sym p };
}

/// Serves one connection by a registrar, on one thread, and waits for nobody; its ends are those of `serve`.
pub fn serve_local<D: Disk, L: Link, C: Clock>(
    alloc: Global,
    registrar: &mut Registrar<D>,
    link: &mut L,
    clock: &mut C,
) -> SessionEnd
    ensures served { (held : List ℕ) × Served D.tells (λ left next. next ≡ left) 1 1001
        (λ m. m ≡ mark_of D.fault_count registrar.old) (λ m. m ≡ mark_of D.fault_count registrar.new)
        (λ found left. left ≡ mark_of D.fault_count registrar.old) (λ found left. left ≡ mark_of D.fault_count registrar.new) [] held
        (L.left link.old) (L.left link.new) (L.taken link.old) (L.taken link.new)
        (state_of C.misses C.readings C.moments clock.old) (state_of C.misses C.readings C.moments clock.new) (Some result) }
    ensures disk { KeepsDisk D.tells D.same D.strays D.fault_count registrar.old.disk registrar.new.disk }
    ensures reading { HasReadCause (L.faults link.old) (L.faults link.new) (result ≡ end.ReadFault) }
    ensures writing { HasReadCause (L.refused link.old) (L.refused link.new) (result ≡ end.WriteFault) }
{
    let mut local = Local { registrar };
    serve(alloc, &mut local, link, clock, &mut NoGate)
}
