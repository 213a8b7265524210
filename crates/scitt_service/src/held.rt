// The registrar that stands behind the lock.
ghost use Rattle.std.specs.Prelude.{◌≡◌, IsTrue, length};
ghost use Rattle.std.specs.Result.{result_ok};
ghost use Rattle.statement.specs.Said.{said_of};
ghost use Rattle.log_replay.specs.Records.{entries_of};
ghost use Rattle.registrar.specs.Turns.{register_call, receipt_call, statement_call, consistency_call, policy_call, keys_call, key_hint_call, registered, read, made, hint};
ghost use Rattle.registrar.specs.Fits.{IsFaultOf};
ghost use Rattle.registrar.specs.Reading.{IsReadFault};
ghost use Rattle.scitt_service.specs.Served.{Works, Looks, Stays};

use cbor_core::Bytes;
use hss_keys::Key60;
use log_replay::Checked;
use registrar::{Outcome, ReadBack, Registrar};
use scitt_disk::Disk;
use statement::Statement;
use std::alloc::Global;
use turn_lock::{Grows, OutOfMemory};

/// A registrar, whose list is its log, over any disk. Its two numbers are the next signing index and the disk's count of
/// faults.
#[derive(Drop)]
pub struct Held<D: Disk> {
    pub registrar: Registrar<D>,
}

impl<D: Disk> Grows for Held<D> {
    ghost use Rattle.std.specs.Prelude.{Some};
    ghost use Rattle.scitt_service.specs.Served.{marks_of};

    ghost told = { λ h. Some h.registrar.standing.log };

    ghost marked = { λ h. marks_of D.fault_count h.registrar };

    fn len(&self) -> u64 {
        self.registrar.records()
    }

    fn marks(&self) -> [u64; 2] {
        [self.registrar.next(), self.registrar.faults()]
    }
}

impl<D: Disk> Held<D> {
    pub fn size(&self) -> u32
        ensures looks { Looks self.now.registrar self.now.registrar }
        ensures size { result ≡ length (entries_of self.now.registrar.standing.log) }
    {
        self.registrar.sound();
        self.registrar.size()
    }

    pub fn key_hint(&self, statement: &Statement) -> Option<Key60>
        ensures { Works D.fault_count (IsTrue D.tells) (key_hint_call (said_of statement.now)) (hint result) Stays
            self.now.registrar self.now.registrar }
    {
        self.registrar.sound();
        self.registrar.key_hint(statement)
    }

    pub fn register(&mut self, alloc: Global, checked: &Checked, moment: u64) -> (Outcome, u32)
        ensures works { Works D.fault_count (IsTrue D.tells) (register_call (said_of checked.now.statement) moment) (registered result.0) (λ before now. IsFaultOf before now result.0)
            self.old.registrar self.new.registrar }
        ensures size { result.1 ≡ length (entries_of self.new.registrar.standing.log) }
    {
        let answer = self.registrar.register(alloc, checked, moment);
        let size = self.registrar.size();
        (answer, size)
    }

    pub fn receipt(&mut self, alloc: Global, index: u32) -> (Result<Bytes, ReadBack>, u32)
        ensures works { Works D.fault_count (IsTrue D.tells) (receipt_call index) (read result.0) (λ before now. IsReadFault before now result.0)
            self.old.registrar self.new.registrar }
        ensures size { result.1 ≡ length (entries_of self.new.registrar.standing.log) }
    {
        let answer = self.registrar.receipt(alloc, index);
        let size = self.registrar.size();
        (answer, size)
    }

    pub fn statement(&mut self, alloc: Global, index: u32) -> (Result<Bytes, ReadBack>, u32)
        ensures works { Works D.fault_count (IsTrue D.tells) (statement_call index) (read result.0) (λ before now. IsReadFault before now result.0)
            self.old.registrar self.new.registrar }
        ensures size { result.1 ≡ length (entries_of self.new.registrar.standing.log) }
    {
        let answer = self.registrar.statement(alloc, index);
        let size = self.registrar.size();
        (answer, size)
    }

    pub fn consistency(&mut self, alloc: Global, old: u32) -> (Result<Bytes, ReadBack>, u32)
        ensures works { Works D.fault_count (IsTrue D.tells) (consistency_call old) (read result.0) (λ before now. IsReadFault before now result.0)
            self.old.registrar self.new.registrar }
        ensures size { result.1 ≡ length (entries_of self.new.registrar.standing.log) }
    {
        let answer = self.registrar.consistency(alloc, old);
        let size = self.registrar.size();
        (answer, size)
    }

    pub fn policy(&self) -> (Result<Bytes, OutOfMemory>, u32)
        ensures works { Works D.fault_count (IsTrue D.tells) policy_call (made (result_ok result.0)) Stays
            self.now.registrar self.now.registrar }
        ensures size { result.1 ≡ length (entries_of self.now.registrar.standing.log) }
    {
        let answer = self.registrar.policy();
        let size = self.registrar.size();
        (answer, size)
    }

    pub fn keys(&self, alloc: Global) -> (Result<Bytes, OutOfMemory>, u32)
        ensures works { Works D.fault_count (IsTrue D.tells) keys_call (made (result_ok result.0)) Stays
            self.now.registrar self.now.registrar }
        ensures size { result.1 ≡ length (entries_of self.now.registrar.standing.log) }
    {
        let answer = self.registrar.keys(alloc);
        let size = self.registrar.size();
        (answer, size)
    }
}
