// The calls that wait: each is one turn on the registrar.
ghost use Rattle.std.specs.Prelude.{◌≡◌, IsTrue, length};
ghost use Rattle.std.specs.Result.{result_ok};
ghost use Rattle.statement.specs.Said.{said_of};
ghost use Rattle.log_replay.specs.Records.{entries_of};
ghost use Rattle.log_replay.specs.Judging.{key_of};
ghost use Rattle.registrar.specs.Turns.{register_call, receipt_call, statement_call, consistency_call, policy_call, keys_call, key_hint_call, registered, read, made, hint};
ghost use Rattle.registrar.specs.Fits.{IsFaultOf};
ghost use Rattle.registrar.specs.Reading.{IsReadFault};
ghost use Rattle.scitt_service.specs.Served.{Served, Works, Looks, Stays, NamesKey};

use crate::held::Held;
use crate::service::Service;
use cbor_core::Bytes;
use hss_keys::Key60;
use log_replay::Checked;
use registrar::{Outcome, ReadBack};
use scitt_disk::Disk;
use statement::Statement;
use std::alloc::Global;
use std::sync::Wait;
use turn_lock::{CallerSeat, OutOfMemory};

impl<D: Disk> Service<D> {
    /// How many entries the log has that this turn finds.
    pub fn size(&self, rt: &impl Wait, seat: &mut CallerSeat) -> u32
        requires lock { seat.old.lock ≡ self.now }
        ensures turn { Served D.fault_count Looks seat.old seat.new }
        ensures size { result ≡ length (entries_of seat.new.seen) }
    {
        self.lock.with(
            rt,
            seat,
            |held: &mut Held<D>|
                ensures { Looks held.old.registrar held.new.registrar × (result ≡ length (entries_of held.new.registrar.standing.log)) }
            { held.size() },
        )
    }

    /// The key that the policy in force names for a statement; `None` exactly where it names none.
    pub fn key_hint(
        &self,
        rt: &impl Wait,
        seat: &mut CallerSeat,
        statement: &Statement,
    ) -> Option<Key60>
        requires lock { seat.old.lock ≡ self.now }
        ensures turn { Served D.fault_count
            (Works D.fault_count (IsTrue D.tells) (key_hint_call (said_of statement.now)) (hint result) Stays) seat.old seat.new }
    {
        self.lock.with(
            rt,
            seat,
            |held: &mut Held<D>|
                ensures { Works D.fault_count (IsTrue D.tells) (key_hint_call (said_of statement.entry.now)) (hint result) Stays
                    held.old.registrar held.new.registrar }
            { held.key_hint(statement) },
        )
    }

    /// A registration of a checked statement at a moment, and the size of the log after it; its outcomes are the registrar's.
    ///
    /// Condition: where the log that the seat has seen names a key for the statement, the checked value names that key.
    pub fn register(
        &self,
        rt: &impl Wait,
        alloc: Global,
        seat: &mut CallerSeat,
        checked: &Checked,
        moment: u64,
    ) -> (Outcome, u32)
        requires lock { seat.old.lock ≡ self.now }
        requires key { NamesKey (key_of seat.old.seen (said_of checked.now.statement)) checked.now.pair }
        ensures turn { Served D.fault_count
            (Works D.fault_count (IsTrue D.tells) (register_call (said_of checked.now.statement) moment) (registered result.0) (λ before now. IsFaultOf before now result.0))
            seat.old seat.new }
        ensures size { result.1 ≡ length (entries_of seat.new.seen) }
    {
        self.lock.with(
            rt,
            seat,
            |held: &mut Held<D>|
                ensures { Works D.fault_count (IsTrue D.tells) (register_call (said_of checked.entry.now.statement) moment) (registered result.0) (λ before now. IsFaultOf before now result.0)
                    held.old.registrar held.new.registrar × (result.1 ≡ length (entries_of held.new.registrar.standing.log)) }
            { held.register(alloc, checked, moment) },
        )
    }

    /// The receipt of an entry, or why there is none, as the registrar answers it, and the size of the log.
    pub fn receipt(
        &self,
        rt: &impl Wait,
        alloc: Global,
        seat: &mut CallerSeat,
        index: u32,
    ) -> (Result<Bytes, ReadBack>, u32)
        requires lock { seat.old.lock ≡ self.now }
        ensures turn { Served D.fault_count
            (Works D.fault_count (IsTrue D.tells) (receipt_call index) (read result.0) (λ before now. IsReadFault before now result.0))
            seat.old seat.new }
        ensures size { result.1 ≡ length (entries_of seat.new.seen) }
    {
        self.lock.with(
            rt,
            seat,
            |held: &mut Held<D>|
                ensures { Works D.fault_count (IsTrue D.tells) (receipt_call index) (read result.0) (λ before now. IsReadFault before now result.0)
                    held.old.registrar held.new.registrar × (result.1 ≡ length (entries_of held.new.registrar.standing.log)) }
            { held.receipt(alloc, index) },
        )
    }

    /// The logged form of an entry, or why there is none, as the registrar answers it, and the size of the log.
    pub fn statement(
        &self,
        rt: &impl Wait,
        alloc: Global,
        seat: &mut CallerSeat,
        index: u32,
    ) -> (Result<Bytes, ReadBack>, u32)
        requires lock { seat.old.lock ≡ self.now }
        ensures turn { Served D.fault_count
            (Works D.fault_count (IsTrue D.tells) (statement_call index) (read result.0) (λ before now. IsReadFault before now result.0))
            seat.old seat.new }
        ensures size { result.1 ≡ length (entries_of seat.new.seen) }
    {
        self.lock.with(
            rt,
            seat,
            |held: &mut Held<D>|
                ensures { Works D.fault_count (IsTrue D.tells) (statement_call index) (read result.0) (λ before now. IsReadFault before now result.0)
                    held.old.registrar held.new.registrar × (result.1 ≡ length (entries_of held.new.registrar.standing.log)) }
            { held.statement(alloc, index) },
        )
    }

    /// The consistency receipt of an older size, or why there is none, as the registrar answers it, and the size of the log.
    pub fn consistency(
        &self,
        rt: &impl Wait,
        alloc: Global,
        seat: &mut CallerSeat,
        old: u32,
    ) -> (Result<Bytes, ReadBack>, u32)
        requires lock { seat.old.lock ≡ self.now }
        ensures turn { Served D.fault_count
            (Works D.fault_count (IsTrue D.tells) (consistency_call old) (read result.0) (λ before now. IsReadFault before now result.0))
            seat.old seat.new }
        ensures size { result.1 ≡ length (entries_of seat.new.seen) }
    {
        self.lock.with(
            rt,
            seat,
            |held: &mut Held<D>|
                ensures { Works D.fault_count (IsTrue D.tells) (consistency_call old) (read result.0) (λ before now. IsReadFault before now result.0)
                    held.old.registrar held.new.registrar × (result.1 ≡ length (entries_of held.new.registrar.standing.log)) }
            { held.consistency(alloc, old) },
        )
    }

    /// The strict bytes of the policy in force, and the size of the log. An `Err` is want of memory.
    pub fn policy(&self, rt: &impl Wait, seat: &mut CallerSeat) -> (Result<Bytes, OutOfMemory>, u32)
        requires lock { seat.old.lock ≡ self.now }
        ensures turn { Served D.fault_count
            (Works D.fault_count (IsTrue D.tells) policy_call (made (result_ok result.0)) Stays)
            seat.old seat.new }
        ensures size { result.1 ≡ length (entries_of seat.new.seen) }
    {
        self.lock.with(
            rt,
            seat,
            |held: &mut Held<D>|
                ensures { Works D.fault_count (IsTrue D.tells) policy_call (made (result_ok result.0)) Stays
                    held.old.registrar held.new.registrar × (result.1 ≡ length (entries_of held.new.registrar.standing.log)) }
            { held.policy() },
        )
    }

    /// The strict bytes of the key set that has the log's key alone, and the size of the log. An `Err` is want of memory.
    pub fn keys(
        &self,
        rt: &impl Wait,
        alloc: Global,
        seat: &mut CallerSeat,
    ) -> (Result<Bytes, OutOfMemory>, u32)
        requires lock { seat.old.lock ≡ self.now }
        ensures turn { Served D.fault_count
            (Works D.fault_count (IsTrue D.tells) keys_call (made (result_ok result.0)) Stays)
            seat.old seat.new }
        ensures size { result.1 ≡ length (entries_of seat.new.seen) }
    {
        self.lock.with(
            rt,
            seat,
            |held: &mut Held<D>|
                ensures { Works D.fault_count (IsTrue D.tells) keys_call (made (result_ok result.0)) Stays
                    held.old.registrar held.new.registrar × (result.1 ≡ length (entries_of held.new.registrar.standing.log)) }
            { held.keys(alloc) },
        )
    }
}
