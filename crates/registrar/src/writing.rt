// The records of an admitted statement, written.

ghost use Rattle.std.specs.Prelude.{◌≡◌, ℕ, ◌+◌, ◌<◌, ◌≤◌, ◌⊎◌, IsTrue, OnOk, OnErr, IfSome, List, [], ◌∷◌, ◌++◌, length, None, Some};
ghost use Rattle.scitt_io.specs.Causes.{HasCause};
ghost use Rattle.scitt_disk.specs.Images.{CrashLeaves};
ghost use Rattle.scitt_journal.specs.Layout.{OneOf};
ghost use Rattle.statement.specs.Said.{said_of};
ghost use Rattle.log_replay.specs.Records.{reserve_record, record_of, reserved_of};
ghost use Rattle.log_replay.specs.Steps.{batch_with};
ghost use Rattle.log_replay.specs.declared.checked.Checked.{Checked};
ghost use Rattle.log_replay.specs.WellMade.{WellMade};
ghost use Rattle.registrar.specs.Turns.{needed_of, ready_log, StopsAtReserve, Stops, IsBatch};
ghost use Rattle.registrar.specs.Fits.{Either, Inside, IsRoomFor};
ghost use Rattle.registrar.specs.Writing.{body_needed, HasRoomFor};

use crate::records::{no_records, with_record};
use crate::registrar::Registrar;
use log_replay::{Checked, entry_law, growth_laws, limit_laws, log_laws, more_laws, state_laws};
use scitt_disk::{Disk, DiskFault, moment_laws};
use std::mem;

/// A Reserve that is needed, and its body.
#[derive(Drop)]
pub(crate) struct Needed {
    pub upto: u64,
    pub body: Vec<u8>,
}

/// A Batch of one entry of a checked statement, and its body.
#[derive(Drop)]
pub(crate) struct Batch {
    pub at: u64,
    pub rule: u16,
    pub index: u64,
    pub signature: Vec<u8>,
    pub body: Vec<u8>,
}

impl<D: Disk> Registrar<D> {
    // The Reserve that is needed, where one is.
    fn add_reserve(&mut self, needed: Option<Needed>) -> Result<(), DiskFault>
        requires settled { self.old.standing.pending ≡ None }
        requires is { body_needed needed ≡ needed_of self.old.standing }
        requires reads { IfSome needed (λ n. record_of n.body.items ≡ Some (reserve_record n.upto)) }
        requires well { WellMade (ready_log self.old.standing) }
        requires short { IfSome needed (λ n. HasRoomFor self.old.room n.body.items) }
        requires places { 2 ≤ self.old.places }
        requires ahead { self.old.standing.next ≤ reserved_of (ready_log self.old.standing) }
        ensures added { OnOk result (self.new.standing
            ≡ record self.old.standing { log = ready_log self.old.standing }) }
        ensures failed { OnErr result (StopsAtReserve self.old.standing self.new.standing) }
        ensures images { IsTrue D.tells
            → CrashLeaves (Either self.old.standing.log (ready_log self.old.standing)) (D.held self.old.disk) (D.held self.new.disk) }
        ensures room { self.new.room ≡ self.old.room }
        ensures places { OnOk result (0 < self.new.places) }
        ensures entry { (c : Checked) → IsRoomFor self.old.entry c → IsRoomFor self.new.entry c }
        ensures cause { HasCause (D.fault_count self.old.disk) (D.fault_count self.new.disk) result }
        ensures strays { IsTrue D.tells → D.strays self.new.disk ≡ D.strays self.old.disk }
        ensures same { D.same self.old.disk self.new.disk }
    {
        moment_laws();
        state_laws();
        log_laws();
        growth_laws();
        limit_laws();
        more_laws();
        self.ledger.images();
        let Some(needed) = needed else {
            return Ok(());
        };
        let Needed { upto, body } = needed;
        self.ledger.write(&body)?;
        self.state.accept_reserve(upto);
        let before = mem::replace(&mut self.log, no_records());
        self.log = with_record(before, &body);
        Ok(())
    }

    // The Batch at the next index, which is taken whatever the answer.
    fn add_batch(&mut self, checked: &Checked, batch: &Batch) -> Result<(), DiskFault>
        requires settled { self.old.standing.pending ≡ None }
        requires well { WellMade (self.old.standing.log ++ batch.now.body.items ∷ []) }
        requires reads { record_of batch.now.body.items ≡ Some (batch_with batch.now.at batch.now.rule (said_of checked.now.statement) batch.now.index batch.now.signature.items) }
        requires entry { IsRoomFor self.old.entry checked.now }
        requires index { batch.now.index ≡ self.old.standing.next }
        requires ahead { self.old.standing.next + 1 ≤ reserved_of self.old.standing.log }
        requires small { self.old.standing.next < 1073741824 }
        requires short { HasRoomFor self.old.room batch.now.body.items }
        requires places { 0 < self.old.places }
        ensures added { OnOk result (self.new.standing ≡ record {
          log = self.old.standing.log ++ batch.now.body.items ∷ [];
          next = self.old.standing.next + 1;
          pending = None;
        }) }
        ensures failed { OnErr result (self.new.standing ≡ record {
          log = self.old.standing.log;
          next = self.old.standing.next + 1;
          pending = self.new.standing.pending;
        }) }
        ensures pending { OnErr result (IfSome self.new.standing.pending (λ left. left ≡ batch.now.body.items)) }
        ensures images { IsTrue D.tells
            → CrashLeaves (OneOf self.old.standing.log batch.now.body.items) (D.held self.old.disk) (D.held self.new.disk) }
        ensures cause { HasCause (D.fault_count self.old.disk) (D.fault_count self.new.disk) result }
        ensures strays { IsTrue D.tells → D.strays self.new.disk ≡ D.strays self.old.disk }
        ensures same { D.same self.old.disk self.new.disk }
    {
        state_laws();
        log_laws();
        growth_laws();
        limit_laws();
        more_laws();
        entry_law(&checked.statement, batch.at, batch.rule);
        self.next += 1;
        self.ledger.write(&batch.body)?;
        self.state.accept_batch(
            checked,
            batch.at,
            batch.rule,
            batch.index,
            batch.signature.as_slice(),
        );
        let before = mem::replace(&mut self.log, no_records());
        self.log = with_record(before, &batch.body);
        Ok(())
    }

    // The Reserve that is needed, where one is, and then the Batch.
    pub(crate) fn put(
        &mut self,
        needed: Option<Needed>,
        checked: &Checked,
        batch: &Batch,
    ) -> Result<(), DiskFault>
        requires settled { self.old.standing.pending ≡ None }
        requires is { body_needed needed ≡ needed_of self.old.standing }
        requires reserves { IfSome needed (λ n. record_of n.body.items ≡ Some (reserve_record n.upto)) }
        requires well { WellMade (ready_log self.old.standing) }
        requires fits { WellMade (ready_log self.old.standing ++ batch.now.body.items ∷ []) }
        requires reads { record_of batch.now.body.items ≡ Some (batch_with batch.now.at batch.now.rule (said_of checked.now.statement) batch.now.index batch.now.signature.items) }
        requires entry { IsRoomFor self.old.entry checked.now }
        requires index { batch.now.index ≡ self.old.standing.next }
        requires ahead { self.old.standing.next + 1 ≤ reserved_of (ready_log self.old.standing) }
        requires small { self.old.standing.next < 1073741824 }
        requires short { IfSome needed (λ n. HasRoomFor self.old.room n.body.items) }
        requires room { HasRoomFor self.old.room batch.now.body.items }
        requires places { 2 ≤ self.old.places }
        ensures added { OnOk result (self.new.standing ≡ record {
          log = ready_log self.old.standing ++ batch.now.body.items ∷ [];
          next = self.old.standing.next + 1;
          pending = None;
        }) }
        ensures failed { OnErr result ((entries : List (List ℕ)) → IsBatch entries self.old.standing.next batch.now.body.items
            → Stops self.old.standing entries self.new.standing) }
        ensures images { IsTrue D.tells → (entries : List (List ℕ)) → IsBatch entries self.old.standing.next batch.now.body.items
            → CrashLeaves (Inside self.old.standing entries) (D.held self.old.disk) (D.held self.new.disk) }
        ensures cause { HasCause (D.fault_count self.old.disk) (D.fault_count self.new.disk) result }
        ensures strays { IsTrue D.tells → D.strays self.new.disk ≡ D.strays self.old.disk }
        ensures same { D.same self.old.disk self.new.disk }
    {
        moment_laws();
        self.sound();
        self.add_reserve(needed)?;
        self.add_batch(checked, batch)
    }
}
