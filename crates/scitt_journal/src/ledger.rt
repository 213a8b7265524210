ghost use Rattle.std.specs.Prelude.{◌≡◌, ℕ, ◌+◌, ◌<◌, ◌≤◌, ◌^◌, ◌↔◌, ◌⊎◌, IsTrue, IsOk, OnOk, OnErr, IfOk, IfErr, IsSome, List, [], ◌∷◌, ◌++◌, length, None, Some, slice_index_or};
ghost use Rattle.scitt_io.specs.Causes.{HasCause};
ghost use Rattle.scitt_disk.specs.Images.{CrashLeaves, ImageNow, moment};
ghost use Rattle.scitt_disk.specs.Changes.{after_sync};
ghost use Rattle.scitt_journal.specs.Layout.{NoLog, RecordsOf, OneOf};
ghost use Rattle.scitt_journal.specs.State.{AtRest};
ghost use Rattle.scitt_journal.specs.Stops.{ExplainsBody, ExplainsCreate, ExplainsLoad};
ghost use Rattle.scitt_journal.specs.Keeping.{bodies_of, Between};

use crate::laws::crash_laws;
use crate::record::Journal;
use crate::records::{Pending, Records, no_records, record_pending, settled, with_record};
use crate::stops::{BodyStop, CreateStop, LoadStop, Refused};
use scitt_disk::{Disk, DiskFault, moment_laws};
use std::alloc::{AllocError, Global};
use std::marker::Model;
use std::mem;
use std::snapshot::Snapshot;

/// A journal with the list of its records, and with the record that may or may not count after a failed write.
///
/// Both are seen by contracts alone and take no memory. They are what was handed in, or read at `load`; where the disk
/// tells what it holds, they are what it holds.
#[derive(Drop)]
pub struct Ledger<D: Disk> {
    journal: Journal<D>,
    records: Snapshot<Records>,
    pending: Snapshot<Pending>,
}

impl<D: Disk> Model for Ledger<D> {
    ghost use Rattle.std.specs.Prelude.{IsTrue};
    ghost use Rattle.scitt_journal.specs.Keeping.{Kept, Holds, bodies_of, pending_of};

    ghost Value = { Kept D };

    ghost view = { λ l. record {
      disk = l.journal.disk;
      records = bodies_of l.records.value;
      pending = pending_of l.pending.value;
      room = l.journal.room;
      places = l.journal.places;
    } };

    ghost invariant = { λ l. Holds (IsTrue D.tells) D.held l.journal (bodies_of l.records.value) (pending_of l.pending.value) };
}

// The records of a journal at rest, read one after another.
fn read_all<D: Disk>(alloc: Global, journal: &mut Journal<D>) -> Result<Snapshot<Records>, BodyStop>
    ensures all { IfOk result (λ records. (bodies : List (List ℕ)) → IsTrue D.tells → AtRest D.held journal.old bodies
        → bodies_of records.value ≡ bodies) }
    ensures count { IfOk result (λ records. length (bodies_of records.value) ≡ journal.old.count) }
    ensures others { journal.new ≡ record journal.old { disk = journal.new.disk } }
    ensures held { IsTrue D.tells → D.held journal.new.disk ≡ D.held journal.old.disk }
    ensures stops { IfErr result (ExplainsBody (D.fault_count journal.old.disk) (D.fault_count journal.new.disk)) }
    ensures later { D.fault_count journal.old.disk ≤ D.fault_count journal.new.disk }
    ensures counted { OnOk result (D.fault_count journal.new.disk ≡ D.fault_count journal.old.disk) }
    ensures strays { (bodies : List (List ℕ)) → IsTrue D.tells → AtRest D.held journal.old bodies
        → D.strays journal.new.disk ≡ D.strays journal.old.disk }
    ensures same { D.same journal.old.disk journal.new.disk }
{
    let mut records = no_records();
    for number in 0..journal.count() {
        let body = journal.body(alloc, number)?;
        records = with_record(records, &body);
    }
    Ok(records)
}

impl<D: Disk> Ledger<D> {
    /// Begins with a sync, and makes a ledger of this one record on a disk whose file has no log.
    ///
    /// The body isn't empty, and has at most 16,777,216 bytes. `LogExists` where the file has six bytes or more and
    /// begins with 1; `DiskFault` where the disk's count of faults rose; `OutOfMemory` before the first call of the disk.
    /// Nothing is written before the first sync succeeded. From then on, where the file had no log, a crash leaves no log,
    /// or this one record.
    pub fn create(
        alloc: Global,
        disk: D,
        body: &Vec<u8>,
    ) -> Result<Ledger<D>, Refused<D, CreateStop>>
        requires some { 0 < length body.now.items }
        requires short { length body.now.items ≤ 16777216 }

        ensures created { IfOk result (λ ledger. ledger.records ≡ body.now.items ∷ []) }
        ensures settled { IfOk result (λ ledger. ledger.pending ≡ None) }
        ensures none { IfOk result (λ ledger. IsTrue D.tells → NoLog (D.held disk).seen) }
        ensures images { IfOk result (λ ledger. IsTrue D.tells
            → CrashLeaves (OneOf [] body.now.items) (after_sync (D.held disk)) (D.held ledger.disk)) }

        ensures stops { IfErr result (λ refused. ExplainsCreate
            (IsTrue D.tells) (D.held disk).seen
            (D.fault_count disk) (D.fault_count refused.disk) refused.why) }
        ensures stopped { IfErr result (λ refused. IsTrue D.tells → NoLog (D.held disk).seen
            → moment (D.held disk) < moment (D.held refused.disk)
            → CrashLeaves (OneOf [] body.now.items) (after_sync (D.held disk)) (D.held refused.disk)) }
        ensures untouched { IfErr result (λ refused. IsTrue D.tells
            → moment (D.held refused.disk) ≡ moment (D.held disk) → D.held refused.disk ≡ D.held disk) }
        ensures log_kept { IfErr result (λ refused. IsTrue D.tells → (NoLog (D.held disk).seen → ⊥)
            → (D.held refused.disk ≡ D.held disk) ⊎ (D.held refused.disk ≡ after_sync (D.held disk))) }
        ensures memory { IfErr result (λ refused. refused.why ≡ CreateStop.OutOfMemory
            → refused.disk ≡ disk) }

        ensures counted { IfOk result (λ ledger. D.fault_count ledger.disk ≡ D.fault_count disk) }
        ensures later { IfErr result (λ refused. D.fault_count disk ≤ D.fault_count refused.disk) }
        ensures strays { IfOk result (λ ledger. IsTrue D.tells → D.strays ledger.disk ≡ D.strays disk) }
        ensures strays_refused { IfErr result (λ refused. IsTrue D.tells → D.strays refused.disk ≡ D.strays disk) }
        ensures same { IfOk result (λ ledger. D.same disk ledger.disk) }
        ensures same_refused { IfErr result (λ refused. D.same disk refused.disk) }
    {
        match Journal::create(alloc, disk, body) {
            Ok(journal) => Ok(Ledger {
                journal,
                records: with_record(no_records(), body),
                pending: settled(),
            }),
            Err(refused) => Err(refused),
        }
    }

    /// Begins with a sync, and finds and reads the records.
    ///
    /// `NoLog` where the file has fewer than six bytes or the first isn't 1; `Short` where an open gate has no whole
    /// record behind it, with the place of the first such gate; `DiskFault` where the disk's count of faults rose; `OutOfMemory`.
    /// Nothing is written: a crash meanwhile leaves nothing but what one before might have left. `reserve_buffer` comes
    /// before the first `write`.
    pub fn load(alloc: Global, disk: D) -> Result<Ledger<D>, Refused<D, LoadStop>>
        ensures recovered { IfOk result (λ ledger. IsTrue D.tells
            → (rest : ℕ) × RecordsOf (D.held disk).seen ledger.records rest) }
        ensures some { IfOk result (λ ledger. 0 < length ledger.records) }
        ensures settled { IfOk result (λ ledger. ledger.pending ≡ None) }
        ensures synced { IfOk result (λ ledger. IsTrue D.tells → D.held ledger.disk ≡ after_sync (D.held disk)) }
        ensures images { IfOk result (λ ledger. IsTrue D.tells
            → CrashLeaves (ImageNow (D.held disk)) (D.held disk) (D.held ledger.disk)) }
        ensures room { IfOk result (λ ledger. ledger.room ≡ 0) }
        ensures places { IfOk result (λ ledger. ledger.places ≡ 0) }

        ensures stops { IfErr result (λ refused. ExplainsLoad
            (IsTrue D.tells) (D.held disk).seen
            (D.fault_count disk) (D.fault_count refused.disk) refused.why) }
        ensures images_refused { IfErr result (λ refused. IsTrue D.tells
            → CrashLeaves (ImageNow (D.held disk)) (D.held disk) (D.held refused.disk)) }
        ensures nothing_written { IfErr result (λ refused. IsTrue D.tells
            → (D.held refused.disk ≡ D.held disk) ⊎ (D.held refused.disk ≡ after_sync (D.held disk))) }

        ensures counted { IfOk result (λ ledger. D.fault_count ledger.disk ≡ D.fault_count disk) }
        ensures later { IfErr result (λ refused. D.fault_count disk ≤ D.fault_count refused.disk) }
        ensures strays { IfOk result (λ ledger. IsTrue D.tells → D.strays ledger.disk ≡ D.strays disk) }
        ensures strays_refused { IfErr result (λ refused. IsTrue D.tells → D.strays refused.disk ≡ D.strays disk) }
        ensures same { IfOk result (λ ledger. D.same disk ledger.disk) }
        ensures same_refused { IfErr result (λ refused. D.same disk refused.disk) }
    {
        let mut journal = match Journal::load(alloc, disk) {
            Ok(journal) => journal,
            Err(refused) => return Err(refused),
        };
        match read_all(alloc, &mut journal) {
            Ok(records) => Ok(Ledger {
                journal,
                records,
                pending: settled(),
            }),
            Err(BodyStop::DiskFault) => Err(Refused {
                disk: journal.close(),
                why: LoadStop::DiskFault,
            }),
            Err(BodyStop::OutOfMemory) => Err(Refused {
                disk: journal.close(),
                why: LoadStop::OutOfMemory,
            }),
        }
    }

    /// The body of a record, read from the disk. The number is below `count`. `DiskFault` where the disk's count of faults
    /// rose; `OutOfMemory`. The ledger is as it was.
    pub fn read(&mut self, alloc: Global, number: u64) -> Result<Vec<u8>, BodyStop>
        requires { number < length self.old.records }
        ensures body { IfOk result (λ bytes. IsTrue D.tells → bytes.items ≡ slice_index_or self.old.records number []) }
        ensures held { IsTrue D.tells → D.held self.new.disk ≡ D.held self.old.disk }
        ensures others { self.new ≡ record self.old { disk = self.new.disk } }
        ensures stops { IfErr result (ExplainsBody (D.fault_count self.old.disk) (D.fault_count self.new.disk)) }
        ensures later { D.fault_count self.old.disk ≤ D.fault_count self.new.disk }
        ensures counted { OnOk result (D.fault_count self.new.disk ≡ D.fault_count self.old.disk) }
        ensures strays { IsTrue D.tells → D.strays self.new.disk ≡ D.strays self.old.disk }
        ensures same { D.same self.old.disk self.new.disk }
    {
        self.journal.body(alloc, number)
    }

    /// What a crash now leaves: the records, or those with the pending one.
    pub fn images(&self)
        ensures { IsTrue D.tells → (image : List ℕ) → ImageNow (D.held self.now.disk) image
            → Between self.now.records self.now.pending image }
    {
        crash_laws::<D>();
        let _journal = &self.journal;
    }

    /// Closes the gate of the pending record, where there is one; else it does nothing. It takes no memory. `DiskFault` where
    /// the disk's count of faults rose; the record is pending still.
    pub fn settle(&mut self) -> Result<(), DiskFault>
        ensures settled { OnOk result (self.new ≡ record self.old { disk = self.new.disk; pending = None }) }
        ensures failed { OnErr result (self.new ≡ record self.old { disk = self.new.disk }) }
        ensures needed { OnErr result (IsSome self.old.pending) }
        ensures idle { self.old.pending ≡ None → self.new ≡ self.old }
        ensures images { IsTrue D.tells
            → CrashLeaves (Between self.old.records self.old.pending) (D.held self.old.disk) (D.held self.new.disk) }
        ensures cause { HasCause (D.fault_count self.old.disk) (D.fault_count self.new.disk) result }
        ensures strays { IsTrue D.tells → D.strays self.new.disk ≡ D.strays self.old.disk }
        ensures same { D.same self.old.disk self.new.disk }
    {
        moment_laws();
        crash_laws::<D>();
        self.journal.repair()?;
        self.pending = settled();
        Ok(())
    }

    /// Adds a record, by four calls of the disk. It takes no memory.
    ///
    /// No record is pending, the body has 1 to 16,777,216 bytes and fits in `room`, a place is left, and there are fewer
    /// than 2,147,483,648 records. At any moment of the call a crash leaves the records before it, or those with the new
    /// one. `DiskFault` where the disk's count of faults rose: the records are as before, and this one is pending where the
    /// write of its gate was begun.
    pub fn write(&mut self, body: &Vec<u8>) -> Result<(), DiskFault>
        requires settled { self.old.pending ≡ None }
        requires some { 0 < length body.now.items }
        requires short { length body.now.items ≤ 16777216 }
        requires room { length body.now.items ≤ self.old.room }
        requires place { 0 < self.old.places }
        requires few { length self.old.records < 2147483648 }

        ensures added { OnOk result (self.new ≡ record self.old {
          disk = self.new.disk;
          records = self.old.records ++ body.now.items ∷ [];
          places = self.new.places;
        }) }
        ensures places { OnOk result (self.new.places + 1 ≡ self.old.places) }
        ensures failed { OnErr result (self.new ≡ record self.old { disk = self.new.disk; pending = self.new.pending }) }
        ensures pending { OnErr result ((self.new.pending ≡ None) ⊎ (self.new.pending ≡ Some body.now.items)) }
        ensures images { IsTrue D.tells
            → CrashLeaves (OneOf self.old.records body.now.items) (D.held self.old.disk) (D.held self.new.disk) }
        ensures cause { HasCause (D.fault_count self.old.disk) (D.fault_count self.new.disk) result }
        ensures strays { IsTrue D.tells → D.strays self.new.disk ≡ D.strays self.old.disk }
        ensures same { D.same self.old.disk self.new.disk }
    {
        match self.journal.append(body) {
            Ok(()) => {
                let before = mem::replace(&mut self.records, no_records());
                self.records = with_record(before, body);
                Ok(())
            }
            Err(fault) => {
                if self.journal.needs_repair() {
                    self.pending = record_pending(body);
                }
                Err(fault)
            }
        }
    }

    /// How many records there are; the pending one isn't counted.
    pub fn count(&self) -> u64
        ensures { result ≡ length self.now.records }
    {
        self.journal.count()
    }

    /// Whether no record is pending.
    pub fn is_settled(&self) -> bool
        ensures { IsTrue result ↔ (self.now.pending ≡ None) }
    {
        !self.journal.needs_repair()
    }

    /// The length of the longest body that `write` may take.
    pub fn room(&self) -> usize
        ensures { result ≡ self.now.room }
    {
        self.journal.room()
    }

    /// How often the disk has failed.
    pub fn faults(&self) -> u64
        ensures { result ≡ D.fault_count self.now.disk }
    {
        self.journal.faults()
    }

    /// Makes room for a body of this length, and place for two more records. The disk isn't touched. Want of memory leaves
    /// the ledger as it was.
    pub fn reserve_buffer(&mut self, len: usize) -> Result<(), AllocError>
        ensures room { OnOk result (len ≤ self.new.room) }
        ensures places { OnOk result (2 ≤ self.new.places) }
        ensures others { self.new ≡ record self.old { room = self.new.room; places = self.new.places } }
        ensures failed { OnErr result (self.new ≡ self.old) }
    {
        self.journal.reserve_buffer(len)
    }

    /// Hands the disk back as it is.
    pub fn close(self) -> D
        ensures { result ≡ self.disk }
    {
        let Ledger {
            journal,
            records: _,
            pending: _,
        } = self;
        journal.close()
    }
}
