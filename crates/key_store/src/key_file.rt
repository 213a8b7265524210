ghost use Rattle.std.specs.Prelude.{◌≡◌, ℕ, ◌+◌, ◌<◌, ◌≤◌, ◌⊎◌, min, IsTrue, IsSome, IfSome, OnOk, OnErr, IfOk, IfErr, List, [], ◌∷◌, ◌++◌, length, None, Some, Err, true};
ghost use Rattle.scitt_io.specs.Causes.{HasCause, Rose};
ghost use Rattle.scitt_disk.specs.Images.{CrashLeaves, ImageNow, moment};
ghost use Rattle.scitt_disk.specs.Changes.{after_sync};
ghost use Rattle.scitt_journal.specs.Layout.{NoLog, RecordsOf, OneOf};
ghost use Rattle.scitt_journal.specs.Keeping.{Between};
ghost use Rattle.hss_keys.specs.Levels.{capacity};
ghost use Rattle.key_store.specs.Records.{IsHead};
ghost use Rattle.key_store.specs.Keys.{KeyStanding, IsSound, IsReservation, Reserves, Takes, CountsTake, IsTakeFault, LeftPending, LeavesMade, LeavesKey, HoldsAbove, reserved_of};
ghost use Rattle.key_store.specs.Stops.{ExplainsMake, ExplainsKey};

use crate::reading::{Found, read_key};
use crate::records::{KeyHead, head_body, upto_body};
use crate::stops::{KeyStop, TakeStop, loaded_stop, made_stop};
use hss_keys::{Levels, OutOfMemory, Signer};
use lms_ots::Hash;
use scitt_disk::{Disk, DiskFault, moment_laws};
use scitt_journal::{Ledger, Refused};
use std::alloc::Global;
use std::marker::Model;

/// An issuer's key file: the records on its disk, and the next index, which is below a reservation that they hold.
#[derive(Drop)]
pub struct KeyFile<D: Disk> {
    ledger: Ledger<D>,
    head: KeyHead,
    next: u64,
    reserved: u64,
}

impl<D: Disk> Model for KeyFile<D> {
    ghost use Rattle.std.specs.Prelude.{IsTrue};
    ghost use Rattle.key_store.specs.Keys.{Keyed, IsKept};

    ghost Value = { Keyed D };

    ghost view = { λ k. record {
      disk = k.ledger.disk;
      standing = record { records = k.ledger.records; pending = k.ledger.pending; next = k.next };
      head = k.head;
      reserved = k.reserved;
    } };

    ghost invariant = { λ k. IsKept (IsTrue D.tells) k.head (record { records = k.ledger.records; pending = k.ledger.pending; next = k.next }) k.reserved };
}

impl<D: Disk> KeyFile<D> {
    /// Begins with a sync, and makes the file of this key on a disk whose file has no log. The first index is 0, and nothing
    /// is reserved.
    ///
    /// The block has 1 to 64 indices. `KeyExists` where the file has six bytes or more and begins with 1; `DiskFault` where
    /// the disk's count of faults rose; `OutOfMemory`, before the first call of the disk. Nothing is written before the
    /// first sync succeeded. From then on, where the file had no log, a crash leaves no log, or this one record.
    pub fn create(
        alloc: Global,
        disk: D,
        seed: Hash,
        id: [u8; 16],
        levels: Levels,
        block: u32,
    ) -> Result<KeyFile<D>, Refused<D, KeyStop>>
        requires some { 1 ≤ block }
        requires most { block ≤ 64 }

        ensures head { IfOk result (λ file. file.head ≡ record { seed = seed; id = id; levels = levels; block = block }) }
        ensures first { IfOk result (λ file. file.standing.next ≡ 0) }
        ensures reserved { IfOk result (λ file. file.reserved ≡ 0) }
        ensures settled { IfOk result (λ file. file.standing.pending ≡ None) }
        ensures records { IfOk result (λ file. length file.standing.records ≡ 1) }
        ensures none { IfOk result (λ file. IsTrue D.tells → NoLog (D.held disk).seen) }
        ensures sound { IfOk result (λ file. IsTrue D.tells → IsSound file.head file.standing) }
        ensures images { IfOk result (λ file. IsTrue D.tells
            → CrashLeaves (LeavesMade file.head) (after_sync (D.held disk)) (D.held file.disk)) }

        ensures stopped { IfErr result (λ refused. IsTrue D.tells → NoLog (D.held disk).seen
            → moment (D.held disk) < moment (D.held refused.disk)
            → CrashLeaves (LeavesMade (record { seed = seed; id = id; levels = levels; block = block }))
            (after_sync (D.held disk)) (D.held refused.disk)) }
        ensures stops { IfErr result (λ refused. ExplainsMake
            (IsTrue D.tells) (D.held disk).seen
            (D.fault_count disk) (D.fault_count refused.disk) refused.why) }
        ensures untouched { IfErr result (λ refused. IsTrue D.tells
            → moment (D.held refused.disk) ≡ moment (D.held disk) → D.held refused.disk ≡ D.held disk) }
        ensures key_kept { IfErr result (λ refused. IsTrue D.tells → (NoLog (D.held disk).seen → ⊥)
            → (D.held refused.disk ≡ D.held disk) ⊎ (D.held refused.disk ≡ after_sync (D.held disk))) }
        ensures memory { IfErr result (λ refused. refused.why ≡ KeyStop.OutOfMemory → refused.disk ≡ disk) }

        ensures counted { IfOk result (λ file. D.fault_count file.disk ≡ D.fault_count disk) }
        ensures later { IfErr result (λ refused. D.fault_count disk ≤ D.fault_count refused.disk) }
        ensures strays { IfOk result (λ file. IsTrue D.tells → D.strays file.disk ≡ D.strays disk) }
        ensures strays_refused { IfErr result (λ refused. IsTrue D.tells → D.strays refused.disk ≡ D.strays disk) }
        ensures same { IfOk result (λ file. D.same disk file.disk) }
        ensures same_refused { IfErr result (λ refused. D.same disk refused.disk) }
    {
        let head = KeyHead {
            seed,
            id,
            levels,
            block,
        };
        let _limits = head.levels.as_slice();
        let Ok(body) = head_body(alloc, &head) else {
            return Err(Refused {
                disk,
                why: KeyStop::OutOfMemory,
            });
        };
        match Ledger::create(alloc, disk, &body) {
            Ok(ledger) => Ok(KeyFile {
                ledger,
                head,
                next: 0,
                reserved: 0,
            }),
            Err(refused) => {
                let Refused { disk, why } = refused;
                Err(Refused {
                    disk,
                    why: made_stop(why),
                })
            }
        }
    }

    /// Begins with a sync, and finds and reads the records. The next index is what the last reservation says.
    ///
    /// `NoKey` where the file has fewer than six bytes or the first isn't 1; `Short` where an open gate has no whole record
    /// behind it, with the place of the first such gate; else `BadKeyFile` with the number of the first record that doesn't
    /// fit; `DiskFault` where the disk's count of faults rose; `OutOfMemory`. Nothing is written: a crash meanwhile leaves
    /// nothing but what one before might have left.
    pub fn load(alloc: Global, disk: D) -> Result<KeyFile<D>, Refused<D, KeyStop>>
        ensures recovered { IfOk result (λ file. IsTrue D.tells
            → (rest : ℕ) × RecordsOf (D.held disk).seen file.standing.records rest) }
        ensures sound { IfOk result (λ file. IsTrue D.tells → IsSound file.head file.standing) }
        ensures settled { IfOk result (λ file. file.standing.pending ≡ None) }
        ensures next { IfOk result (λ file. file.standing.next ≡ file.reserved) }
        ensures last { IfOk result (λ file. IsTrue D.tells → file.standing.next ≡ reserved_of file.standing.records) }
        ensures synced { IfOk result (λ file. IsTrue D.tells → D.held file.disk ≡ after_sync (D.held disk)) }
        ensures images { IfOk result (λ file. IsTrue D.tells
            → CrashLeaves (ImageNow (D.held disk)) (D.held disk) (D.held file.disk)) }

        ensures stops { IfErr result (λ refused. ExplainsKey
            (IsTrue D.tells) (D.held disk).seen
            (D.fault_count disk) (D.fault_count refused.disk) refused.why) }
        ensures images_refused { IfErr result (λ refused. IsTrue D.tells
            → CrashLeaves (ImageNow (D.held disk)) (D.held disk) (D.held refused.disk)) }
        ensures nothing_written { IfErr result (λ refused. IsTrue D.tells
            → (D.held refused.disk ≡ D.held disk) ⊎ (D.held refused.disk ≡ after_sync (D.held disk))) }

        ensures counted { IfOk result (λ file. D.fault_count file.disk ≡ D.fault_count disk) }
        ensures later { IfErr result (λ refused. D.fault_count disk ≤ D.fault_count refused.disk) }
        ensures strays { IfOk result (λ file. IsTrue D.tells → D.strays file.disk ≡ D.strays disk) }
        ensures strays_refused { IfErr result (λ refused. IsTrue D.tells → D.strays refused.disk ≡ D.strays disk) }
        ensures same { IfOk result (λ file. D.same disk file.disk) }
        ensures same_refused { IfErr result (λ refused. D.same disk refused.disk) }
    {
        let mut ledger = match Ledger::load(alloc, disk) {
            Ok(ledger) => ledger,
            Err(refused) => {
                let Refused { disk, why } = refused;
                return Err(Refused {
                    disk,
                    why: loaded_stop(why),
                });
            }
        };
        match read_key(alloc, &mut ledger) {
            Ok(found) => {
                let Found { head, reserved } = found;
                Ok(KeyFile {
                    ledger,
                    head,
                    next: reserved,
                    reserved,
                })
            }
            Err(why) => Err(Refused {
                disk: ledger.close(),
                why,
            }),
        }
    }

    // Closes the gate of a pending record, where there is one.
    fn settle(&mut self) -> Result<(), DiskFault>
        ensures settled { OnOk result (self.new ≡ record self.old {
          disk = self.new.disk;
          standing = record self.old.standing { pending = None };
        }) }
        ensures failed { OnErr result (self.new ≡ record self.old { disk = self.new.disk }) }
        ensures needed { OnErr result (IsSome self.old.standing.pending) }
        ensures images { IsTrue D.tells → CrashLeaves (LeavesKey self.old.head self.old.standing)
            (D.held self.old.disk) (D.held self.new.disk) }
        ensures cause { HasCause (D.fault_count self.old.disk) (D.fault_count self.new.disk) result }
        ensures strays { IsTrue D.tells → D.strays self.new.disk ≡ D.strays self.old.disk }
        ensures same { D.same self.old.disk self.new.disk }
    {
        self.ledger.settle()
    }

    // Reserves one block more, or all that is left.
    fn reserve(&mut self, alloc: Global) -> Result<(), TakeStop>
        requires settled { self.old.standing.pending ≡ None }
        requires spent { self.old.standing.next ≡ self.old.reserved }
        requires left { self.old.standing.next < capacity self.old.head.levels }
        ensures more { OnOk result (self.old.standing.next < self.new.reserved) }
        ensures done { OnOk result (IsTrue D.tells → (body : List ℕ) × IsReservation self.old.head self.old.standing body
            × (self.new.standing ≡ record self.old.standing { records = self.old.standing.records ++ body ∷ [] })) }
        ensures reserved { OnErr result (self.new.reserved ≡ self.old.reserved) }
        ensures records { OnErr result (self.new.standing.records ≡ self.old.standing.records) }
        ensures pending { OnErr result (IsTrue D.tells → LeftPending self.old.head self.old.standing self.new.standing.pending) }
        ensures memory { result ≡ Err TakeStop.OutOfMemory → self.new.standing ≡ self.old.standing }
        ensures settled { OnOk result (self.new.standing.pending ≡ None) }
        ensures next { self.new.standing.next ≡ self.old.standing.next }
        ensures head { self.new.head ≡ self.old.head }
        ensures images { IsTrue D.tells → CrashLeaves (LeavesKey self.old.head self.old.standing)
            (D.held self.old.disk) (D.held self.new.disk) }
        ensures stops { IfErr result (IsTakeFault (D.fault_count self.old.disk) (D.fault_count self.new.disk)) }
        ensures counted { OnOk result (D.fault_count self.new.disk ≡ D.fault_count self.old.disk) }
        ensures later { D.fault_count self.old.disk ≤ D.fault_count self.new.disk }
        ensures strays { IsTrue D.tells → D.strays self.new.disk ≡ D.strays self.old.disk }
        ensures same { D.same self.old.disk self.new.disk }
    {
        moment_laws();
        self.ledger.images();
        let capacity = self.head.levels.capacity();
        let upto = (self.next + u64::from(self.head.block)).min(capacity);
        let body = upto_body(alloc, upto)?;
        self.ledger.reserve_buffer(body.len())?;
        self.ledger.write(&body)?;
        self.reserved = upto;
        Ok(())
    }

    // Reserves where no reserved index is left.
    fn prepare_next(&mut self, alloc: Global) -> Result<(), TakeStop>
        requires settled { self.old.standing.pending ≡ None }
        requires left { self.old.standing.next < capacity self.old.head.levels }
        ensures ready { OnOk result (self.new.standing.next < self.new.reserved) }
        ensures done { OnOk result (IsTrue D.tells
            → Reserves self.old.head self.old.standing self.new.standing.records) }
        ensures records { OnErr result (self.new.standing.records ≡ self.old.standing.records) }
        ensures pending { OnErr result (IsTrue D.tells → LeftPending self.old.head self.old.standing self.new.standing.pending) }
        ensures memory { result ≡ Err TakeStop.OutOfMemory → self.new.standing ≡ self.old.standing }
        ensures settled { OnOk result (self.new.standing.pending ≡ None) }
        ensures next { self.new.standing.next ≡ self.old.standing.next }
        ensures head { self.new.head ≡ self.old.head }
        ensures images { IsTrue D.tells → CrashLeaves (LeavesKey self.old.head self.old.standing)
            (D.held self.old.disk) (D.held self.new.disk) }
        ensures stops { IfErr result (IsTakeFault (D.fault_count self.old.disk) (D.fault_count self.new.disk)) }
        ensures counted { OnOk result (D.fault_count self.new.disk ≡ D.fault_count self.old.disk) }
        ensures later { D.fault_count self.old.disk ≤ D.fault_count self.new.disk }
        ensures strays { IsTrue D.tells → D.strays self.new.disk ≡ D.strays self.old.disk }
        ensures same { D.same self.old.disk self.new.disk }
    {
        moment_laws();
        self.images();
        if self.next < self.reserved {
            return Ok(());
        }
        self.reserve(alloc)
    }

    // Gives the next index, which is below the reservation.
    fn give(&mut self) -> u64
        requires settled { self.old.standing.pending ≡ None }
        requires left { self.old.standing.next < self.old.reserved }
        ensures index { result ≡ self.old.standing.next }
        ensures given { self.new ≡ record self.old { standing = record self.old.standing { next = self.old.standing.next + 1 } } }
        ensures reserved { IsTrue D.tells → self.old.standing.next < reserved_of self.old.standing.records }
    {
        let index = self.next;
        self.next += 1;
        index
    }

    /// Gives the next index, once it is reserved: a pending record's gate is closed first, and where no reserved index is
    /// left, one block more is reserved. From this answer on every image holds a reservation above the index.
    ///
    /// `Exhausted` exactly where the next index is the capacity and no repair failed; `DiskFault` where the disk's count of
    /// faults rose; `OutOfMemory`, before a reservation was written. After each of these the next index is as before.
    pub fn take_index(&mut self, alloc: Global) -> Result<u64, TakeStop>
        ensures taken { IfOk result (λ index. (index ≡ self.old.standing.next) × (self.new.standing.next ≡ index + 1)) }
        ensures kept { OnErr result (self.new.standing.next ≡ self.old.standing.next) }
        ensures exhausted { self.old.standing.next ≡ capacity self.old.head.levels
            → (result ≡ Err (TakeStop.Exhausted (capacity self.old.head.levels) (capacity self.old.head.levels)))
            ⊎ ((result ≡ Err TakeStop.DiskFault) × IsSome self.old.standing.pending) }
        ensures only { (next most : ℕ) → result ≡ Err (TakeStop.Exhausted next most)
            → (self.old.standing.next ≡ capacity self.old.head.levels)
            × (next ≡ capacity self.old.head.levels) × (most ≡ capacity self.old.head.levels) }
        ensures takes { IsTrue D.tells → Takes self.old.head self.old.standing result self.new.standing }
        ensures head { self.new.head ≡ self.old.head }
        ensures images { IsTrue D.tells → CrashLeaves (LeavesKey self.old.head self.old.standing)
            (D.held self.old.disk) (D.held self.new.disk) }
        ensures sure { IfOk result (λ index. IsTrue D.tells → (image : List ℕ) → ImageNow (D.held self.new.disk) image
            → HoldsAbove index image) }
        ensures above { (index : ℕ) → IsTrue D.tells → index < self.old.standing.next
            → CrashLeaves (HoldsAbove index) (D.held self.old.disk) (D.held self.new.disk) }
        ensures counts { CountsTake (D.fault_count self.old.disk) (D.fault_count self.new.disk) result }
        ensures later { D.fault_count self.old.disk ≤ D.fault_count self.new.disk }
        ensures strays { IsTrue D.tells → D.strays self.new.disk ≡ D.strays self.old.disk }
        ensures same { D.same self.old.disk self.new.disk }
    {
        moment_laws();
        self.sound();
        self.settle()?;
        let capacity = self.head.levels.capacity();
        if self.next == capacity {
            return Err(TakeStop::Exhausted {
                next: self.next,
                capacity,
            });
        }
        self.prepare_next(alloc)?;
        self.images();
        Ok(self.give())
    }

    /// What a crash now leaves: the records, or those with the pending one.
    pub fn images(&self)
        ensures { IsTrue D.tells → (image : List ℕ) → ImageNow (D.held self.now.disk) image
            → Between self.now.standing.records self.now.standing.pending image }
    {
        self.ledger.images();
    }

    /// What the file stands for is a key file's, of the key that its first record tells.
    pub fn sound(&self)
        ensures limits { IsHead self.now.head }
        ensures sound { IsTrue D.tells → IsSound self.now.head self.now.standing }
        ensures reserved { IsTrue D.tells → self.now.reserved ≡ reserved_of self.now.standing.records }
        ensures within { (self.now.standing.next ≤ self.now.reserved) × (self.now.reserved ≤ capacity self.now.head.levels) }
    {
        let _next = self.next;
    }

    /// The next index.
    pub fn next(&self) -> u64
        ensures { result ≡ self.now.standing.next }
    {
        self.next
    }

    /// How many indices the key has: 2 to the sum of its heights.
    pub fn capacity(&self) -> u64
        ensures { result ≡ capacity self.now.head.levels }
    {
        self.head.levels.capacity()
    }

    /// The levels of the key.
    pub fn levels(&self) -> &Levels
        ensures { result.now ≡ self.now.head.levels }
    {
        &self.head.levels
    }

    /// The key for signing, with index 0 prepared.
    pub fn signer(&self, alloc: Global) -> Result<Signer, OutOfMemory>
        ensures { IfOk result (λ signer. signer ≡ record {
          levels = self.now.head.levels;
          id = self.now.head.id;
          seed = self.now.head.seed;
          prepared = 0;
        }) }
    {
        let levels = Levels::of(self.head.levels.as_slice()).unwrap();
        Signer::new(alloc, self.head.seed, self.head.id, levels)
    }

    /// How often the disk has failed.
    pub fn faults(&self) -> u64
        ensures { result ≡ D.fault_count self.now.disk }
    {
        self.ledger.faults()
    }

    /// Hands the disk back as it is.
    pub fn close(self) -> D
        ensures { result ≡ self.disk }
    {
        let KeyFile {
            ledger,
            head: _,
            next: _,
            reserved: _,
        } = self;
        ledger.close()
    }
}
