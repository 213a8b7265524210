ghost use Rattle.std.specs.Prelude.{◌≡◌, ℕ, ◌+◌, ◌-◌, ◌≤◌, ◌^◌, ◌<◌, max, Bool, true, false, IsTrue, IsOk, OnOk, OnErr, IfOk, IfErr, ◌⊎◌, List, [], ◌∷◌, ◌++◌, length, slice_index_or, if◌then◌else◌, is_ok};
ghost use Rattle.scitt_io.specs.Causes.{HasCause, Rose};
ghost use Rattle.scitt_disk.specs.Images.{CrashLeaves, ImageNow, moment};
ghost use Rattle.scitt_disk.specs.Changes.{after_sync};
ghost use Rattle.scitt_journal.specs.Layout.{NoLog, RecordsOf, Recovers, OneOf};
ghost use Rattle.scitt_journal.specs.State.{AtRest, InDoubt, Loaded};
ghost use Rattle.scitt_journal.specs.Stops.{ExplainsLoad, ExplainsCreate, ExplainsBody};

use crate::finding::{Found, Prepared, bounds, find_records, prepare, read_body};
use crate::steps::{OPEN, SHUT, fill, write_and_sync};
use crate::stops::{BodyStop, CreateStop, LoadStop, Refused};
use scitt_disk::{Disk, DiskFault, moment_laws};
use std::alloc::{AllocError, Global};
use std::marker::Model;

/// A journal on a disk: a list of records, of which each is a string of bytes.
///
/// The file is gate, length, body, gate, length, body, .., gate. A gate is one byte, a length four, the highest first.
/// Only 1 opens a gate. The records behind the open gates count, up to the first gate of another value.
#[derive(Drop)]
pub struct Journal<D> {
    disk: D,
    offsets: Vec<u64>,
    gate: u64,
    rest: u64,
    room: usize,
    places: usize,
    needs_repair: bool,
    buffer: Vec<u8>,
}

impl<D> Model for Journal<D> {
    ghost use Rattle.std.specs.Prelude.{ℕ, ◌+◌, ◌*◌, ◌≤◌, length, vec_capacity, vec_len};
    ghost use Rattle.scitt_journal.specs.Log.{Log};

    ghost Value = { Log D };

    ghost view = { λ j. record {
      disk = j.disk;
      count = length j.offsets.items;
      rest = j.rest;
      room = j.room;
      places = j.places;
      needs_repair = j.needs_repair;
      marks = record { offsets = j.offsets.items; gate = j.gate };
    } };

    // the buffer has room for a record and a gate, and the list of offsets for as many as it has places
    ghost invariant = { λ j. (j.room + 5 ≤ vec_capacity j.buffer) × (vec_len j.offsets + j.places ≤ vec_capacity j.offsets)
        × (j.gate ≤ vec_len j.offsets * 4294967300) };
}

impl<D: Disk> Journal<D> {
    /// Begins with a sync, and makes a journal of this one record on a disk whose file has no log.
    ///
    /// The body isn't empty, and has at most 16,777,216 bytes. `LogExists` where the file has six bytes or more and
    /// begins with 1; `DiskFault` where the disk's count of faults rose; `OutOfMemory` before the first call of the disk. Nothing is
    /// written before the first sync succeeded. From then on, where the file had no log, a crash leaves no log, or this
    /// one record.
    pub fn create(alloc: Global, disk: D, body: &[u8]) -> Result<Journal<D>, Refused<D, CreateStop>>
        requires some { 0 < length body.now }
        requires short { length body.now ≤ 16777216 }

        ensures created { IfOk result (λ journal. IsTrue D.tells
            → AtRest D.held journal (body.now ∷ [])) }
        ensures none { IfOk result (λ journal. IsTrue D.tells → NoLog (D.held disk).seen) }
        ensures sure { IfOk result (λ journal. IsTrue D.tells → (image : List ℕ)
            → ImageNow (D.held journal.disk) image
            → Recovers image (body.now ∷ [])) }
        ensures any_moment { IfOk result (λ journal. IsTrue D.tells
            → CrashLeaves (OneOf [] body.now) (after_sync (D.held disk)) (D.held journal.disk)) }
        ensures ready { IfOk result (λ journal. journal.needs_repair ≡ false) }
        ensures rest { IfOk result (λ journal. IsTrue D.tells
            → journal.rest ≡ max 1 (length (D.held disk).seen) - 1 - (length body.now + 5)) }
        ensures room { IfOk result (λ journal. journal.room ≡ length body.now) }
        ensures rest_is { IfOk result (λ journal. IsTrue D.tells
            → RecordsOf (D.held journal.disk).seen (body.now ∷ []) journal.rest) }
        ensures count { IfOk result (λ journal. journal.count ≡ 1) }

        ensures stops { IfErr result (λ refused. ExplainsCreate
            (IsTrue D.tells) (D.held disk).seen
            (D.fault_count disk) (D.fault_count refused.disk) refused.why) }
        ensures stopped { IfErr result (λ refused. IsTrue D.tells → NoLog (D.held disk).seen
            → moment (D.held disk) < moment (D.held refused.disk)
            → CrashLeaves (OneOf [] body.now) (after_sync (D.held disk)) (D.held refused.disk)) }
        ensures untouched { IfErr result (λ refused. IsTrue D.tells
            → moment (D.held refused.disk) ≡ moment (D.held disk) → D.held refused.disk ≡ D.held disk) }
        ensures log_kept { IfErr result (λ refused. IsTrue D.tells → (NoLog (D.held disk).seen → ⊥)
            → (D.held refused.disk ≡ D.held disk) ⊎ (D.held refused.disk ≡ after_sync (D.held disk))) }
        ensures memory { IfErr result (λ refused. refused.why ≡ CreateStop.OutOfMemory
            → refused.disk ≡ disk) }
        ensures later { IfErr result (λ refused. D.fault_count disk ≤ D.fault_count refused.disk) }
        ensures counted { IfOk result (λ journal. D.fault_count journal.disk ≡ D.fault_count disk) }
        ensures strays { IfOk result (λ journal. IsTrue D.tells → D.strays journal.disk ≡ D.strays disk) }
        ensures strays_refused { IfErr result (λ refused. IsTrue D.tells → D.strays refused.disk ≡ D.strays disk) }
        ensures same { IfOk result (λ journal. D.same disk journal.disk) }
        ensures same_refused { IfErr result (λ refused. D.same disk refused.disk) }
    {
        moment_laws();
        let mut disk = disk;
        match prepare(alloc, &mut disk, body.len()) {
            Err(why) => Err(Refused { disk, why }),
            Ok(prepared) => {
                let Prepared {
                    offsets,
                    rest,
                    buffer,
                } = prepared;
                let mut journal = Journal {
                    disk,
                    offsets,
                    gate: 0,
                    rest,
                    room: body.len(),
                    places: 1,
                    needs_repair: false,
                    buffer,
                };
                match journal.append(body) {
                    Ok(()) => Ok(journal),
                    Err(_) => Err(Refused {
                        disk: journal.close(),
                        why: CreateStop::DiskFault,
                    }),
                }
            }
        }
    }

    /// Begins with a sync, and finds the records.
    ///
    /// `NoLog` where the file has fewer than six bytes or the first isn't 1; `Short` where an open gate has no whole
    /// record behind it, with the place of the first such gate; `DiskFault` where the disk's count of faults rose; `OutOfMemory`. Nothing is
    /// written: a crash meanwhile leaves nothing but what one before might have left. The room is 0 and no place is left:
    /// `reserve_buffer` comes before the first `append`.
    pub fn load(alloc: Global, disk: D) -> Result<Journal<D>, Refused<D, LoadStop>>
        ensures loaded { IfOk result (λ journal. IsTrue D.tells
            → Loaded D.held (D.held disk).seen journal) }
        ensures synced { IfOk result (λ journal. IsTrue D.tells
            → D.held journal.disk ≡ after_sync (D.held disk)) }
        ensures ready { IfOk result (λ journal. journal.needs_repair ≡ false) }
        ensures stops { IfErr result (λ refused. ExplainsLoad
            (IsTrue D.tells) (D.held disk).seen
            (D.fault_count disk) (D.fault_count refused.disk) refused.why) }
        ensures nothing_written { IfErr result (λ refused. IsTrue D.tells
            → (D.held refused.disk ≡ D.held disk) ⊎ (D.held refused.disk ≡ after_sync (D.held disk))) }
        ensures images { IfOk result (λ journal. IsTrue D.tells
            → CrashLeaves (ImageNow (D.held disk)) (D.held disk) (D.held journal.disk)) }
        ensures images_refused { IfErr result (λ refused. IsTrue D.tells
            → CrashLeaves (ImageNow (D.held disk)) (D.held disk) (D.held refused.disk)) }
        ensures some { IfOk result (λ journal. 0 < journal.count) }
        ensures room { IfOk result (λ journal. journal.room ≡ 0) }
        ensures places { IfOk result (λ journal. journal.places ≡ 0) }
        ensures later { IfErr result (λ refused. D.fault_count disk ≤ D.fault_count refused.disk) }
        ensures counted { IfOk result (λ journal. D.fault_count journal.disk ≡ D.fault_count disk) }
        ensures strays { IfOk result (λ journal. IsTrue D.tells → D.strays journal.disk ≡ D.strays disk) }
        ensures strays_refused { IfErr result (λ refused. IsTrue D.tells → D.strays refused.disk ≡ D.strays disk) }
        ensures same { IfOk result (λ journal. D.same disk journal.disk) }
        ensures same_refused { IfErr result (λ refused. D.same disk refused.disk) }
    {
        moment_laws();
        let mut disk = disk;
        match find_records(alloc, &mut disk) {
            Err(why) => Err(Refused { disk, why }),
            Ok(found) => {
                let Found {
                    offsets,
                    gate,
                    rest,
                    buffer,
                } = found;
                Ok(Journal {
                    disk,
                    offsets,
                    gate,
                    rest,
                    room: 0,
                    places: 0,
                    needs_repair: false,
                    buffer,
                })
            }
        }
    }

    /// The body of a record, by one read of the disk. The number is below `count`. `DiskFault` where the disk's count of
    /// faults rose; `OutOfMemory`. The journal is as it was.
    pub fn body(&mut self, alloc: Global, number: u64) -> Result<Vec<u8>, BodyStop>
        requires { number < self.old.count }
        ensures body { IfOk result (λ bytes. (bodies : List (List ℕ)) → IsTrue D.tells
            → AtRest D.held self.old bodies
            → bytes.items ≡ slice_index_or bodies number []) }
        ensures in_doubt { IfOk result (λ bytes. (bodies : List (List ℕ)) (body : List ℕ)
            → IsTrue D.tells → InDoubt D.held self.old bodies body
            → bytes.items ≡ slice_index_or bodies number []) }
        ensures stops { IfErr result (ExplainsBody
            (D.fault_count self.old.disk) (D.fault_count self.new.disk)) }
        ensures kept { IsTrue D.tells → D.held self.new.disk ≡ D.held self.old.disk }
        ensures others { self.new ≡ record self.old { disk = self.new.disk } }
        ensures still_at_rest { (bodies : List (List ℕ)) → IsTrue D.tells → AtRest D.held self.old bodies
            → AtRest D.held self.new bodies }
        ensures still_in_doubt { (bodies : List (List ℕ)) (body : List ℕ) → IsTrue D.tells
            → InDoubt D.held self.old bodies body → InDoubt D.held self.new bodies body }
        ensures later { D.fault_count self.old.disk ≤ D.fault_count self.new.disk }
        ensures counted { OnOk result (D.fault_count self.new.disk ≡ D.fault_count self.old.disk) }
        ensures strays { (bodies : List (List ℕ)) → IsTrue D.tells → AtRest D.held self.old bodies
            → D.strays self.new.disk ≡ D.strays self.old.disk }
        ensures strays_in_doubt { (bodies : List (List ℕ)) (body : List ℕ) → IsTrue D.tells
            → InDoubt D.held self.old bodies body → D.strays self.new.disk ≡ D.strays self.old.disk }
        ensures same { D.same self.old.disk self.new.disk }
    {
        let (start, end) = bounds(&self.offsets, self.gate, number as usize);
        read_body(alloc, &mut self.disk, start.saturating_add(5), end)
    }

    /// The number of records.
    pub fn count(&self) -> u64
        ensures value { result ≡ self.now.count }
        ensures at_rest { IsTrue D.tells → (bodies : List (List ℕ)) → AtRest D.held self.now bodies
            → result ≡ length bodies }
        ensures in_doubt { IsTrue D.tells → (bodies : List (List ℕ)) (body : List ℕ)
            → InDoubt D.held self.now bodies body → result ≡ length bodies }
    {
        let offsets: &[u64] = &self.offsets;
        offsets.len() as u64
    }

    /// The number of bytes after the gate that ends the records. After a failed `append` it is the number from before,
    /// while the file may be longer; so it is the file's only as long as no `append` has failed.
    pub fn rest(&self) -> u64
        ensures { result ≡ self.now.rest }
    {
        self.rest
    }

    /// Whether a repair is needed, before anything is appended.
    pub fn needs_repair(&self) -> bool
        ensures { result ≡ self.now.needs_repair }
    {
        self.needs_repair
    }

    /// The length of the longest body that `append` may take.
    pub fn room(&self) -> usize
        ensures { result ≡ self.now.room }
    {
        self.room
    }

    /// How often the disk has failed.
    pub fn faults(&self) -> u64
        ensures { result ≡ D.fault_count self.now.disk }
    {
        self.disk.faults()
    }

    /// Hands the disk back as it is.
    pub fn close(self) -> D
        ensures { result ≡ self.disk }
    {
        let Journal {
            disk,
            offsets: _,
            gate: _,
            rest: _,
            room: _,
            places: _,
            needs_repair: _,
            buffer: _,
        } = self;
        disk
    }

    /// Grows `room` to `len` where it is less, and reserves places for two more records. Want of memory leaves the journal
    /// as it was. The disk isn't touched.
    pub fn reserve_buffer(&mut self, len: usize) -> Result<(), AllocError>
        ensures room { OnOk result (self.new.room ≡ max self.old.room len) }
        ensures places { OnOk result (self.new.places ≡ max self.old.places 2) }
        ensures as_before { self.new ≡ record self.old { room = self.new.room; places = self.new.places } }
        ensures failed { OnErr result (self.new ≡ self.old) }
        ensures still_at_rest { (bodies : List (List ℕ)) → AtRest D.held self.old bodies
            → AtRest D.held self.new bodies }
        ensures still_in_doubt { (bodies : List (List ℕ)) (body : List ℕ)
            → InDoubt D.held self.old bodies body → InDoubt D.held self.new bodies body }
    {
        self.offsets.reserve(self.places.max(2))?;
        let capacity = len.checked_add(5).ok_or(AllocError)?;
        self.buffer.clear();
        self.buffer.reserve(capacity)?;
        self.room = self.room.max(len);
        self.places = self.places.max(2);
        Ok(())
    }

    /// Adds a record, by four calls of the disk: the record is written behind the gate and synced, and then the gate
    /// is opened and synced. It takes no memory, and uses one place for an offset.
    ///
    /// The body has 1 to 16,777,216 bytes and fits in `room`; no repair is needed, a place is left, and there are
    /// fewer than 2,147,483,648 records. At `Ok` a crash leaves the new list. At any moment of the call a crash
    /// leaves the records before it, or those with the new one. `DiskFault` where the disk's count of faults rose; the
    /// records are as before then, and a repair is needed exactly where the write of the gate was begun. At `Ok` the rest is that of
    /// the file, if it was so before.
    pub fn append(&mut self, body: &[u8]) -> Result<(), DiskFault>
        requires ready { self.old.needs_repair ≡ false }
        requires some { 0 < length body.now }
        requires short { length body.now ≤ 16777216 }
        requires room { length body.now ≤ self.old.room }
        requires place { 0 < self.old.places }
        requires few { self.old.count < 2147483648 }

        ensures appended { OnOk result ((bodies : List (List ℕ)) → IsTrue D.tells
            → AtRest D.held self.old bodies
            → AtRest D.held self.new (bodies ++ body.now ∷ [])) }
        ensures sure { OnOk result ((bodies : List (List ℕ)) → IsTrue D.tells
            → AtRest D.held self.old bodies
            → (image : List ℕ) → ImageNow (D.held self.new.disk) image
            → Recovers image (bodies ++ body.now ∷ [])) }
        ensures any_moment { (bodies : List (List ℕ)) → IsTrue D.tells → AtRest D.held self.old bodies
            → CrashLeaves (OneOf bodies body.now) (D.held self.old.disk) (D.held self.new.disk) }

        ensures as_before { OnErr result (self.new.needs_repair ≡ false → (bodies : List (List ℕ))
            → IsTrue D.tells
            → AtRest D.held self.old bodies → AtRest D.held self.new bodies) }
        ensures in_doubt { OnErr result (self.new.needs_repair ≡ true → (bodies : List (List ℕ))
            → IsTrue D.tells
            → AtRest D.held self.old bodies → InDoubt D.held self.new bodies body.now) }

        ensures ready { OnOk result (self.new.needs_repair ≡ false) }
        ensures count { self.new.count ≡ (if is_ok result then self.old.count + 1 else self.old.count) }
        ensures rest { OnOk result (self.new.rest ≡ self.old.rest - (length body.now + 5)) }
        ensures rest_is { OnOk result ((bodies : List (List ℕ)) → IsTrue D.tells
            → RecordsOf (D.held self.old.disk).seen bodies self.old.rest
            → AtRest D.held self.old bodies
            → RecordsOf (D.held self.new.disk).seen (bodies ++ body.now ∷ []) self.new.rest) }
        ensures first_rest { OnOk result (IsTrue D.tells
            → self.old.rest + 1 ≡ length (D.held self.old.disk).seen
            → AtRest D.held self.old []
            → RecordsOf (D.held self.new.disk).seen (body.now ∷ []) self.new.rest) }
        ensures room { self.new.room ≡ self.old.room }
        ensures places { OnOk result (self.new.places + 1 ≡ self.old.places) }
        ensures kept { OnErr result (self.new
            ≡ record self.old { disk = self.new.disk; needs_repair = self.new.needs_repair }) }
        ensures cause { HasCause (D.fault_count self.old.disk) (D.fault_count self.new.disk) result }
        ensures strays { (bodies : List (List ℕ)) → IsTrue D.tells → AtRest D.held self.old bodies
            → D.strays self.new.disk ≡ D.strays self.old.disk }
        ensures same { D.same self.old.disk self.new.disk }
    {
        moment_laws();
        fill(&mut self.buffer, body);
        write_and_sync(&mut self.disk, self.gate + 1, &self.buffer)?;
        self.needs_repair = true;
        write_and_sync(&mut self.disk, self.gate, &[OPEN])?;
        self.needs_repair = false;
        self.offsets.push(self.gate).unwrap();
        self.places -= 1;
        let size = body.len() as u64 + 5;
        self.rest = self.rest.saturating_sub(size);
        self.gate += size;
        Ok(())
    }

    /// Writes the gate closed and syncs, where a repair is needed; else it does nothing. It takes no memory. `DiskFault`
    /// where the disk's count of faults rose; a repair is needed still.
    pub fn repair(&mut self) -> Result<(), DiskFault>
        ensures idle { self.old.needs_repair ≡ false → IsOk result }
        ensures untouched { self.old.needs_repair ≡ false → self.new ≡ self.old }
        ensures repaired { OnOk result ((bodies : List (List ℕ)) (body : List ℕ) → IsTrue D.tells
            → self.old.needs_repair ≡ true
            → InDoubt D.held self.old bodies body → AtRest D.held self.new bodies) }
        ensures in_doubt { OnErr result ((bodies : List (List ℕ)) (body : List ℕ) → IsTrue D.tells
            → InDoubt D.held self.old bodies body → InDoubt D.held self.new bodies body) }
        ensures any_moment { (bodies : List (List ℕ)) (body : List ℕ) → IsTrue D.tells
            → self.old.needs_repair ≡ true
            → InDoubt D.held self.old bodies body
            → CrashLeaves (OneOf bodies body) (D.held self.old.disk) (D.held self.new.disk) }
        ensures ready { OnOk result (self.new.needs_repair ≡ false) }
        ensures still { OnErr result (self.new.needs_repair ≡ true) }
        ensures others { self.new ≡ record self.old { disk = self.new.disk; needs_repair = self.new.needs_repair } }
        ensures cause { HasCause (D.fault_count self.old.disk) (D.fault_count self.new.disk) result }
        ensures strays { (bodies : List (List ℕ)) (body : List ℕ) → IsTrue D.tells
            → InDoubt D.held self.old bodies body → D.strays self.new.disk ≡ D.strays self.old.disk }
        ensures same { D.same self.old.disk self.new.disk }
    {
        if !self.needs_repair {
            return Ok(());
        }
        write_and_sync(&mut self.disk, self.gate, &[SHUT])?;
        self.needs_repair = false;
        Ok(())
    }
}
