// Registrations.

ghost use Rattle.std.specs.Prelude.{◌≡◌, ℕ, ◌<◌, ◌≤◌, ◌⊎◌, IsTrue, List, None, Some, length};
ghost use Rattle.scitt_io.specs.Causes.{Rose};
ghost use Rattle.scitt_disk.specs.Images.{CrashLeaves, ImageNow};
ghost use Rattle.statement.specs.Said.{said_of};
ghost use Rattle.log_replay.specs.Records.{entries_of};
ghost use Rattle.log_replay.specs.Judging.{moment_after};
ghost use Rattle.registrar.specs.declared.words.Outcome.TheVariants as answer;
ghost use Rattle.registrar.specs.Turns.{Registers, RepairFails, Turn, ruling_of, goes, knows, register_call, registered};
ghost use Rattle.registrar.specs.Fits.{Between, Leaves, IsFaultOf};

use crate::deciding::Decision;
use crate::ready::Writes;
use crate::registrar::Registrar;
use crate::words::{Outcome, ReadBack};
use log_replay::Checked;
use scitt_disk::{Disk, moment_laws};
use std::alloc::Global;

impl<D: Disk> Registrar<D> {
    // Writes what the statement wants, which the log admits.
    fn admit(
        &mut self,
        alloc: Global,
        checked: &Checked,
        moment: u64,
        rule: u16,
        at: u64,
    ) -> Outcome
        requires settled { self.old.standing.pending ≡ None }
        requires judged { ruling_of self.old.standing (said_of checked.now.statement) moment ≡ Some (goes rule) }
        requires at { at ≡ moment_after (entries_of self.old.standing.log) moment }
        ensures turn { Registers (IsTrue D.tells) self.old.standing (said_of checked.now.statement) moment result self.new.standing }
        ensures settled_first { RepairFails self.old.standing self.new.standing → ⊥ }
        ensures images { IsTrue D.tells → CrashLeaves (Leaves result self.old.standing (said_of checked.now.statement) moment)
            (D.held self.old.disk) (D.held self.new.disk) }
        ensures cause { IsFaultOf (D.fault_count self.old.disk) (D.fault_count self.new.disk) result }
        ensures strays { IsTrue D.tells → D.strays self.new.disk ≡ D.strays self.old.disk }
        ensures same { D.same self.old.disk self.new.disk }
    {
        moment_laws();
        self.images();
        let index = self.size();
        let Ok(writes) = self.ready(alloc, checked, moment, rule, at) else {
            return Outcome::OutOfMemory;
        };
        let Writes {
            needed,
            batch,
            receipt,
        } = writes;
        match self.put(needed, checked, &batch) {
            Ok(()) => Outcome::Admitted { index, receipt },
            Err(_) => Outcome::DiskFault,
        }
    }

    // The receipt of an entry that the log holds.
    fn known(&mut self, alloc: Global, checked: &Checked, moment: u64, index: u32) -> Outcome
        requires settled { self.old.standing.pending ≡ None }
        requires judged { ruling_of self.old.standing (said_of checked.now.statement) moment ≡ Some (knows index) }
        requires within { index < length (entries_of self.old.standing.log) }
        ensures turn { Registers (IsTrue D.tells) self.old.standing (said_of checked.now.statement) moment result self.new.standing }
        ensures settled_first { RepairFails self.old.standing self.new.standing → ⊥ }
        ensures images { IsTrue D.tells → CrashLeaves (Leaves result self.old.standing (said_of checked.now.statement) moment)
            (D.held self.old.disk) (D.held self.new.disk) }
        ensures cause { IsFaultOf (D.fault_count self.old.disk) (D.fault_count self.new.disk) result }
        ensures strays { IsTrue D.tells → D.strays self.new.disk ≡ D.strays self.old.disk }
        ensures same { D.same self.old.disk self.new.disk }
    {
        let _checked = checked;
        let _moment = moment;
        moment_laws();
        self.images();
        match self.receipt(alloc, index) {
            Ok(receipt) => Outcome::Known { index, receipt },
            Err(ReadBack::Changed { number }) => Outcome::Changed { number },
            Err(ReadBack::DiskFault) => Outcome::DiskFault,
            Err(ReadBack::OutOfMemory) => Outcome::OutOfMemory,
            Err(ReadBack::NoEntry { .. }) => unreachable!(),
            Err(ReadBack::NoSuchSize { .. }) => unreachable!(),
        }
    }

    fn run(&mut self, alloc: Global, checked: &Checked, moment: u64) -> Outcome
        ensures turn { Registers (IsTrue D.tells) self.old.standing (said_of checked.now.statement) moment result self.new.standing }
        ensures images { IsTrue D.tells → CrashLeaves (Leaves result self.old.standing (said_of checked.now.statement) moment)
            (D.held self.old.disk) (D.held self.new.disk) }
        ensures cause { IsFaultOf (D.fault_count self.old.disk) (D.fault_count self.new.disk) result }
        ensures strays { IsTrue D.tells → D.strays self.new.disk ≡ D.strays self.old.disk }
        ensures same { D.same self.old.disk self.new.disk }
    {
        moment_laws();
        let Ok(()) = self.settle() else {
            return Outcome::DiskFault;
        };
        match self.decide(checked, moment) {
            Decision::Known(index) => self.known(alloc, checked, moment, index),
            Decision::Denied { rule, size, moment } => Outcome::Denied { rule, size, moment },
            Decision::Full { entries, bytes } => Outcome::LogFull { entries, bytes },
            Decision::Spent { next, capacity } => Outcome::KeyExhausted { next, capacity },
            Decision::Goes { rule, at } => self.admit(alloc, checked, moment, rule, at),
        }
    }

    /// A registration of a checked statement at a moment: one turn.
    ///
    /// A pending record's gate is closed first; `DiskFault` where that fails. `Known` exactly where the log holds the statement, with
    /// the receipt of that entry, which may meet `DiskFault`, `Changed` or `OutOfMemory` instead. `Denied` exactly where the judgement
    /// denies it. `LogFull` exactly where it is admitted and the entries are as many as the header allows, or the logged bytes with it
    /// exceed 536,870,912; `KeyExhausted` exactly where the log isn't full and no index is left. `OutOfMemory` before anything of a
    /// record was written. `DiskFault` where the disk's count of faults rose: the entries are as before. Else `Admitted`, with the
    /// receipt of the entry, which every image holds from then on.
    ///
    /// At each moment of it a crash leaves the log, the log with the record that an earlier call left pending, or, where the statement
    /// is admitted, the log with the Reserve that is needed, or that with the Batch. After it a crash leaves the new log, or that with
    /// the pending record.
    pub fn register(&mut self, alloc: Global, checked: &Checked, moment: u64) -> Outcome
        ensures turn { Turn (IsTrue D.tells) self.old.standing (register_call (said_of checked.now.statement) moment) (registered result) self.new.standing }
        ensures inside { IsTrue D.tells → CrashLeaves (Leaves result self.old.standing (said_of checked.now.statement) moment)
            (D.held self.old.disk) (D.held self.new.disk) }
        ensures now { IsTrue D.tells → (image : List ℕ) → ImageNow (D.held self.new.disk) image
            → Between self.new.standing image }
        ensures cause { IsFaultOf (D.fault_count self.old.disk) (D.fault_count self.new.disk) result }
        ensures strays { IsTrue D.tells → D.strays self.new.disk ≡ D.strays self.old.disk }
        ensures same { D.same self.old.disk self.new.disk }
    {
        self.sound();
        let outcome = self.run(alloc, checked, moment);
        self.sound();
        self.images();
        outcome
    }
}
