// A registrar, and what is told of it.

ghost use Rattle.std.specs.Prelude.{◌≡◌, ℕ, ◌+◌, ◌<◌, ◌≤◌, IsTrue, OnOk, OnErr, List, length, None, Some};
ghost use Rattle.scitt_io.specs.Causes.{HasCause};
ghost use Rattle.scitt_disk.specs.Images.{CrashLeaves, ImageNow};
ghost use Rattle.statement.specs.Said.{said_of};
ghost use Rattle.log_replay.specs.Records.{entries_of, header_of};
ghost use Rattle.log_replay.specs.Judging.{key_of};
ghost use Rattle.registrar.specs.Turns.{Settles, RepairFails, IsSound};
ghost use Rattle.registrar.specs.Fits.{Between};

use crate::records::Records;
use hss_keys::{Key60, Signer};
use log_replay::State;
use scitt_disk::{Disk, DiskFault, moment_laws};
use scitt_journal::Ledger;
use statement::Statement;
use std::marker::Model;
use std::snapshot::Snapshot;

/// A log on a disk, with what is kept of it, its signer, and the next signing index.
#[derive(Drop)]
pub struct Registrar<D: Disk> {
    pub(crate) ledger: Ledger<D>,
    pub(crate) state: State,
    pub(crate) signer: Signer,
    pub(crate) next: u64,
    pub(crate) log: Snapshot<Records>,
}

impl<D: Disk> Model for Registrar<D> {
    ghost use Rattle.std.specs.Prelude.{IsTrue};
    ghost use Rattle.registrar.specs.Seen.{log_of};
    ghost use Rattle.registrar.specs.Fits.{Registered, Fits, room_in};
    ghost use Rattle.policy_rules.specs.contracts.conditions.CondNode as e;
    ghost use Rattle.std.specs.Coded.{codes};

    ghost Value = { Registered D };

    ghost coded = { Prim.hlevel (codes, e.the_row.coded) };

    ghost view = { λ r. record {
      disk = r.ledger.disk;
      standing = record { log = log_of r.log.value; next = r.next; pending = r.ledger.pending };
      room = r.ledger.room;
      places = r.ledger.places;
      entry = room_in r.state;
    } };

    ghost invariant = { λ r. Fits (IsTrue D.tells) r.state r.signer r.ledger.records
        (record { log = log_of r.log.value; next = r.next; pending = r.ledger.pending }) };
}

impl<D: Disk> Registrar<D> {
    /// What a crash now may leave: the log, or the log with the pending record.
    pub fn images(&self)
        ensures { IsTrue D.tells → (image : List ℕ) → ImageNow (D.held self.now.disk) image
            → Between self.now.standing image }
    {
        self.ledger.images();
    }

    /// The log is well made, with the pending record and without.
    pub fn sound(&self)
        ensures { IsSound self.now.standing }
    {
        let _state = &self.state;
    }

    // Closes the gate of the pending record.
    pub(crate) fn settle(&mut self) -> Result<(), DiskFault>
        ensures settled { OnOk result (Settles self.old.standing self.new.standing) }
        ensures failed { OnErr result (RepairFails self.old.standing self.new.standing) }
        ensures images { IsTrue D.tells
            → CrashLeaves (Between self.old.standing) (D.held self.old.disk) (D.held self.new.disk) }
        ensures others { self.new ≡ record self.old { disk = self.new.disk; standing = self.new.standing } }
        ensures cause { HasCause (D.fault_count self.old.disk) (D.fault_count self.new.disk) result }
        ensures strays { IsTrue D.tells → D.strays self.new.disk ≡ D.strays self.old.disk }
        ensures same { D.same self.old.disk self.new.disk }
    {
        self.ledger.settle()
    }

    /// How many entries the log has.
    pub fn size(&self) -> u32
        ensures { result ≡ length (entries_of self.now.standing.log) }
    {
        self.state.size()
    }

    /// How many records the log has; the pending one isn't counted.
    pub fn records(&self) -> u64
        ensures { result ≡ length self.now.standing.log }
    {
        self.ledger.count()
    }

    /// The next signing index.
    pub fn next(&self) -> u64
        ensures { result ≡ self.now.standing.next }
    {
        self.next
    }

    /// How often the disk has failed.
    pub fn faults(&self) -> u64
        ensures { result ≡ D.fault_count self.now.disk }
    {
        self.ledger.faults()
    }

    /// The key that the policy in force names for a statement; `None` exactly where it names none.
    pub fn key_hint(&self, statement: &Statement) -> Option<Key60>
        ensures { result ≡ key_of self.now.standing.log (said_of statement.now) }
    {
        self.state.key_hint(statement)
    }

    /// Hands the disk back as it is.
    pub fn close(self) -> D
        ensures { result ≡ self.disk }
    {
        let Registrar {
            ledger,
            state: _,
            signer: _,
            next: _,
            log: _,
        } = self;
        ledger.close()
    }
}
