// A log that is begun on a disk, or found on one.

ghost use Rattle.std.specs.Prelude.{◌≡◌, ℕ, ◌+◌, ◌<◌, ◌≤◌, ◌⊎◌, ◌&&◌, IsTrue, IfOk, IfErr, OnOk, List, [], ◌∷◌, length, take, true, None, Some};
ghost use Rattle.scitt_disk.specs.Images.{CrashLeaves, ImageNow, moment};
ghost use Rattle.scitt_disk.specs.Changes.{after_sync};
ghost use Rattle.scitt_journal.specs.Layout.{NoLog, RecordsOf, OneOf};
ghost use Rattle.log_replay.specs.Records.{header_record, record_of, reserved_of};
ghost use Rattle.hss_keys.specs.Functions.{names_levels};
ghost use Rattle.log_replay.specs.StateSeen.{StandsFor};
ghost use Rattle.log_replay.specs.WellMade.{is_within as within, is_within_limits as within_limits};
ghost use Rattle.registrar.specs.Turns.{IsSound};
ghost use Rattle.registrar.specs.Fits.{IsHeaded};
ghost use Rattle.registrar.specs.Seen.{log_of};
ghost use Rattle.registrar.specs.Opening as words;
ghost use Rattle.registrar.specs.Opening.{header_with, header_bytes, begun, HasKey, ExplainsBegin, ExplainsOpen, ExplainsRecords, ExplainsSigner};
ghost use Rattle.registrar.specs.declared.words.RegistrarStop.TheVariants as stop_of;

use crate::records::{Records, no_records, with_record};
use crate::registrar::Registrar;
use crate::words::{Params, RegistrarStop};
use hss_keys::{Levels, Signer, key_laws};
use log_replay::{Header, State, fitting_laws, growth_laws, header_body, log_laws, record_laws};
use scitt_disk::Disk;
use scitt_journal::{BodyStop, CreateStop, Ledger, LoadStop, Refused};
use statement::Hash;
use std::alloc::{AllocError, Global};
use std::mem;
use std::snapshot::Snapshot;

impl From<BodyStop> for RegistrarStop {
    ghost from_gives = { λ why stop. stop ≡ words.read_stop why };

    fn from(why: BodyStop) -> RegistrarStop {
        match why {
            BodyStop::DiskFault => RegistrarStop::DiskFault,
            BodyStop::OutOfMemory => RegistrarStop::OutOfMemory,
        }
    }
}

impl From<AllocError> for RegistrarStop {
    ghost from_gives = { λ _ stop. stop ≡ stop_of.OutOfMemory };

    fn from(_fault: AllocError) -> RegistrarStop {
        RegistrarStop::OutOfMemory
    }
}

fn made_stop(why: CreateStop) -> RegistrarStop
    ensures { result ≡ words.made_stop why }
{
    match why {
        CreateStop::LogExists => RegistrarStop::LogExists,
        CreateStop::DiskFault => RegistrarStop::DiskFault,
        CreateStop::OutOfMemory => RegistrarStop::OutOfMemory,
    }
}

fn loaded_stop(why: LoadStop) -> RegistrarStop
    ensures { result ≡ words.loaded_stop why }
{
    match why {
        LoadStop::NoLog => RegistrarStop::NoLog,
        LoadStop::Short(at) => RegistrarStop::Short(at),
        LoadStop::DiskFault => RegistrarStop::DiskFault,
        LoadStop::OutOfMemory => RegistrarStop::OutOfMemory,
    }
}

fn is_within(low: u64, high: u64, n: u64) -> bool
    ensures { result ≡ within low high n }
{
    low <= n && n <= high
}

fn are_within(name: &[u8], iss: &[u8], kid: &[u8], max_entries: u32, block: u32) -> bool
    ensures { result ≡ (within 1 128 (length name.now) && within 1 1024 (length iss.now) && within 1 64 (length kid.now)
        && within 1 65536 max_entries && within 1 64 block) }
{
    is_within(1, 128, name.len() as u64)
        && is_within(1, 1024, iss.len() as u64)
        && is_within(1, 64, kid.len() as u64)
        && is_within(1, 65_536, u64::from(max_entries))
        && is_within(1, 64, u64::from(block))
}

// Whether the header of these is within the limits, whatever its key.
fn is_within_limits(params: &Params) -> bool
    ensures { (id seed : List ℕ) → result ≡ within_limits (header_with params.now id seed) }
{
    let _levels = params.levels.as_slice();
    let name = params.name.as_slice();
    let iss = params.governor.iss.as_slice();
    let kid = params.governor.kid.as_slice();
    are_within(name, iss, kid, params.max_entries, params.block)
}

// What a log is begun with: its first record, the state of that, and the signer.
#[derive(Drop)]
struct Begun {
    body: Vec<u8>,
    state: State,
    signer: Signer,
}

fn first_state(alloc: Global, header: &Header, body: &Vec<u8>) -> Result<State, AllocError>
    requires limits { within_limits header.now ≡ true }
    requires named { names_levels header.now.levels header.now.key ≡ true }
    requires reads { record_of body.now.items ≡ Some (header_record header.now) }
    ensures { IfOk result (λ state. StandsFor state (body.now.items ∷ [])) }
{
    fitting_laws();
    let mut state = State::new(alloc);
    match state.take_record(body.as_slice())? {
        None => Ok(state),
        Some(_) => unreachable!(),
    }
}

fn begin(alloc: Global, seed: Hash, id: [u8; 16], params: Params) -> Result<Begun, RegistrarStop>
    requires { within_limits (header_with params id seed) ≡ true }
    ensures body { IfOk result (λ begun. begun.body.items ≡ header_bytes (header_with params id seed)) }
    ensures reads { IfOk result (λ begun. record_of begun.body.items
        ≡ Some (header_record (header_with params id seed))) }
    ensures some { IfOk result (λ begun. 0 < length begun.body.items) }
    ensures short { IfOk result (λ begun. length begun.body.items ≤ 16777216) }
    ensures state { IfOk result (λ begun. StandsFor begun.state (begun.body.items ∷ [])) }
    ensures signer { IfOk result (λ begun. begun.signer ≡ record { levels = params.levels; id = id; seed = seed; prepared = 0 }) }
    ensures memory { IfErr result (λ why. why ≡ stop_of.OutOfMemory) }
{
    key_laws();
    let levels = Levels::of(params.levels.as_slice()).unwrap();
    let signer = Signer::new(alloc, seed, id, levels)?;
    let Params {
        name,
        governor,
        levels,
        max_entries,
        block,
    } = params;
    let header = Header {
        name,
        governor,
        key: signer.public(),
        levels,
        max_entries,
        block,
    };
    let body = header_body(alloc, &header)?.into_vec();
    let state = first_state(alloc, &header, &body)?;
    Ok(Begun {
        body,
        state,
        signer,
    })
}

// What is read of a ledger's records: the state of them, and the records themselves.
#[derive(Drop)]
struct Found {
    state: State,
    log: Snapshot<Records>,
}

// One record more.
fn read_record<D: Disk>(
    alloc: Global,
    ledger: &mut Ledger<D>,
    found: &mut Found,
    number: u64,
) -> Result<(), RegistrarStop>
    requires within { number < length ledger.old.records }
    requires stands { StandsFor found.old.state (log_of found.old.log.value) }
    requires counted { length (log_of found.old.log.value) ≡ number }
    requires told { IsTrue D.tells → log_of found.old.log.value ≡ take number ledger.old.records }
    ensures stands { OnOk result (StandsFor found.new.state (log_of found.new.log.value)) }
    ensures counted { OnOk result (length (log_of found.new.log.value) ≡ number + 1) }
    ensures told { OnOk result (IsTrue D.tells → log_of found.new.log.value ≡ take (number + 1) ledger.old.records) }
    ensures stops { IfErr result (ExplainsRecords (IsTrue D.tells) ledger.old.records
        (D.fault_count ledger.old.disk) (D.fault_count ledger.new.disk)) }
    ensures others { ledger.new ≡ record ledger.old { disk = ledger.new.disk } }
    ensures held { IsTrue D.tells → D.held ledger.new.disk ≡ D.held ledger.old.disk }
    ensures counts { OnOk result (D.fault_count ledger.new.disk ≡ D.fault_count ledger.old.disk) }
    ensures later { D.fault_count ledger.old.disk ≤ D.fault_count ledger.new.disk }
    ensures strays { IsTrue D.tells → D.strays ledger.new.disk ≡ D.strays ledger.old.disk }
    ensures same { D.same ledger.old.disk ledger.new.disk }
{
    let body = ledger.read(alloc, number)?;
    match found.state.take_record(body.as_slice())? {
        None => {
            let before = mem::replace(&mut found.log, no_records());
            found.log = with_record(before, &body);
            Ok(())
        }
        Some(failing) => Err(RegistrarStop::BadLog {
            number,
            why: failing.why,
        }),
    }
}

// All records of a ledger.
fn read_records<D: Disk>(alloc: Global, ledger: &mut Ledger<D>) -> Result<Found, RegistrarStop>
    ensures stands { IfOk result (λ found. StandsFor found.state (log_of found.log.value)) }
    ensures counted { IfOk result (λ found. length (log_of found.log.value) ≡ length ledger.old.records) }
    ensures told { IfOk result (λ found. IsTrue D.tells → log_of found.log.value ≡ ledger.old.records) }
    ensures stops { IfErr result (ExplainsRecords (IsTrue D.tells) ledger.old.records
        (D.fault_count ledger.old.disk) (D.fault_count ledger.new.disk)) }
    ensures others { ledger.new ≡ record ledger.old { disk = ledger.new.disk } }
    ensures held { IsTrue D.tells → D.held ledger.new.disk ≡ D.held ledger.old.disk }
    ensures counts { OnOk result (D.fault_count ledger.new.disk ≡ D.fault_count ledger.old.disk) }
    ensures later { D.fault_count ledger.old.disk ≤ D.fault_count ledger.new.disk }
    ensures strays { IsTrue D.tells → D.strays ledger.new.disk ≡ D.strays ledger.old.disk }
    ensures same { D.same ledger.old.disk ledger.new.disk }
{
    let mut found = Found {
        state: State::new(alloc),
        log: no_records(),
    };
    for number in 0..ledger.count() {
        read_record(alloc, ledger, &mut found, number)?;
    }
    Ok(found)
}

// The signer of a log that has a record, where the derived key is the log's.
fn signer_of(
    alloc: Global,
    found: &Found,
    seed: Hash,
    id: [u8; 16],
) -> Result<Signer, RegistrarStop>
    requires stands { StandsFor found.now.state (log_of found.now.log.value) }
    requires some { 0 < length (log_of found.now.log.value) }
    ensures headed { IfOk result (λ signer. IsHeaded signer (log_of found.now.log.value)) }
    ensures seed { IfOk result (λ signer. signer.seed ≡ seed) }
    ensures id { IfOk result (λ signer. signer.id ≡ id) }
    ensures stops { IfErr result (ExplainsSigner (log_of found.now.log.value) id seed) }
{
    growth_laws();
    let Some(header) = found.state.header() else {
        unreachable!()
    };
    let levels = Levels::of(header.levels.as_slice()).unwrap();
    let signer = Signer::new(alloc, seed, id, levels)?;
    let derived = signer.public();
    if derived.as_slice() == header.key.as_slice() {
        return Ok(signer);
    }
    Err(RegistrarStop::WrongKey {
        kept: header.key,
        derived,
    })
}

// A ledger that was loaded, read as a log of this seed and identifier.
fn open<D: Disk>(
    alloc: Global,
    ledger: Ledger<D>,
    seed: Hash,
    id: [u8; 16],
) -> Result<Registrar<D>, Refused<D, RegistrarStop>>
    requires some { 0 < length ledger.records }
    requires settled { ledger.pending ≡ None }
    ensures log { IfOk result (λ registrar. IsTrue D.tells → registrar.standing.log ≡ ledger.records) }
    ensures next { IfOk result (λ registrar. registrar.standing.next ≡ reserved_of registrar.standing.log) }
    ensures settled { IfOk result (λ registrar. registrar.standing.pending ≡ None) }
    ensures sound { IfOk result (λ registrar. IsSound registrar.standing) }
    ensures key { IfOk result (λ registrar. HasKey registrar.standing.log id seed) }
    ensures held { IfOk result (λ registrar. IsTrue D.tells → D.held registrar.disk ≡ D.held ledger.disk) }
    ensures stops { IfErr result (λ refused. words.ExplainsLog (IsTrue D.tells) id seed ledger.records
        (D.fault_count ledger.disk) (D.fault_count refused.disk) refused.why) }
    ensures held_refused { IfErr result (λ refused. IsTrue D.tells → D.held refused.disk ≡ D.held ledger.disk) }
    ensures counted { IfOk result (λ registrar. D.fault_count registrar.disk ≡ D.fault_count ledger.disk) }
    ensures later { IfErr result (λ refused. D.fault_count ledger.disk ≤ D.fault_count refused.disk) }
    ensures strays { IfOk result (λ registrar. IsTrue D.tells → D.strays registrar.disk ≡ D.strays ledger.disk) }
    ensures strays_refused { IfErr result (λ refused. IsTrue D.tells → D.strays refused.disk ≡ D.strays ledger.disk) }
    ensures same { IfOk result (λ registrar. D.same ledger.disk registrar.disk) }
    ensures same_refused { IfErr result (λ refused. D.same ledger.disk refused.disk) }
{
    log_laws();
    growth_laws();
    record_laws();
    let mut ledger = ledger;
    let found = match read_records(alloc, &mut ledger) {
        Ok(found) => found,
        Err(why) => {
            return Err(Refused {
                disk: ledger.close(),
                why,
            });
        }
    };
    match signer_of(alloc, &found, seed, id) {
        Ok(signer) => {
            let Found { state, log } = found;
            let next = state.reserved();
            Ok(Registrar {
                ledger,
                state,
                signer,
                next,
                log,
            })
        }
        Err(why) => Err(Refused {
            disk: ledger.close(),
            why,
        }),
    }
}

impl<D: Disk> Registrar<D> {
    /// Begins with a sync, and makes a log on a disk whose file has none. Its one record is the header of these parameters, and of
    /// the key that the seed and the identifier derive for their levels. The next index is 0, and nothing is reserved.
    ///
    /// `BadParams` exactly where that header isn't within the limits: a name of 1 to 128 bytes, an issuer of the governor of 1 to
    /// 1,024 and a kid of 1 to 64, 1 to 65,536 entries, a block of 1 to 64. It is judged first, without memory and without the disk.
    /// Then `LogExists` where the file has six bytes or more and begins with 1; `DiskFault` where the disk's count of faults rose;
    /// `OutOfMemory`, before the first call of the disk. Nothing is written before the first sync succeeded. From then on, where the
    /// file had no log, a crash leaves no log, or this one record.
    pub fn create(
        alloc: Global,
        disk: D,
        seed: Hash,
        id: [u8; 16],
        params: Params,
    ) -> Result<Registrar<D>, Refused<D, RegistrarStop>>
        ensures limits { OnOk result (within_limits (header_with params id seed) ≡ true) }
        ensures begun { IfOk result (λ registrar. registrar.standing ≡ begun (header_with params id seed)) }
        ensures reads { OnOk result (record_of (header_bytes (header_with params id seed))
            ≡ Some (header_record (header_with params id seed))) }
        ensures sound { IfOk result (λ registrar. IsSound registrar.standing) }
        ensures none { OnOk result (IsTrue D.tells → NoLog (D.held disk).seen) }
        ensures images { IfOk result (λ registrar. IsTrue D.tells
            → CrashLeaves (OneOf [] (header_bytes (header_with params id seed))) (after_sync (D.held disk)) (D.held registrar.disk)) }

        ensures stops { IfErr result (λ refused. ExplainsBegin
            (IsTrue D.tells) (header_with params id seed) (D.held disk).seen
            (D.fault_count disk) (D.fault_count refused.disk) refused.why) }
        ensures stopped { IfErr result (λ refused. IsTrue D.tells → NoLog (D.held disk).seen
            → moment (D.held disk) < moment (D.held refused.disk)
            → CrashLeaves (OneOf [] (header_bytes (header_with params id seed))) (after_sync (D.held disk)) (D.held refused.disk)) }
        ensures untouched { IfErr result (λ refused. IsTrue D.tells
            → moment (D.held refused.disk) ≡ moment (D.held disk) → D.held refused.disk ≡ D.held disk) }
        ensures log_kept { IfErr result (λ refused. IsTrue D.tells → (NoLog (D.held disk).seen → ⊥)
            → (D.held refused.disk ≡ D.held disk) ⊎ (D.held refused.disk ≡ after_sync (D.held disk))) }
        ensures params { IfErr result (λ refused. refused.why ≡ stop_of.BadParams → refused.disk ≡ disk) }
        ensures memory { IfErr result (λ refused. refused.why ≡ stop_of.OutOfMemory → refused.disk ≡ disk) }

        ensures counted { IfOk result (λ registrar. D.fault_count registrar.disk ≡ D.fault_count disk) }
        ensures later { IfErr result (λ refused. D.fault_count disk ≤ D.fault_count refused.disk) }
        ensures strays { IfOk result (λ registrar. IsTrue D.tells → D.strays registrar.disk ≡ D.strays disk) }
        ensures strays_refused { IfErr result (λ refused. IsTrue D.tells → D.strays refused.disk ≡ D.strays disk) }
        ensures same { IfOk result (λ registrar. D.same disk registrar.disk) }
        ensures same_refused { IfErr result (λ refused. D.same disk refused.disk) }
    {
        if !is_within_limits(&params) {
            return Err(Refused {
                disk,
                why: RegistrarStop::BadParams,
            });
        }
        let begun = match begin(alloc, seed, id, params) {
            Ok(begun) => begun,
            Err(why) => return Err(Refused { disk, why }),
        };
        let Begun {
            body,
            state,
            signer,
        } = begun;
        match Ledger::create(alloc, disk, &body) {
            Ok(ledger) => Ok(Registrar {
                ledger,
                state,
                signer,
                next: 0,
                log: with_record(no_records(), &body),
            }),
            Err(refused) => {
                let Refused { disk, why } = refused;
                Err(Refused {
                    disk,
                    why: made_stop(why),
                })
            }
        }
    }

    /// Begins with a sync, finds and reads the records, and takes them as a log. The next index is what the last reservation says.
    ///
    /// `NoLog` where the file has fewer than six bytes or the first isn't 1; `Short` where an open gate has no whole record behind
    /// it, with the place of the first such gate; else `BadLog` where the records aren't well made, with the first that fails a rule
    /// and the first rule that it fails; else `WrongKey` where the header's key isn't the one that the seed and the identifier derive
    /// for its levels; `DiskFault` where the disk's count of faults rose; `OutOfMemory`. Nothing is written: a crash meanwhile leaves
    /// nothing but what one before might have left.
    pub fn load(
        alloc: Global,
        disk: D,
        seed: Hash,
        id: [u8; 16],
    ) -> Result<Registrar<D>, Refused<D, RegistrarStop>>
        ensures recovered { IfOk result (λ registrar. IsTrue D.tells
            → (rest : ℕ) × RecordsOf (D.held disk).seen registrar.standing.log rest) }
        ensures sound { IfOk result (λ registrar. IsSound registrar.standing) }
        ensures key { IfOk result (λ registrar. HasKey registrar.standing.log id seed) }
        ensures next { IfOk result (λ registrar. registrar.standing.next ≡ reserved_of registrar.standing.log) }
        ensures settled { IfOk result (λ registrar. registrar.standing.pending ≡ None) }
        ensures synced { IfOk result (λ registrar. IsTrue D.tells → D.held registrar.disk ≡ after_sync (D.held disk)) }
        ensures images { IfOk result (λ registrar. IsTrue D.tells
            → CrashLeaves (ImageNow (D.held disk)) (D.held disk) (D.held registrar.disk)) }

        ensures stops { IfErr result (λ refused. ExplainsOpen
            (IsTrue D.tells) id seed (D.held disk).seen
            (D.fault_count disk) (D.fault_count refused.disk) refused.why) }
        ensures images_refused { IfErr result (λ refused. IsTrue D.tells
            → CrashLeaves (ImageNow (D.held disk)) (D.held disk) (D.held refused.disk)) }
        ensures nothing_written { IfErr result (λ refused. IsTrue D.tells
            → (D.held refused.disk ≡ D.held disk) ⊎ (D.held refused.disk ≡ after_sync (D.held disk))) }

        ensures counted { IfOk result (λ registrar. D.fault_count registrar.disk ≡ D.fault_count disk) }
        ensures later { IfErr result (λ refused. D.fault_count disk ≤ D.fault_count refused.disk) }
        ensures strays { IfOk result (λ registrar. IsTrue D.tells → D.strays registrar.disk ≡ D.strays disk) }
        ensures strays_refused { IfErr result (λ refused. IsTrue D.tells → D.strays refused.disk ≡ D.strays disk) }
        ensures same { IfOk result (λ registrar. D.same disk registrar.disk) }
        ensures same_refused { IfErr result (λ refused. D.same disk refused.disk) }
    {
        match Ledger::load(alloc, disk) {
            Ok(ledger) => open(alloc, ledger, seed, id),
            Err(refused) => {
                let Refused { disk, why } = refused;
                Err(Refused {
                    disk,
                    why: loaded_stop(why),
                })
            }
        }
    }
}
