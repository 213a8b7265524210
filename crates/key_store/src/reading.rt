// The records of a ledger, read as those of a key file.
ghost use Rattle.std.specs.Prelude.{◌≡◌, ℕ, ◌+◌, ◌<◌, ◌≤◌, IsTrue, IfOk, IfErr, OnOk, length, take, true, Some};
ghost use Rattle.hss_keys.specs.Levels.{capacity};
ghost use Rattle.key_store.specs.Records.{IsHead};
ghost use Rattle.key_store.specs.Keys.{reserved_of, key_of, fits_at, IsKeyFile};
ghost use Rattle.key_store.specs.Keys as words;
ghost use Rattle.key_store.specs.Stops.{ExplainsRead};

use crate::records::{KeyHead, head_of, upto_of};
use crate::stops::KeyStop;
use scitt_disk::Disk;
use scitt_journal::Ledger;
use std::alloc::Global;

/// A key, and how many of its indices are reserved.
#[derive(Drop)]
pub struct Found {
    pub head: KeyHead,
    pub reserved: u64,
}

fn reserve_holds(head: &KeyHead, last: u64, upto: u64) -> bool
    ensures { result ≡ words.reserve_holds head.now last upto }
{
    let capacity = head.levels.capacity();
    last < upto && upto <= capacity && upto - last <= u64::from(head.block)
}

// The key that the first record tells.
fn read_head<D: Disk>(alloc: Global, ledger: &mut Ledger<D>) -> Result<KeyHead, KeyStop>
    requires { 0 < length ledger.old.records }
    ensures key { IfOk result (λ head. IsTrue D.tells → key_of ledger.old.records ≡ Some head) }
    ensures head { IfOk result IsHead }
    ensures fits { OnOk result (IsTrue D.tells → fits_at ledger.old.records 0 ≡ true) }
    ensures stops { IfErr result (ExplainsRead (IsTrue D.tells) ledger.old.records
        (D.fault_count ledger.old.disk) (D.fault_count ledger.new.disk)) }
    ensures others { ledger.new ≡ record ledger.old { disk = ledger.new.disk } }
    ensures held { IsTrue D.tells → D.held ledger.new.disk ≡ D.held ledger.old.disk }
    ensures counted { OnOk result (D.fault_count ledger.new.disk ≡ D.fault_count ledger.old.disk) }
    ensures later { D.fault_count ledger.old.disk ≤ D.fault_count ledger.new.disk }
    ensures strays { IsTrue D.tells → D.strays ledger.new.disk ≡ D.strays ledger.old.disk }
    ensures same { D.same ledger.old.disk ledger.new.disk }
{
    let body = ledger.read(alloc, 0)?;
    match head_of(alloc, &body)? {
        Some(head) => Ok(head),
        None => Err(KeyStop::BadKeyFile(0)),
    }
}

// The number that a later record reserves up to, behind one that reserved up to `last`.
fn read_reservation<D: Disk>(
    alloc: Global,
    ledger: &mut Ledger<D>,
    head: &KeyHead,
    last: u64,
    number: u64,
) -> Result<u64, KeyStop>
    requires within { number < length ledger.old.records }
    requires later { 0 < number }
    requires key { IsTrue D.tells → key_of ledger.old.records ≡ Some head.now }
    requires last { IsTrue D.tells → last ≡ reserved_of (take number ledger.old.records) }
    requires before { IsTrue D.tells → (k : ℕ) → k < number → fits_at ledger.old.records k ≡ true }
    ensures above { IfOk result (λ upto. last < upto) }
    ensures most { IfOk result (λ upto. upto ≤ capacity head.now.levels) }
    ensures reserved { IfOk result (λ upto. IsTrue D.tells → upto ≡ reserved_of (take (number + 1) ledger.old.records)) }
    ensures fits { OnOk result (IsTrue D.tells → fits_at ledger.old.records number ≡ true) }
    ensures stops { IfErr result (ExplainsRead (IsTrue D.tells) ledger.old.records
        (D.fault_count ledger.old.disk) (D.fault_count ledger.new.disk)) }
    ensures others { ledger.new ≡ record ledger.old { disk = ledger.new.disk } }
    ensures held { IsTrue D.tells → D.held ledger.new.disk ≡ D.held ledger.old.disk }
    ensures counted { OnOk result (D.fault_count ledger.new.disk ≡ D.fault_count ledger.old.disk) }
    ensures later { D.fault_count ledger.old.disk ≤ D.fault_count ledger.new.disk }
    ensures strays { IsTrue D.tells → D.strays ledger.new.disk ≡ D.strays ledger.old.disk }
    ensures same { D.same ledger.old.disk ledger.new.disk }
{
    let body = ledger.read(alloc, number)?;
    match upto_of(alloc, &body)? {
        Some(upto) if reserve_holds(head, last, upto) => Ok(upto),
        _ => Err(KeyStop::BadKeyFile(number)),
    }
}

// How many indices the later records reserve.
fn read_reservations<D: Disk>(
    alloc: Global,
    ledger: &mut Ledger<D>,
    head: &KeyHead,
) -> Result<u64, KeyStop>
    requires some { 0 < length ledger.old.records }
    requires key { IsTrue D.tells → key_of ledger.old.records ≡ Some head.now }
    requires first { IsTrue D.tells → fits_at ledger.old.records 0 ≡ true }
    ensures most { IfOk result (λ reserved. reserved ≤ capacity head.now.levels) }
    ensures few { IfOk result (λ reserved. length ledger.old.records ≤ reserved + 1) }
    ensures reserved { IfOk result (λ reserved. IsTrue D.tells → reserved ≡ reserved_of ledger.old.records) }
    ensures file { OnOk result (IsTrue D.tells → IsKeyFile ledger.old.records) }
    ensures stops { IfErr result (ExplainsRead (IsTrue D.tells) ledger.old.records
        (D.fault_count ledger.old.disk) (D.fault_count ledger.new.disk)) }
    ensures others { ledger.new ≡ record ledger.old { disk = ledger.new.disk } }
    ensures held { IsTrue D.tells → D.held ledger.new.disk ≡ D.held ledger.old.disk }
    ensures counted { OnOk result (D.fault_count ledger.new.disk ≡ D.fault_count ledger.old.disk) }
    ensures later { D.fault_count ledger.old.disk ≤ D.fault_count ledger.new.disk }
    ensures strays { IsTrue D.tells → D.strays ledger.new.disk ≡ D.strays ledger.old.disk }
    ensures same { D.same ledger.old.disk ledger.new.disk }
{
    let mut reserved = 0;
    for number in 1..ledger.count() {
        reserved = read_reservation(alloc, ledger, head, reserved, number)?;
    }
    Ok(reserved)
}

/// The key that a ledger's records tell, and how many of its indices they reserve. `BadKeyFile` with the number of the first
/// record that doesn't fit; `DiskFault` where the disk's count of faults rose; `OutOfMemory`. Nothing is written.
pub fn read_key<D: Disk>(alloc: Global, ledger: &mut Ledger<D>) -> Result<Found, KeyStop>
    requires { 0 < length ledger.old.records }
    ensures key { IfOk result (λ found. IsTrue D.tells → key_of ledger.old.records ≡ Some found.head) }
    ensures head { IfOk result (λ found. IsHead found.head) }
    ensures most { IfOk result (λ found. found.reserved ≤ capacity found.head.levels) }
    ensures few { IfOk result (λ found. length ledger.old.records ≤ found.reserved + 1) }
    ensures reserved { IfOk result (λ found. IsTrue D.tells → found.reserved ≡ reserved_of ledger.old.records) }
    ensures file { OnOk result (IsTrue D.tells → IsKeyFile ledger.old.records) }
    ensures stops { IfErr result (ExplainsRead (IsTrue D.tells) ledger.old.records
        (D.fault_count ledger.old.disk) (D.fault_count ledger.new.disk)) }
    ensures others { ledger.new ≡ record ledger.old { disk = ledger.new.disk } }
    ensures held { IsTrue D.tells → D.held ledger.new.disk ≡ D.held ledger.old.disk }
    ensures counted { OnOk result (D.fault_count ledger.new.disk ≡ D.fault_count ledger.old.disk) }
    ensures later { D.fault_count ledger.old.disk ≤ D.fault_count ledger.new.disk }
    ensures strays { IsTrue D.tells → D.strays ledger.new.disk ≡ D.strays ledger.old.disk }
    ensures same { D.same ledger.old.disk ledger.new.disk }
{
    let head = read_head(alloc, ledger)?;
    let reserved = read_reservations(alloc, ledger, &head)?;
    Ok(Found { head, reserved })
}
