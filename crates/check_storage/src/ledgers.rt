// A ledger: the list of a journal's records, and the record that may or may not count.
use crate::reading::records_of;
use scitt_disk::{FuseDisk, MemDisk, SureDisk};
use scitt_journal::{BodyStop, CreateStop, Ledger, LoadStop};
use std::test::Fail;

#[test]
fn a_ledger_is_created_written_closed_and_loaded(rt: HostRuntime) -> Result<(), Fail> {
    let alloc = rt.alloc();
    let disk = MemDisk::new(Vec::new(alloc), Vec::new(alloc));
    let first = [2].to_vec(alloc)?;
    let Ok(mut ledger) = Ledger::create(alloc, disk, &first) else {
        return Err(Fail::new("no ledger"));
    };
    let second = [3, 4].to_vec(alloc)?;
    ledger.reserve_buffer(2)?;
    assert!(rt; ledger.room() >= 2 && ledger.is_settled());
    assert!(rt; ledger.write(&second).is_ok());
    assert_eq!(rt; ledger.count(), 2);
    assert_eq!(rt; ledger.faults(), 0);
    ledger.images();
    let disk = MemDisk::new(ledger.close().into_content(), Vec::new(alloc));
    let Ok(mut loaded) = Ledger::load(alloc, disk) else {
        return Err(Fail::new("the file isn't loaded"));
    };
    assert_eq!(rt; loaded.count(), 2);
    let Ok(body) = loaded.read(alloc, 1) else {
        return Err(Fail::new("the body isn't read"));
    };
    assert_eq!(rt; body.as_slice(), [3, 4].as_slice());
    let Err(refused) = Ledger::create(alloc, loaded.close(), &first) else {
        return Err(Fail::new("a log is written over"));
    };
    assert!(rt; refused.why == CreateStop::LogExists);
    let Err(refused) = Ledger::load(alloc, SureDisk::new()) else {
        return Err(Fail::new("a disk of length 0 has a log"));
    };
    assert!(rt; refused.why == LoadStop::NoLog);
    Ok(())
}

// The log [2], and an append of [5, 6, 7] over a fuse that passes so many calls.
#[test]
fn a_record_is_pending_once_the_write_of_its_gate_was_begun(rt: HostRuntime) -> Result<(), Fail> {
    let alloc = rt.alloc();
    let log = [1, 0, 0, 0, 1, 2, 0];
    let body = [5, 6, 7].to_vec(alloc)?;
    for passes in 0..4 {
        let disk = MemDisk::new(log.to_vec(alloc)?, Vec::new(alloc));
        let Ok(mut ledger) = Ledger::load(alloc, FuseDisk::new(disk, passes + 5)) else {
            return Err(Fail::new("the file isn't loaded"));
        };
        ledger.reserve_buffer(3)?;
        assert!(rt; ledger.is_settled() && ledger.count() == 1);
        assert!(rt; ledger.write(&body).is_err(), "after {passes} calls");
        assert_eq!(rt; ledger.is_settled(), passes < 2);
        assert_eq!(rt; ledger.settle().is_ok(), passes < 2);
        assert_eq!(rt; ledger.count(), 1);
        let read = ledger.read(alloc, 0);
        assert!(rt; matches!(read, Err(BodyStop::DiskFault)));
        let disk = ledger.close().into_disk();
        let mut with = 0u32;
        for pick in 0..16 {
            let (found, _rest) = records_of(alloc, disk.crash(pick)?.into_content())?;
            if found.as_str() == "[2][5, 6, 7]" {
                with = with.saturating_add(1);
            } else {
                assert_eq!(rt; found.as_str(), "[2]");
            }
        }
        assert_eq!(rt; with > 0, passes == 3, "after {passes} calls");
    }
    Ok(())
}

#[test]
fn a_pending_record_is_settled(rt: HostRuntime) -> Result<(), Fail> {
    let alloc = rt.alloc();
    let body = [5].to_vec(alloc)?;
    for call in 7..9 {
        let disk = MemDisk::new([1, 0, 0, 0, 1, 2, 0].to_vec(alloc)?, [call].to_vec(alloc)?);
        let Ok(mut ledger) = Ledger::load(alloc, disk) else {
            return Err(Fail::new("the file isn't loaded"));
        };
        ledger.reserve_buffer(1)?;
        assert!(rt; ledger.is_settled() && ledger.count() == 1);
        assert!(rt; ledger.write(&body).is_err());
        assert!(rt; !ledger.is_settled());
        assert!(rt; ledger.settle().is_ok());
        ledger.reserve_buffer(1)?;
        assert!(rt; ledger.is_settled() && ledger.count() == 1);
        assert!(rt; ledger.write(&body).is_ok());
        let (found, rest) = records_of(alloc, ledger.close().into_content())?;
        assert_eq!(rt; found.as_str(), "[2][5]");
        assert_eq!(rt; rest, 0);
    }
    Ok(())
}
