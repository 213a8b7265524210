// Each failing call of create, append and repair.
use crate::lending::made_on;
use crate::reading::records_of;
use scitt_disk::{MemDisk, SureDisk};
use scitt_journal::{CreateStop, Journal};
use std::test::Fail;

const ONE: [u8; 7] = [1, 0, 0, 0, 1, 2, 0];

#[test]
fn create_fails_at_each_call(rt: HostRuntime) -> Result<(), Fail> {
    let alloc = rt.alloc();
    for call in 0..8 {
        let disk = MemDisk::new(Vec::new(alloc), [call].to_vec(alloc)?);
        let Err(refused) = Journal::create(alloc, disk, &[2]) else {
            return Err(Fail::new("a journal on a failing disk"));
        };
        assert!(rt; refused.why == CreateStop::DiskFault);
        let mut with = 0u32;
        for pick in 0..16 {
            let (found, _rest) = records_of(alloc, refused.disk.crash(pick)?.into_content())?;
            if found.as_str() == "[2]" {
                with = with.saturating_add(1);
            } else {
                assert_eq!(rt; found.as_str(), "NoLog");
            }
        }
        assert!(rt; with < 16);
        assert_eq!(rt; with > 0, call == 7, "at call {call}");
    }
    let disk = MemDisk::new(Vec::new(alloc), Vec::new(alloc));
    let Ok(journal) = Journal::create(alloc, disk, &[2]) else {
        return Err(Fail::new("no journal"));
    };
    assert_eq!(rt; journal.count(), 1);
    assert_eq!(rt; journal.rest(), 0);
    assert_eq!(rt; journal.faults(), 0);
    assert_eq!(rt; journal.room(), 1);
    assert_eq!(rt; journal.close().into_content().as_slice(), ONE.as_slice());
    Ok(())
}

#[test]
fn create_refuses_a_log(rt: HostRuntime) -> Result<(), Fail> {
    let alloc = rt.alloc();
    let disk = MemDisk::new(Vec::from_slice(alloc, &ONE)?, Vec::new(alloc));
    let Err(refused) = Journal::create(alloc, disk, &[9]) else {
        return Err(Fail::new("a log is written over"));
    };
    assert!(rt; refused.why == CreateStop::LogExists);
    assert_eq!(rt; refused.disk.into_content().as_slice(), ONE.as_slice());
    let disk = MemDisk::new([7, 7, 7, 7, 7, 7, 7, 7, 7].to_vec(alloc)?, Vec::new(alloc));
    let Ok(journal) = Journal::create(alloc, disk, &[9]) else {
        return Err(Fail::new("no log was there"));
    };
    assert_eq!(rt; journal.rest(), 2);
    assert_eq!(rt;
        journal.close().into_content().as_slice(),
        [1, 0, 0, 0, 1, 9, 0, 7, 7].as_slice()
    );
    Ok(())
}

#[test]
fn append_goes_on_after_a_fault(rt: HostRuntime) -> Result<(), Fail> {
    let alloc = rt.alloc();
    for call in 4..8 {
        let disk = MemDisk::new(Vec::from_slice(alloc, &ONE)?, [call].to_vec(alloc)?);
        let Ok(mut journal) = Journal::load(alloc, disk) else {
            return Err(Fail::new("the load fails"));
        };
        journal.reserve_buffer(2)?;
        assert_eq!(rt; journal.count(), 1);
        assert!(rt; journal.append(&[3, 4]).is_err());
        assert_eq!(rt; journal.count(), 1);
        assert_eq!(rt; journal.needs_repair(), call >= 6);
        assert!(rt; journal.repair().is_ok());
        assert!(rt; !journal.needs_repair());
        journal.reserve_buffer(2)?;
        assert_eq!(rt; journal.count(), 1);
        assert!(rt; journal.append(&[5, 6]).is_ok());
        assert_eq!(rt; journal.faults(), 1);
        let (found, rest) = records_of(alloc, journal.close().into_content())?;
        assert_eq!(rt; found.as_str(), "[2][5, 6]");
        assert_eq!(rt; rest, 0);
    }
    Ok(())
}

#[test]
fn repair_fails_and_goes_on(rt: HostRuntime) -> Result<(), Fail> {
    let alloc = rt.alloc();
    for call in 8..10 {
        let disk = MemDisk::new(Vec::from_slice(alloc, &ONE)?, [7, call].to_vec(alloc)?);
        let Ok(mut journal) = Journal::load(alloc, disk) else {
            return Err(Fail::new("the load fails"));
        };
        journal.reserve_buffer(2)?;
        assert_eq!(rt; journal.count(), 1);
        assert!(rt; journal.append(&[3, 4]).is_err());
        assert!(rt; journal.repair().is_err());
        assert!(rt; journal.needs_repair());
        assert!(rt; journal.repair().is_ok());
        let (found, rest) = records_of(alloc, journal.close().into_content())?;
        assert_eq!(rt; found.as_str(), "[2]");
        assert_eq!(rt; rest, 7);
    }
    Ok(())
}

#[test]
fn a_lent_disk_comes_back(rt: HostRuntime) -> Result<(), Fail> {
    let alloc = rt.alloc();
    let mut disk = MemDisk::new(Vec::new(alloc), Vec::new(alloc));
    assert!(rt; made_on(alloc, &mut disk, &[2]));
    assert_eq!(rt; disk.into_content().as_slice(), ONE.as_slice());
    let mut sure = SureDisk::new();
    assert!(rt; made_on(alloc, &mut sure, &[2]));
    Ok(())
}
