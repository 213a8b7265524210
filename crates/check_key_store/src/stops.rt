// Faults and stops: no index is given twice.
use crate::making::made_on;
use key_store::{KeyFile, TakeStop};
use scitt_disk::{FuseDisk, MemDisk};
use std::test::Fail;

// Making the file takes calls 0 to 7, and the first reservation 8 to 11: write, sync, write of the gate, sync.
#[test]
fn a_reservation_that_fails_gives_its_index_once(rt: HostRuntime) -> Result<(), Fail> {
    let alloc = rt.alloc();
    for call in 8..12 {
        let disk = MemDisk::new(Vec::new(alloc), [call].to_vec(alloc)?);
        let Some(Ok(mut file)) = made_on(alloc, disk, 2) else {
            return Err(Fail::new("no key file"));
        };
        assert!(rt;
            file.take_index(alloc) == Err(TakeStop::DiskFault),
            "call {call}"
        );
        assert_eq!(rt; file.faults(), 1);
        assert_eq!(rt; file.next(), 0);
        for index in 0..5 {
            assert!(rt;
                file.take_index(alloc) == Ok(index),
                "call {call}, index {index}"
            );
        }
    }
    Ok(())
}

#[test]
fn a_stop_gives_no_index_again(rt: HostRuntime) -> Result<(), Fail> {
    let alloc = rt.alloc();
    let disk = MemDisk::new(Vec::new(alloc), Vec::new(alloc));
    let Some(Ok(file)) = made_on(alloc, disk, 1) else {
        return Err(Fail::new("no key file"));
    };
    let content = file.close().into_content();
    let mut last = 0;
    for passes in 0..40 {
        let disk = MemDisk::new(Vec::from_slice(alloc, &content)?, Vec::new(alloc));
        let mut taken = 0;
        let fuse = match KeyFile::load(alloc, FuseDisk::new(disk, passes)) {
            Ok(mut file) => {
                for _ in 0..3 {
                    if let Ok(index) = file.take_index(alloc) {
                        assert_eq!(rt; index, taken);
                        taken = index.saturating_add(1);
                    }
                }
                file.close()
            }
            Err(refused) => refused.disk,
        };
        let disk = fuse.into_disk();
        for pick in 0..8 {
            let Ok(mut again) = KeyFile::load(alloc, disk.crash(pick)?) else {
                return Err(Fail::new("an image isn't loaded"));
            };
            assert!(rt; again.next() >= taken, "after {passes} calls, pick {pick}");
            let next = again.next();
            assert!(rt; again.take_index(alloc) == Ok(next));
        }
        last = taken;
    }
    assert_eq!(rt; last, 3, "forty calls are enough for three takes");
    Ok(())
}
