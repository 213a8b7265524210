// The disks by themselves.
use scitt_disk::{Disk, FuseDisk, MemDisk, SureDisk};
use std::test::Fail;

#[test]
fn fails_at_the_listed_calls(rt: HostRuntime) -> Result<(), Fail> {
    let alloc = rt.alloc();
    let mut disk = MemDisk::new([7, 8, 9].to_vec(alloc)?, [1, 3].to_vec(alloc)?);
    let mut buf = [0; 2];
    assert!(rt; disk.len() == Ok(3));
    assert!(rt; disk.len().is_err(), "call 1 is listed");
    assert!(rt; disk.read_at(1, &mut buf).is_ok());
    assert_eq!(rt; buf.as_slice(), [8, 9].as_slice());
    assert!(rt; disk.sync().is_err(), "call 3 is listed");
    assert_eq!(rt; disk.faults(), 2);
    assert!(rt;
        disk.read_at(2, &mut buf).is_err(),
        "the range passes the end"
    );
    assert!(rt; disk.write_at(4, &[1]).is_err(), "it begins past the end");
    assert_eq!(rt; disk.faults(), 4);
    assert!(rt; disk.write_at(2, &[1, 2]).is_ok());
    assert_eq!(rt; disk.into_content().as_slice(), [7, 8, 1, 2].as_slice());
    Ok(())
}

#[test]
fn a_crash_leaves_old_new_and_mixed_bytes(rt: HostRuntime) -> Result<(), Fail> {
    let alloc = rt.alloc();
    let mut disk = MemDisk::new([1, 1, 1, 1].to_vec(alloc)?, Vec::new(alloc));
    assert!(rt; disk.write_at(2, &[2, 2]).is_ok());
    assert!(rt; disk.sync().is_ok());
    assert!(rt; disk.write_at(1, &[3, 3, 3, 3, 3]).is_ok());
    let old = disk.crash(0)?.into_content();
    assert_eq!(rt; old.as_slice(), [1, 1, 2, 2].as_slice());
    let new = disk.crash(1)?.into_content();
    assert_eq!(rt; new.as_slice(), [1, 3, 3, 3, 3, 3].as_slice());
    let short = disk.crash(2)?.into_content();
    assert_eq!(rt; short.as_slice(), [1, 3, 3, 3].as_slice());
    let long = disk.crash(3)?.into_content();
    assert_eq!(rt; long.as_slice(), [1, 1, 2, 2, 1, 1].as_slice());
    let torn = disk.crash(4)?.into_content();
    assert_eq!(rt; torn.as_slice(), [1, 3, 2, 3, 2, 3].as_slice());
    let mut mixed = false;
    for pick in 4..64 {
        let image = disk.crash(pick)?.into_content();
        assert!(rt; image.len() >= 4 && image.len() <= 6);
        assert_eq!(rt; image[0], 1, "no range has it");
        mixed = mixed
            || (image[1] != image[2] && image[2] == 3)
            || (image[1] == 3 && image[2] == 2);
    }
    assert!(rt; mixed);
    assert!(rt; disk.sync().is_ok());
    for pick in 0..16 {
        let image = disk.crash(pick)?.into_content();
        assert_eq!(rt; image.as_slice(), [1, 3, 3, 3, 3, 3].as_slice());
    }
    Ok(())
}

#[test]
fn a_refused_write_counts_as_a_written_range(rt: HostRuntime) -> Result<(), Fail> {
    let alloc = rt.alloc();
    let mut disk = MemDisk::new([1].to_vec(alloc)?, [0].to_vec(alloc)?);
    assert!(rt; disk.write_at(1, &[2, 2]).is_err());
    assert_eq!(rt; disk.crash(3)?.into_content().len(), 3, "the longest");
    assert_eq!(rt; disk.crash(2)?.into_content().len(), 1, "the shortest");
    assert_eq!(rt; disk.into_content().as_slice(), [1].as_slice());
    Ok(())
}

#[test]
fn a_fuse_stops_after_its_calls(rt: HostRuntime) -> Result<(), Fail> {
    let alloc = rt.alloc();
    let mut fuse = FuseDisk::new(MemDisk::new([1].to_vec(alloc)?, Vec::new(alloc)), 2);
    assert!(rt; fuse.write_at(0, &[5]).is_ok());
    assert!(rt; fuse.len() == Ok(1));
    assert!(rt; fuse.sync().is_err());
    assert!(rt; fuse.write_at(0, &[6]).is_err());
    assert_eq!(rt; fuse.faults(), 2);
    let disk = fuse.into_disk();
    assert_eq!(rt; disk.crash(0)?.into_content().as_slice(), [1].as_slice());
    assert_eq!(rt; disk.into_content().as_slice(), [5].as_slice());
    Ok(())
}

#[test]
fn a_sure_disk_holds_nothing(rt: HostRuntime) {
    let mut disk = SureDisk::new();
    let mut buf = [9; 3];
    assert!(rt; disk.write_at(0, &[5]).is_ok());
    assert!(rt; disk.sync().is_ok());
    assert!(rt; disk.read_at(40, &mut buf).is_ok());
    assert_eq!(rt; buf.as_slice(), [0, 0, 0].as_slice());
    assert!(rt; disk.len() == Ok(0));
    assert_eq!(rt; disk.faults(), 0);
}
