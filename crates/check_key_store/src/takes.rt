// Indices are given once each, in order, until none is left.
use crate::making::{made_on, one_level};
use hss_keys::{Level, Levels, LmsType, OtsType};
use key_store::{KeyFile, KeyStop, TakeStop};
use scitt_disk::{MemDisk, SureDisk};
use std::test::Fail;

#[test]
fn gives_each_index_once_and_is_exhausted(rt: HostRuntime) -> Result<(), Fail> {
    let alloc = rt.alloc();
    let disk = MemDisk::new(Vec::new(alloc), Vec::new(alloc));
    let Some(Ok(mut file)) = made_on(alloc, disk, 5) else {
        return Err(Fail::new("no key file"));
    };
    assert_eq!(rt; file.capacity(), 32);
    assert_eq!(rt; file.levels().as_slice().len(), 1);
    file.sound();
    for index in 0..32 {
        assert!(rt; file.take_index(alloc) == Ok(index), "index {index}");
        assert_eq!(rt; file.next(), index + 1);
    }
    let exhausted = TakeStop::Exhausted {
        next: 32,
        capacity: 32,
    };
    assert!(rt; file.take_index(alloc) == Err(exhausted));
    assert!(rt; file.take_index(alloc) == Err(exhausted));
    file.images();
    assert_eq!(rt; file.faults(), 0);
    let disk = MemDisk::new(file.close().into_content(), Vec::new(alloc));
    let Ok(mut loaded) = KeyFile::load(alloc, disk) else {
        return Err(Fail::new("the file isn't loaded"));
    };
    assert_eq!(rt; loaded.next(), 32);
    assert!(rt; loaded.take_index(alloc) == Err(exhausted));
    Ok(())
}

// By the bytes of RFC 8949: a gate, a length, `[0, 1, seed, identifier, [[5, 4]], 3]`, a gate.
#[test]
fn makes_these_bytes_and_loads_from_the_last_reservation(rt: HostRuntime) -> Result<(), Fail> {
    let alloc = rt.alloc();
    let disk = MemDisk::new(Vec::new(alloc), Vec::new(alloc));
    let Some(Ok(file)) = made_on(alloc, disk, 3) else {
        return Err(Fail::new("no key file"));
    };
    let mut expected = [1, 0, 0, 0, 59, 0x86, 0, 1, 0x58, 32].to_vec(alloc)?;
    for _ in 0..32 {
        expected.push(7)?;
    }
    expected.push(0x50)?;
    for _ in 0..16 {
        expected.push(9)?;
    }
    expected.extend_from_slice(&[0x81, 0x82, 5, 4, 3, 0])?;
    let mut content = file.close().into_content();
    assert_eq!(rt; content.as_slice(), expected.as_slice());
    for index in [0, 3, 6] {
        let Ok(mut loaded) = KeyFile::load(alloc, MemDisk::new(content, Vec::new(alloc))) else {
            return Err(Fail::new("the file isn't loaded"));
        };
        assert_eq!(rt; loaded.next(), index);
        assert!(rt; loaded.take_index(alloc) == Ok(index));
        content = loaded.close().into_content();
    }
    Ok(())
}

#[test]
fn refuses_a_file_that_is_there(rt: HostRuntime) -> Result<(), Fail> {
    let alloc = rt.alloc();
    let there = [1, 0, 0, 0, 1, 2, 0];
    let Some(Err(refused)) = made_on(
        alloc,
        MemDisk::new(there.to_vec(alloc)?, Vec::new(alloc)),
        1,
    ) else {
        return Err(Fail::new("a file is written over"));
    };
    assert!(rt; refused.why == KeyStop::KeyExists);
    assert_eq!(rt; refused.disk.into_content().as_slice(), there.as_slice());
    Ok(())
}

#[test]
fn a_disk_that_tells_nothing_gives_indices_too(rt: HostRuntime) -> Result<(), Fail> {
    let alloc = rt.alloc();
    let Some(Ok(mut file)) = made_on(alloc, SureDisk::new(), 64) else {
        return Err(Fail::new("no key file"));
    };
    assert!(rt; file.take_index(alloc) == Ok(0));
    assert!(rt; file.take_index(alloc) == Ok(1));
    let Err(refused) = KeyFile::load(alloc, file.close()) else {
        return Err(Fail::new("a disk of length 0 has a key"));
    };
    assert!(rt; refused.why == KeyStop::NoKey);
    assert!(rt; one_level().is_some());
    Ok(())
}

#[test]
fn makes_its_signer(rt: HostRuntime) -> Result<(), Fail> {
    let alloc = rt.alloc();
    let level = Level {
        lms: LmsType::H5,
        ots: OtsType::W1,
    };
    let levels = Levels::of(&[level]).ok_or("no levels")?;
    let disk = MemDisk::new(Vec::new(alloc), Vec::new(alloc));
    let Ok(file) = KeyFile::create(alloc, disk, [7; 32], [9; 16], levels, 1) else {
        return Err(Fail::new("no key file"));
    };
    let Ok(signer) = file.signer(alloc) else {
        return Err(Fail::new("no memory"));
    };
    assert_eq!(rt; signer.capacity(), 32);
    assert_eq!(rt; signer.prepared(), 0);
    // 4, and 4 + 8516 + 4 + 32 * 5 for one level (RFC 8554, 5.4 and 6.2)
    assert_eq!(rt; signer.sig_len(), 8688);
    Ok(())
}
