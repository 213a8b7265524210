// A journal in a real file.
use scitt_disk::{Disk, FileDisk};
use scitt_journal::{Journal, LoadStop};
use std::fs;
use std::fs::Permissions;
use std::os::unix::fs::PermissionsExt;
use std::test::Fail;

#[test]
fn a_file_is_created_closed_and_loaded(rt: HostRuntime) -> Result<(), Fail> {
    let alloc = rt.alloc();
    let mut disk = FileDisk::new(rt.clone()?, String::from_str(alloc, "journal")?);
    assert!(rt; disk.len() == Ok(0), "a missing file has length 0");
    assert!(rt; disk.sync().is_ok());
    let Err(refused) = Journal::load(alloc, disk) else {
        return Err(Fail::new("a missing file has a log"));
    };
    assert!(rt; refused.why == LoadStop::NoLog);
    let Ok(mut journal) = Journal::create(alloc, refused.disk, &[2]) else {
        return Err(Fail::new("no file is made"));
    };
    journal.reserve_buffer(3)?;
    assert!(rt; !journal.needs_repair() && journal.count() == 1);
    assert!(rt; journal.append(&[3, 4, 5]).is_ok());
    assert_eq!(rt; journal.close().faults(), 0);
    let again = FileDisk::new(rt.clone()?, String::from_str(alloc, "journal")?);
    let Ok(mut loaded) = Journal::load(alloc, again) else {
        return Err(Fail::new("the file isn't loaded"));
    };
    assert_eq!(rt; loaded.rest(), 0);
    assert_eq!(rt; loaded.count(), 2);
    let Ok(body) = loaded.body(alloc, 1) else {
        return Err(Fail::new("the body isn't read"));
    };
    assert_eq!(rt; body.as_slice(), [3, 4, 5].as_slice());
    let mut disk = loaded.close();
    let mut past = [0; 2];
    assert!(rt;
        disk.read_at(14, &mut past).is_err(),
        "the range passes the end"
    );
    assert!(rt; disk.write_at(16, &[1]).is_err(), "it begins past the end");
    assert_eq!(rt; disk.faults(), 2);
    Ok(())
}

#[test]
fn a_new_file_stands_in_a_folder_of_its_own(rt: HostRuntime) -> Result<(), Fail> {
    let alloc = rt.alloc();
    fs::create_dir(&rt, "store")?;
    let disk = FileDisk::new(rt.clone()?, String::from_str(alloc, "store/journal")?);
    let Ok(journal) = Journal::create(alloc, disk, &[7]) else {
        return Err(Fail::new("no file is made in the folder"));
    };
    assert_eq!(rt; journal.close().faults(), 0);
    let again = FileDisk::new(rt.clone()?, String::from_str(alloc, "store/journal")?);
    let Ok(loaded) = Journal::load(alloc, again) else {
        return Err(Fail::new("the file isn't loaded from the folder"));
    };
    assert_eq!(rt; loaded.count(), 1);
    Ok(())
}

#[test]
fn a_file_whose_name_is_gone_has_no_folder_to_sync(rt: HostRuntime) -> Result<(), Fail> {
    let alloc = rt.alloc();
    fs::create_dir(&rt, "moving")?;
    let mut disk = FileDisk::new(rt.clone()?, String::from_str(alloc, "moving/journal")?);
    assert!(rt; disk.write_at(0, &[1, 2]).is_ok());
    fs::rename(&rt, "moving/journal", "moving/moved")?;
    assert!(rt; disk.sync().is_err(), "the name isn't found");
    assert_eq!(rt; disk.faults(), 1);
    fs::rename(&rt, "moving/moved", "moving/journal")?;
    assert!(rt; disk.sync().is_ok(), "the folder is synced now");
    fs::rename(&rt, "moving/journal", "moving/moved")?;
    assert!(rt; disk.sync().is_ok(), "it is synced once");
    assert_eq!(rt; disk.faults(), 1);
    Ok(())
}

// A file of the process's own that the system doesn't sync: its sync is asked for, and fails.
#[test]
fn a_file_whose_sync_failed_is_lost(rt: HostRuntime) -> Result<(), Fail> {
    let alloc = rt.alloc();
    let mut disk = FileDisk::new(rt.clone()?, String::from_str(alloc, "/proc/self/comm")?);
    assert!(rt; disk.len() == Ok(0));
    assert!(rt; disk.sync().is_err(), "it can't be synced");
    assert!(rt; disk.len().is_err(), "and is lost");
    assert!(rt; disk.write_at(0, &[1]).is_err());
    assert_eq!(rt; disk.faults(), 3);
    drop(disk);
    let mut again = FileDisk::new(rt.clone()?, String::from_str(alloc, "/proc/self/comm")?);
    assert!(rt; again.len() == Ok(0), "another one goes on");
    Ok(())
}

#[test]
fn an_open_file_is_locked(rt: HostRuntime) -> Result<(), Fail> {
    let alloc = rt.alloc();
    let mut disk = FileDisk::new(rt.clone()?, String::from_str(alloc, "locked")?);
    assert!(rt; disk.write_at(0, &[1]).is_ok());
    let mut other = FileDisk::new(rt.clone()?, String::from_str(alloc, "locked")?);
    assert!(rt; other.len().is_err(), "it is another's");
    drop(disk);
    assert!(rt; other.len() == Ok(1));
    assert_eq!(rt; other.faults(), 1);
    Ok(())
}

#[test]
fn a_private_file_is_its_owner_s_alone(rt: HostRuntime) -> Result<(), Fail> {
    let alloc = rt.alloc();
    let disk = FileDisk::private(rt.clone()?, String::from_str(alloc, "key")?);
    let Ok(journal) = Journal::create(alloc, disk, &[2]) else {
        return Err(Fail::new("no file is made"));
    };
    let _disk = journal.close();
    assert_eq!(rt;
        fs::metadata(&rt, "key")?.permissions().mode() & 0o777,
        0o600
    );
    Ok(())
}

#[test]
fn a_file_that_may_only_be_read_is_loaded(rt: HostRuntime) -> Result<(), Fail> {
    let alloc = rt.alloc();
    let disk = FileDisk::new(rt.clone()?, String::from_str(alloc, "kept")?);
    let Ok(journal) = Journal::create(alloc, disk, &[2]) else {
        return Err(Fail::new("no file is made"));
    };
    drop(journal.close());
    fs::set_permissions(&rt, "kept", Permissions::from_mode(0o444))?;
    let again = FileDisk::new(rt.clone()?, String::from_str(alloc, "kept")?);
    let Ok(loaded) = Journal::load(alloc, again) else {
        return Err(Fail::new("the file isn't loaded"));
    };
    assert_eq!(rt; loaded.count(), 1);
    Ok(())
}
