// Files that a stop or a crash leaves.
use crate::reading::records_of;
use scitt_disk::{FuseDisk, MemDisk};
use scitt_journal::Journal;
use std::test::Fail;

// A journal of the one record 2.
const ONE: [u8; 7] = [1, 0, 0, 0, 1, 2, 0];

// The calls of the disk that its load makes.
const LOAD_CALLS: u32 = 4;

#[test]
fn finds_the_records(rt: HostRuntime) -> Result<(), Fail> {
    let alloc = rt.alloc();
    let rows: [(&[u8], &str, u64); 6] = [
        (&[1, 0, 0, 0, 3, 0x82, 1, 1, 0], "[130, 1, 1]", 0),
        (&[1, 0, 0, 0, 9, 0x82, 1, 1, 0], "Short", 0),
        (
            &[1, 0, 0, 0, 3, 0x82, 1, 1, 7, 0xff, 0xff],
            "[130, 1, 1]",
            2,
        ),
        (&[1], "NoLog", 0),
        (&[], "NoLog", 0),
        (&[0, 0, 0, 0, 1, 2, 0], "NoLog", 0),
    ];
    for (bytes, text, number) in rows {
        let (found, at) = records_of(alloc, Vec::from_slice(alloc, bytes)?)?;
        assert_eq!(rt; found.as_str(), text);
        assert_eq!(rt; at, number);
    }
    Ok(())
}

#[test]
fn a_prefix_is_short_at_the_gate_that_it_cuts(rt: HostRuntime) -> Result<(), Fail> {
    let alloc = rt.alloc();
    let whole = [
        1, 0, 0, 0, 1, 2, 1, 0, 0, 0, 2, 3, 4, 1, 0, 0, 0, 3, 5, 6, 7, 0,
    ];
    for n in 0..whole.len() {
        let (found, at) = records_of(alloc, Vec::from_slice(alloc, &whole[..n])?)?;
        if n < 6 {
            assert_eq!(rt; found.as_str(), "NoLog");
        } else {
            assert_eq!(rt; found.as_str(), "Short");
            let gate = if n < 7 {
                0
            } else if n < 14 {
                6
            } else {
                13
            };
            assert_eq!(rt; at, gate);
        }
    }
    let (found, rest) = records_of(alloc, Vec::from_slice(alloc, &whole)?)?;
    assert_eq!(rt; found.as_str(), "[2][3, 4][5, 6, 7]");
    assert_eq!(rt; rest, 0);
    Ok(())
}

#[test]
fn a_stop_leaves_the_records_before_or_with_the_new_one(rt: HostRuntime) -> Result<(), Fail> {
    let alloc = rt.alloc();
    for calls in 0..5 {
        let beneath = MemDisk::new(Vec::from_slice(alloc, &ONE)?, Vec::new(alloc));
        let fuse = FuseDisk::new(beneath, LOAD_CALLS + calls);
        let Ok(mut journal) = Journal::load(alloc, fuse) else {
            return Err(Fail::new("the load fails"));
        };
        journal.reserve_buffer(2)?;
        assert_eq!(rt; journal.count(), 1);
        assert_eq!(rt; journal.append(&[3, 4]).is_ok(), calls == 4);
        assert_eq!(rt; journal.needs_repair(), calls == 2 || calls == 3);
        let disk = journal.close().into_disk();
        let (mut before, mut with) = (0u32, 0u32);
        for pick in 0..16 {
            let (found, _rest) = records_of(alloc, disk.crash(pick)?.into_content())?;
            if found.as_str() == "[2]" {
                before = before.saturating_add(1);
            } else {
                assert_eq!(rt; found.as_str(), "[2][3, 4]");
                with = with.saturating_add(1);
            }
        }
        match calls {
            3 => assert!(rt; before > 0 && with > 0),
            4 => assert_eq!(rt; with, 16),
            _ => assert_eq!(rt; before, 16),
        }
    }
    Ok(())
}

// A load syncs, asks for the length and reads each gate once, the last one too.
#[test]
fn a_load_reads_each_gate_once(rt: HostRuntime) -> Result<(), Fail> {
    let alloc = rt.alloc();
    let three = [
        1, 0, 0, 0, 1, 2, 1, 0, 0, 0, 2, 3, 4, 1, 0, 0, 0, 3, 5, 6, 7, 0,
    ];
    for calls in 0..7 {
        let beneath = MemDisk::new(Vec::from_slice(alloc, &three)?, Vec::new(alloc));
        let loaded = Journal::load(alloc, FuseDisk::new(beneath, calls));
        assert_eq!(rt; loaded.is_ok(), calls == 6, "after {calls} calls");
    }
    Ok(())
}
