// Disks that fail, stop or tell nothing.
use crate::told::{ALG, compare, is_told};
use hss_keys::OtsType;
use scitt_disk::{MemDisk, SureDisk};
use std::alloc::Global;
use std::test::Fail;
use test_cast::digest;
use test_plays::{
    Act, Drafted, Life, Play, Props, Step, loads, make_props, makes, makes_until, params_of,
    told_with,
};

// The governor's policy statement that names no issuer, and the one that admits all of its issuer.
const DRAFTS: &[Drafted] = &[
    Drafted::Removing {
        version: 1,
        index: 0,
    },
    Drafted::Genesis,
];

// A log that takes the first statement, loses it to the disk, takes it again, and is loaded.
const AGAIN: &[Act] = &[
    Act::Made(&[
        Step::Judge(0, 1_000),
        Step::Counts,
        Step::Judge(0, 1_000),
        Step::Counts,
    ]),
    Act::Loaded(&[Step::Counts, Step::Judge(0, 1_000)]),
];

// Making the log takes calls 0 to 7, the reservation 8 to 11 and the entry 12 to 15: write, sync, write of the gate, sync.
const UNRESERVED: &str = "disk fault
counts 0 1 0 1
admitted 0
counts 1 3 1 1
counts 1 3 4 1
known 0
file 85a1fe5577725f88299d0d570df52c55d5472ee6d1fb42140291142283879206
";

// An index is spent where the writing of the entry was begun.
const SPENT: &str = "disk fault
counts 0 2 1 1
admitted 0
counts 1 3 2 1
counts 1 3 4 1
known 0
file 6337e661b802f29530c2d007926ffe852cd2513371a94d3573e9eb4ee487794d
";

static FAILS: [(&[u32], &str); 8] = [
    (&[8], UNRESERVED),
    (&[9], UNRESERVED),
    (&[10], UNRESERVED),
    (&[11], UNRESERVED),
    (&[12], SPENT),
    (&[13], SPENT),
    (&[14], SPENT),
    (&[15], SPENT),
];

// What is told where the disk fails at these calls.
fn told_of_faults(
    alloc: Global,
    props: &Props,
    fails: &'static [u32],
    acts: &'static [Act],
) -> Result<String, Fail> {
    let play = Play {
        drafts: DRAFTS,
        max_entries: 100,
        block: 4,
        fails,
        acts,
    };
    told_with(alloc, &play, props)
}

#[test]
fn a_registration_that_fails_is_made_again(rt: HostRuntime) -> Result<(), Fail> {
    let alloc = rt.alloc();
    let props = make_props(alloc, OtsType::W1, DRAFTS)?;
    for (fails, wanted) in FAILS {
        let text = told_of_faults(alloc, &props, fails, AGAIN)?;
        compare(&rt, text.as_str(), wanted);
    }
    Ok(())
}

const TWICE: &[Act] = &[Act::Made(&[]), Act::Made(&[Step::Counts])];

const MADE: &str = "disk fault
counts 0 1 0 1
file ec5a9f2717dc2df79b40f7954a376077b5b7ba6e4803941e4495e2892ffafdc9
";

// The last sync alone failed.
const STANDS: &str = "disk fault
log exists
file ec5a9f2717dc2df79b40f7954a376077b5b7ba6e4803941e4495e2892ffafdc9
";

static MAKES: [(&[u32], &str); 8] = [
    (&[0], MADE),
    (&[1], MADE),
    (&[2], MADE),
    (&[3], MADE),
    (&[4], MADE),
    (&[5], MADE),
    (&[6], MADE),
    (&[7], STANDS),
];

// Where no log is made a later try on the same disk makes it.
#[test]
fn a_log_that_is_not_made_is_made_again(rt: HostRuntime) -> Result<(), Fail> {
    let alloc = rt.alloc();
    let props = make_props(alloc, OtsType::W1, DRAFTS)?;
    for (fails, wanted) in MAKES {
        let text = told_of_faults(alloc, &props, fails, TWICE)?;
        compare(&rt, text.as_str(), wanted);
    }
    Ok(())
}

// The last sync of the first entry fails, and another statement follows: its signing index is 1.
const ANOTHER: Play = Play {
    drafts: DRAFTS,
    max_entries: 100,
    block: 4,
    fails: &[15],
    acts: &[Act::Made(&[Step::Judge(0, 1_000), Step::Judge(1, 1_001), Step::Counts])],
};

const ANOTHER_TOLD: &str = "disk fault
admitted 0
counts 1 3 2 1
file 67e5d3de6d129f634d6f9c1a804a58228687c593f4f9557ce525297cf85aa60e
";

#[test]
fn another_statement_follows_one_that_failed(rt: HostRuntime) -> Result<(), Fail> {
    is_told(&rt, rt.alloc(), &ANOTHER, ANOTHER_TOLD)
}

// The disk stops in the first registration, and another statement follows after loading one of its images. The write of a gate is the last
// call that passes: pick 0 is what the sync before it left, and pick 1 what a read gives.
static IMAGES: [(u32, u64, &str); 4] = [
    (
        11,
        0,
        "counts 0 1 0 0
admitted 0
counts 1 3 1 0
file 7edb10d82e2c3638d67c7879a721507bbfc2e2aa93a349cd6af9b377b4387059
",
    ),
    (
        11,
        1,
        "counts 0 2 4 0
admitted 0
counts 1 4 5 0
file 13b214165b3cb3cd29f03bf60f8e63f5d614fc3ff4429009c3d0e69dea0683dd
",
    ),
    (
        15,
        0,
        "counts 0 2 4 0
admitted 0
counts 1 4 5 0
file 13b214165b3cb3cd29f03bf60f8e63f5d614fc3ff4429009c3d0e69dea0683dd
",
    ),
    (
        15,
        1,
        "counts 1 3 4 0
denied 9 1 1001
counts 1 3 4 0
file 85a1fe5577725f88299d0d570df52c55d5472ee6d1fb42140291142283879206
",
    ),
];

fn stopped(alloc: Global, props: &Props, passes: u32) -> Result<Life<MemDisk>, Fail> {
    let params = params_of(alloc, props, 100, 4)?;
    makes_until(
        alloc,
        passes,
        params,
        &props.statements,
        &[Step::Judge(0, 1_000)],
    )
}

fn told_after(alloc: Global, props: &Props, disk: MemDisk) -> Result<String, Fail> {
    let steps = [Step::Counts, Step::Judge(1, 1_001), Step::Counts];
    let life = loads(alloc, disk, [7; 32], &props.statements, &steps)?;
    let text = life.text;
    let hash = digest(alloc, &life.disk.into_content())?;
    Ok(format!(in alloc; "{text}file {hash}\n")?)
}

#[test]
fn a_stop_leaves_whole_records(rt: HostRuntime) -> Result<(), Fail> {
    let alloc = rt.alloc();
    let props = make_props(alloc, OtsType::W1, DRAFTS)?;
    for (passes, pick, wanted) in IMAGES {
        let life = stopped(alloc, &props, passes)?;
        compare(&rt, life.text.as_str(), "disk fault\n");
        let text = told_after(alloc, &props, life.disk.crash(pick)?)?;
        compare(&rt, text.as_str(), wanted);
    }
    Ok(())
}

const NOTHING: &str = "admitted 0
changed 2
changed 2
changed 2
changed 2
counts 1 3 1 0
";

// Two lives of a log on a disk that drops its writes and reads zeros.
fn told_of_nothing(alloc: Global) -> Result<(String, String), Fail> {
    let props = make_props(alloc, OtsType::W1, DRAFTS)?;
    let params = params_of(alloc, &props, 100, 4)?;
    let steps = [
        Step::Judge(0, 1_000),
        Step::Judge(0, 1_000),
        Step::Receipt(0),
        Step::Statement(0),
        Step::Consistency(1),
        Step::Counts,
    ];
    let first = makes(alloc, SureDisk::new(), params, &props.statements, &steps)?;
    let second = loads(alloc, first.disk, [7; 32], &props.statements, &[])?;
    Ok((first.text, second.text))
}

// Zeros are no record.
#[test]
fn a_disk_that_keeps_nothing_is_changed(rt: HostRuntime) -> Result<(), Fail> {
    let (first, second) = told_of_nothing(rt.alloc())?;
    compare(&rt, first.as_str(), NOTHING);
    compare(&rt, second.as_str(), "no log\n");
    Ok(())
}

// A policy that admits all of its issuer, and a statement of the issuer.
const READ_DRAFTS: &[Drafted] = &[
    Drafted::Genesis,
    Drafted::Issued {
        index: 0,
        alg: ALG,
        payload: b"zero",
    },
];

const REGISTERED: Play = Play {
    drafts: READ_DRAFTS,
    max_entries: 100,
    block: 4,
    fails: &[],
    acts: &[Act::Made(&[
        Step::Judge(0, 1_000),
        Step::Judge(1, 1_001),
        Step::Statement(0),
        Step::Receipt(0),
    ])],
};

// The second entry takes calls 16 to 19. No entry is kept in memory: each of the next three reads its record, and each fails.
const UNREAD: Play = Play {
    drafts: READ_DRAFTS,
    max_entries: 100,
    block: 4,
    fails: &[20, 21, 22],
    acts: &[Act::Made(&[
        Step::Judge(0, 1_000),
        Step::Judge(1, 1_001),
        Step::Statement(0),
        Step::Receipt(0),
        Step::Judge(0, 1_002),
        Step::Counts,
        Step::Judge(0, 1_002),
        Step::Statement(0),
        Step::Receipt(0),
    ])],
};

const UNREAD_TOLD: &str = "disk fault
disk fault
disk fault
counts 2 4 2 3
known 0
";

// The records are as before: the file is that of the log that never failed, and so is what is read back later.
#[test]
fn entries_are_read_back_from_the_disk(rt: HostRuntime) -> Result<(), Fail> {
    let alloc = rt.alloc();
    let props = make_props(alloc, OtsType::W1, READ_DRAFTS)?;
    let sound = told_with(alloc, &REGISTERED, &props)?;
    let back = sound
        .as_str()
        .strip_prefix("admitted 0\nadmitted 1\n")
        .ok_or("not admitted")?;
    let wanted = format!(in alloc; "admitted 0\nadmitted 1\n{UNREAD_TOLD}{back}")?;
    let text = told_with(alloc, &UNREAD, &props)?;
    compare(&rt, text.as_str(), wanted.as_str());
    Ok(())
}
