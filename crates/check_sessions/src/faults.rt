// Links, clocks and disks that fail.
use crate::drafts::{Draft, HSS_LMS, Made, make};
use crate::requests::Request;
use crate::scenes::{SMALL, Scene, plays, plays_with};
use crate::talks::{QUIET, Talk};
use std::alloc::Global;
use std::process::Abort;
use std::test::Fail;

// The clock is asked once for each statement, and by nothing else.
static CLOCK: Scene = Scene {
    drafts: &[
        Draft::Genesis,
        Draft::Issued {
            index: 0,
            alg: HSS_LMS,
            payload: 0,
        },
    ],
    levels: SMALL,
    max_entries: 100,
    disk_fails: None,
    talks: &[Talk {
        sent: &[
            Request::Get("/policy"),
            Request::Post(0),
            Request::Get("/entries/0"),
            Request::Post(1),
        ],
        moments: &[1_000, 2_000],
        clock_fails: &[1],
        ..QUIET
    }],
    later: &[],
    told: "ended 0 1 18069 54fba5936be6104573bf8f773e69b9b80f4ca31613b80db26dc180c594e2cd35
log 1 0
",
    file: None,
};

#[test]
fn a_clock_fails_at_its_second_call(rt: HostRuntime) -> Result<(), Fail> {
    plays(&rt, rt.alloc(), &CLOCK)
}

// A log whose disk fails at this call.
fn fails_at(
    rt: &impl Abort,
    alloc: Global,
    made: &Made,
    call: u32,
    talks: &'static [Talk],
    told: &'static str,
) -> Result<(), Fail> {
    let scene = Scene {
        drafts: &[],
        levels: SMALL,
        max_entries: 100,
        disk_fails: Some(call),
        talks,
        later: &[],
        told,
        file: None,
    };
    plays_with(rt, alloc, made, &scene)
}

// A registration that is made again.
const TWICE: &[Talk] = &[Talk {
    sent: &[Request::Post(0), Request::Post(0)],
    moments: &[1_000, 1_000],
    ..QUIET
}];

// Making the log takes the calls 0 to 7 of the disk, and the reservation 8 to 11.
#[test]
fn a_disk_fails_in_the_reservation(rt: HostRuntime) -> Result<(), Fail> {
    let alloc = rt.alloc();
    let made = make(alloc, &[Draft::Genesis])?;
    let told = "ended 0 0 9037 479d2cdc71fb7e9a3dc7baffa1f579ddb4a2ef13127251109ff106266b0ad81b
log 1 1
";
    for call in 8..12 {
        fails_at(&rt, alloc, &made, call, TWICE, told)?;
    }
    Ok(())
}

// Writing the entry takes the calls 12 to 15, and spends the index 0.
#[test]
fn a_disk_fails_in_the_entry(rt: HostRuntime) -> Result<(), Fail> {
    let alloc = rt.alloc();
    let made = make(alloc, &[Draft::Genesis])?;
    let told = "ended 0 0 9037 eb26df24620ac939b7ed0734f66f8ad077f5967d6423b9dd9898ee92afa325b3
log 1 1
";
    for call in 12..16 {
        fails_at(&rt, alloc, &made, call, TWICE, told)?;
    }
    Ok(())
}

// An entry, and what is read of it.
const READ: &[Talk] = &[Talk {
    sent: &[
        Request::Post(0),
        Request::Get("/entries/0/statement"),
        Request::Get("/entries/0"),
        Request::Get("/consistency/1"),
    ],
    moments: &[1_000],
    ..QUIET
}];

// Each of the three takes one call.
static READS: [(u32, &str); 4] = [
    (
        16,
        "ended 0 0 26759 b0e611eb0f20bfa15ae55ad5c7a37f0dc0659ada28919a9cc5cb9eacc2162846\nlog 1 1\n",
    ),
    (
        17,
        "ended 0 0 26892 769e5601ca315a42ca9054b8d0bfab53fb7b2e27f4552ab2cf3b7376bed4a026\nlog 1 1\n",
    ),
    (
        18,
        "ended 0 0 26902 3bd3d53339552fc8f7836b9cd8d34d60f15c82a66dce0a7a0b8fe650960814c9\nlog 1 1\n",
    ),
    (
        19,
        "ended 0 0 35614 c2a2dd3f74763415cdb8fb161fdee9c68ad04fb107d82b898e3bb0ae5f8ea3e2\nlog 1 0\n",
    ),
];

#[test]
fn a_disk_fails_at_a_read(rt: HostRuntime) -> Result<(), Fail> {
    let alloc = rt.alloc();
    let made = make(alloc, &[Draft::Genesis])?;
    for (call, told) in READS {
        fails_at(&rt, alloc, &made, call, READ, told)?;
    }
    Ok(())
}

const TWO: Talk = Talk {
    sent: &[Request::Get("/entries/0"), Request::Get("/policy")],
    ..QUIET
};

// A link takes one call to read both requests and one for the end, and two for each answer.
static LINK: Scene = Scene {
    drafts: &[],
    levels: SMALL,
    max_entries: 100,
    disk_fails: None,
    talks: &[
        Talk {
            link_fails: &[0],
            ..TWO
        },
        Talk {
            link_fails: &[1],
            ..TWO
        },
        Talk {
            link_fails: &[2],
            ..TWO
        },
        Talk {
            link_fails: &[3],
            ..TWO
        },
        Talk {
            link_fails: &[4],
            ..TWO
        },
        Talk {
            link_fails: &[5],
            ..TWO
        },
        Talk {
            link_fails: &[6],
            ..TWO
        },
        Talk {
            link_fails: &[7],
            ..TWO
        },
    ],
    later: &[],
    told: "read fault 1 0 0 e3b0c44298fc1c149afbf4c8996fb92427ae41e4649b934ca495991b7852b855
write fault 1 0 0 e3b0c44298fc1c149afbf4c8996fb92427ae41e4649b934ca495991b7852b855
write fault 1 0 115 8fce09e57d455f78884a8150f2731980cd699b8f12df94af45a00e276024a5b6
write fault 1 0 132 de14b82ba466bcd95c622c3f394709442a5fb16709e5f8a20c5f3e499b78f1d4
write fault 1 0 222 7428c6f61f03c6d90a594ff0bd2da383ebc3671b3b7a9d4951f155c55965bc3a
read fault 1 0 297 2d2fcb5fc1b4f8712cb8ea2f7313cfd005e268ca2bdd98051b987fcdb4200e15
ended 0 0 297 2d2fcb5fc1b4f8712cb8ea2f7313cfd005e268ca2bdd98051b987fcdb4200e15
ended 0 0 297 2d2fcb5fc1b4f8712cb8ea2f7313cfd005e268ca2bdd98051b987fcdb4200e15
log 0 0
",
    file: None,
};

#[test]
fn a_link_fails_at_each_call(rt: HostRuntime) -> Result<(), Fail> {
    plays(&rt, rt.alloc(), &LINK)
}
