// A log's life over connections.
use crate::drafts::{Draft, ES256, HSS_LMS};
use crate::requests::Request;
use crate::scenes::{SMALL, Scene, plays};
use crate::talks::{QUIET, Talk};
use std::test::Fail;

const MOMENT: u64 = 1_700_000_000;

const ACME: Draft = Draft::Issued {
    index: 0,
    alg: HSS_LMS,
    payload: 0,
};

// Statements of an unknown issuer with the algorithms -46 and -7, and three requests behind them.
static EMPTY: Scene = Scene {
    drafts: &[
        ACME,
        Draft::Issued {
            index: 0,
            alg: ES256,
            payload: 0,
        },
    ],
    levels: SMALL,
    max_entries: 100,
    disk_fails: None,
    talks: &[Talk {
        sent: &[
            Request::Post(0),
            Request::Post(1),
            Request::Get("/policy"),
            Request::Get("/.well-known/scitt-keys?now"),
            Request::Raw("PUT /policy HTTP/1.1\r\n\r\n"),
        ],
        moments: &[MOMENT, MOMENT],
        ..QUIET
    }],
    later: &[],
    told: "ended 0 0 786 211f929aeb32ae70d3ceafc6cfeadf6c9acf27f153e277fb89067fae2c706c71
log 0 0
",
    file: None,
};

#[test]
fn an_empty_log_denies_and_tells(rt: HostRuntime) -> Result<(), Fail> {
    plays(&rt, rt.alloc(), &EMPTY)
}

// The policy, and a statement that it admits, twice.
const REGISTRATIONS: Talk = Talk {
    sent: &[Request::Post(0), Request::Post(1), Request::Post(1)],
    moments: &[MOMENT, MOMENT + 1, MOMENT + 5],
    ..QUIET
};

// What is read of a log with a policy and a statement, and the policy's head.
const READS: Talk = Talk {
    sent: &[
        Request::Get("/entries/0"),
        Request::Get("/entries/1"),
        Request::Get("/entries/1/statement"),
        Request::Get("/consistency/1"),
        Request::Get("/consistency/2"),
        Request::Get("/policy?"),
        Request::Get("/.well-known/scitt-keys"),
        Request::Raw("HEAD /policy HTTP/1.1\r\n\r\n"),
    ],
    ..QUIET
};

static WHOLE: Scene = Scene {
    drafts: &[Draft::Genesis, ACME],
    levels: SMALL,
    max_entries: 100,
    disk_fails: None,
    talks: &[REGISTRATIONS, READS],
    later: &[],
    told: "ended 0 0 26752 53bf8a22dcc5356b20e4a725325e63c0b411b15bac403de0e1fe2d8e08de6bc3
ended 0 0 44851 00d31180ed6da52f3b3b0c3fff595928d32c8d53b52bc4246b537139b609d87c
log 2 0
",
    file: Some("ddceb8e8d8f7fc038a80f7339223a5e6e20ee9ac7250a67e4f830b3394be44ea"),
};

#[test]
fn registers_and_reads_back(rt: HostRuntime) -> Result<(), Fail> {
    plays(&rt, rt.alloc(), &WHOLE)
}

// Four numbers beyond the log and seven targets that name nothing; two other methods of `/entries` and one of `/policy`; another type
// and none; three bodies that are no statement; a request that asks to close, and one behind it that isn't answered.
const REFUSED: Talk = Talk {
    sent: &[
        Request::Get("/entries/5"),
        Request::Get("/entries/5/statement"),
        Request::Get("/consistency/0"),
        Request::Get("/consistency/3"),
        Request::Get("/"),
        Request::Get("/entries/01"),
        Request::Get("/entries/4294967296"),
        Request::Get("/entries/x"),
        Request::Get("/entries/1/"),
        Request::Get("/polic%79"),
        Request::Get("/entries/1/statement/2"),
        Request::Body("GET /entries HTTP/1.1\r\n", &[]),
        Request::Body("HEAD /entries HTTP/1.1\r\n", &[]),
        Request::Body("POST /policy HTTP/1.1\r\n", &[]),
        Request::Body(
            "POST /entries HTTP/1.1\r\nContent-Type: application/cbor\r\nContent-Type: application/cose\r\n",
            &[],
        ),
        Request::Body("POST /entries HTTP/1.1\r\n", &[1]),
        Request::Body(
            "POST /entries HTTP/1.1\r\nContent-Type: \tapplication/cose \r\n",
            &[1, 2],
        ),
        Request::Body(
            "POST /entries HTTP/1.1\r\nContent-Type: application/cose\r\n",
            &[
                0xd2, 0x84, 0x48, 0xa2, 0x01, 0x38, 0x2d, 0x18, 0x01, 0x38, 0x2d, 0xa0, 0x40, 0x40,
            ],
        ),
        Request::Body(
            "POST /entries HTTP/1.1\r\nContent-Type: application/cose\r\n",
            &[1],
        ),
        Request::Raw("GET / HTTP/1.1\r\nConnection: keep-alive , Close\r\n\r\n"),
        Request::Get("/policy"),
    ],
    ..QUIET
};

static LOADED: Scene = Scene {
    drafts: &[Draft::Genesis, ACME],
    levels: SMALL,
    max_entries: 100,
    disk_fails: None,
    talks: &[REGISTRATIONS],
    later: &[REFUSED],
    told: "ended 0 0 26752 53bf8a22dcc5356b20e4a725325e63c0b411b15bac403de0e1fe2d8e08de6bc3
log 2 0
ended 0 0 2744 e6561b12c1c60b53b94324f6f89242eef287adc3937cab81ba9f6978f397a95f
log 2 0
",
    file: Some("ddceb8e8d8f7fc038a80f7339223a5e6e20ee9ac7250a67e4f830b3394be44ea"),
};

#[test]
fn refuses_what_it_does_not_serve(rt: HostRuntime) -> Result<(), Fail> {
    plays(&rt, rt.alloc(), &LOADED)
}

static FULL: Scene = Scene {
    drafts: &[Draft::Genesis, ACME],
    levels: SMALL,
    max_entries: 1,
    disk_fails: None,
    talks: &[Talk {
        sent: &[Request::Post(0), Request::Post(1)],
        moments: &[MOMENT, MOMENT + 1],
        ..QUIET
    }],
    later: &[],
    told: "ended 0 0 9039 31ee100f0aa41b792eecba628d4dd4e343be86a5353512eedf9a6aec97bd709c
log 1 0
",
    file: None,
};

#[test]
fn a_full_log_says_so(rt: HostRuntime) -> Result<(), Fail> {
    plays(&rt, rt.alloc(), &FULL)
}

// A policy, one that removes its issuer, one of an older version, another statement of that issuer, and the policy in force.
static REPLACED: Scene = Scene {
    drafts: &[
        Draft::Genesis,
        Draft::Removing {
            version: 2,
            index: 1,
        },
        Draft::Removing {
            version: 1,
            index: 2,
        },
        Draft::Issued {
            index: 1,
            alg: HSS_LMS,
            payload: 1,
        },
    ],
    levels: SMALL,
    max_entries: 100,
    disk_fails: None,
    talks: &[Talk {
        sent: &[
            Request::Post(0),
            Request::Post(1),
            Request::Post(2),
            Request::Post(3),
            Request::Get("/policy"),
        ],
        moments: &[MOMENT, MOMENT + 1, MOMENT + 2, MOMENT],
        ..QUIET
    }],
    later: &[],
    told: "ended 0 0 18260 b7f6fff8296f27d74396fb20d3b29e302be1505947d85e4c32cf457ec9431350
log 2 0
",
    file: None,
};

#[test]
fn policies_follow_each_other(rt: HostRuntime) -> Result<(), Fail> {
    plays(&rt, rt.alloc(), &REPLACED)
}

// The policy, and as many statements as a key of 32 indices has.
static SPENT: Scene = Scene {
    drafts: &[Draft::Genesis, Draft::Series(32)],
    levels: SMALL,
    max_entries: 100,
    disk_fails: None,
    talks: &[Talk {
        sent: &[Request::Posts],
        moments: &[MOMENT; 33],
        ..QUIET
    }],
    later: &[],
    told: "ended 0 0 287644 4ca58c17846ae5df5b9cf80947a7a6989e060f747ff2a49264be340de4b1c50d
log 32 0
",
    file: None,
};

#[test]
fn a_spent_key_says_so(rt: HostRuntime) -> Result<(), Fail> {
    plays(&rt, rt.alloc(), &SPENT)
}
