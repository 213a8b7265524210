// Heads that are refused, requests that are cut, and too many of them.
use crate::requests::Request;
use crate::scenes::{SMALL, Scene, plays};
use crate::talks::{QUIET, Talk};
use std::alloc::Global;
use std::test::Fail;

// Each refused head has a request behind it.
static HEADS: Scene = Scene {
    drafts: &[],
    levels: SMALL,
    max_entries: 100,
    disk_fails: None,
    talks: &[
        Talk {
            sent: &[Request::Raw("GET /policy\r\n\r\n"), Request::Get("/policy")],
            ..QUIET
        },
        Talk {
            sent: &[
                Request::Raw("POST /entries HTTP/1.1\r\nContent-Type: application/cose\r\n\r\n"),
                Request::Get("/policy"),
            ],
            ..QUIET
        },
        Talk {
            sent: &[
                Request::Raw("HEAD /policy HTTP/1.1\r\nTransfer-Encoding: chunked\r\n\r\n"),
                Request::Get("/policy"),
            ],
            ..QUIET
        },
        Talk {
            sent: &[
                Request::Raw("POST /entries HTTP/1.1\r\nContent-Length: 4194305\r\n\r\n"),
                Request::Get("/policy"),
            ],
            ..QUIET
        },
        Talk {
            sent: &[Request::Field(8192), Request::Get("/policy")],
            ..QUIET
        },
    ],
    later: &[],
    told: "head refused 0 0 153 0f189d72fa31cccc2c7b39669efa1e1ce0543d0c53fa8e12ae407cf8b1a64dd9
head refused 0 0 158 4df7b36974e4717bd57137525d55486706704902eba321282ec44982c87c0ba2
head refused 0 0 120 745b76e7911bd9c897545017e355887446d52977b817fbc970f705b081541565
head refused 0 0 160 62439982aa55d8a4a92ed3bbaeac18ad9ce541a6b1f83a6f3ad65c3ac1752c14
head refused 0 0 177 3a335b39c797c56e400dbb60d8abe7f8741b6341748c07eafcb01e4b24aad311
log 0 0
",
    file: None,
};

#[test]
fn a_refused_head_ends_the_connection(rt: HostRuntime) -> Result<(), Fail> {
    plays(&rt, rt.alloc(), &HEADS)
}

// One request more than a connection may have.
static THOUSAND: Scene = Scene {
    drafts: &[],
    levels: SMALL,
    max_entries: 100,
    disk_fails: None,
    talks: &[Talk {
        sent: &[Request::Gets(1001, "/entries/0")],
        ..QUIET
    }],
    later: &[],
    told: "turns spent 0 0 132019 41403298419f6caa0a7f9fb0cecb1c4d0d85cac0e2fcef4023380776cc74cd6f
log 0 0
",
    file: None,
};

#[test]
fn a_thousand_requests_are_answered(rt: HostRuntime) -> Result<(), Fail> {
    plays(&rt, rt.alloc(), &THOUSAND)
}

const TWO: Talk = Talk {
    sent: &[
        Request::Get("/entries/0"),
        Request::Body("PUT /policy HTTP/1.1\r\n", b"hello"),
    ],
    ..QUIET
};

// The bytes of the first request, and of both.
const ONE: usize = 38;

const BOTH: usize = 86;

// What is heard where so many bytes of two requests come: whole requests are answered as they are in all the bytes.
fn wanted(count: usize) -> &'static str {
    if count == 0 {
        return "ended 0 0 0 e3b0c44298fc1c149afbf4c8996fb92427ae41e4649b934ca495991b7852b855\n";
    }
    if count < ONE {
        return "cut short 0 0 0 e3b0c44298fc1c149afbf4c8996fb92427ae41e4649b934ca495991b7852b855\n";
    }
    if count == ONE {
        return "ended 0 0 132 de14b82ba466bcd95c622c3f394709442a5fb16709e5f8a20c5f3e499b78f1d4\n";
    }
    if count < BOTH {
        return "cut short 0 0 132 de14b82ba466bcd95c622c3f394709442a5fb16709e5f8a20c5f3e499b78f1d4\n";
    }
    "ended 0 0 287 64cbc27563ef2327ec2cb53cd5859ba6d09eeea0522f4c2b820f7900da514a11\n"
}

fn all_wanted(alloc: Global) -> Result<String, Fail> {
    let mut text = String::new(alloc);
    for count in 0..BOTH + 1 {
        text.push_str(wanted(count))?;
    }
    text.push_str("log 0 0\n")?;
    Ok(text)
}

#[test]
fn requests_are_cut_at_each_byte(rt: HostRuntime) -> Result<(), Fail> {
    let alloc = rt.alloc();
    let told = all_wanted(alloc)?;
    let mut talks = Vec::new(alloc);
    for count in 0..BOTH + 1 {
        talks.push(Talk {
            cut: Some(count),
            ..TWO
        })?;
    }
    let scene = Scene {
        drafts: &[],
        levels: SMALL,
        max_entries: 100,
        disk_fails: None,
        talks: &talks,
        later: &[],
        told: told.as_str(),
        file: None,
    };
    plays(&rt, alloc, &scene)
}
