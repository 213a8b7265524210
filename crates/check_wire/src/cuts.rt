//! However the bytes of two requests are cut, they give the same two.
use crate::runs::{Cut, told, told_of};
use std::test::Fail;

const TWO: &[u8] =
    b"POST /entries HTTP/1.1\r\nContent-Type: application/cose\r\nContent-Length: 3\r\n\r\nabc\r\nGET /policy?a HTTP/1.1\r\nConnection: close\r\n\r\n";

const BOTH: &str = "Post /entries cose stay 616263\nGet /policy?a other close \nEnded\n";

const FIRST: &str = "Post /entries cose stay 616263\n";

/// How many bytes the first request has.
const FRONT: usize = 80;

#[test]
fn finds_both_however_they_are_cut(rt: HostRuntime) -> Result<(), Fail> {
    assert_eq!(rt; told_of(rt.alloc(), TWO)?.as_str(), BOTH);
    for place in 0..TWO.len() + 1 {
        for most in [5, 100_000] {
            let mut link = Cut {
                bytes: TWO,
                at: 0,
                place,
                most,
                fails: false,
                faults: 0,
            };
            assert_eq!(rt;
                told(rt.alloc(), &mut link)?.as_str(),
                BOTH,
                "cut at {place}"
            );
        }
    }
    Ok(())
}

// Between the two and at the end there is nothing left; elsewhere the input ends inside a request. The empty line before the
// second belongs to it.
#[test]
fn ends_or_is_cut_short(rt: HostRuntime) -> Result<(), Fail> {
    for end in 0..TWO.len() + 1 {
        let bytes = TWO.get(..end).ok_or("cut")?;
        let want = if end == 0 {
            "Ended\n"
        } else if end < FRONT {
            "CutShort\n"
        } else if end == FRONT {
            "Post /entries cose stay 616263\nEnded\n"
        } else if end < TWO.len() {
            "Post /entries cose stay 616263\nCutShort\n"
        } else {
            BOTH
        };
        assert_eq!(rt;
            told_of(rt.alloc(), bytes)?.as_str(),
            want,
            "ended at {end}"
        );
    }
    Ok(())
}

// The input ends inside the second body.
#[test]
fn ends_inside_a_body(rt: HostRuntime) -> Result<(), Fail> {
    let bytes =
        b"POST /entries HTTP/1.1\r\nContent-Type: application/cose\r\nContent-Length: 3\r\n\r\nabcPOST / HTTP/1.1\r\nContent-Length: 2\r\n\r\nx";
    assert_eq!(rt;
        told_of(rt.alloc(), bytes.as_slice())?.as_str(),
        "Post /entries cose stay 616263\nCutShort\n"
    );
    Ok(())
}

// A read that fails is told, and what was whole before it was given.
#[test]
fn tells_a_failed_read(rt: HostRuntime) -> Result<(), Fail> {
    for place in 0..TWO.len() + 1 {
        let mut link = Cut {
            bytes: TWO,
            at: 0,
            place,
            most: 1,
            fails: true,
            faults: 0,
        };
        let text = told(rt.alloc(), &mut link)?;
        let whole = if place < FRONT {
            ""
        } else if place < TWO.len() {
            FIRST
        } else {
            "Post /entries cose stay 616263\nGet /policy?a other close \n"
        };
        let want = format!(in rt.alloc(); "{whole}ReadFault\n")?;
        assert_eq!(rt; text.as_str(), want.as_str(), "failed at {place}");
        assert_eq!(rt; link.faults, 1);
    }
    Ok(())
}
