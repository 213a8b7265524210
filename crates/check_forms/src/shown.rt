// What documents are printed as: texts that are written as the same bytes.

use super::forms::lines;
use super::vectors::{POLICIES_1, POLICIES_2, POLICIES_3, POLICIES_4, TRUSTS_1, TRUSTS_2};
use cbor_core::Bytes;
use scitt_forms::{FormStop, write_policy};
use shown_forms::{ShowStop, show_policy, show_trust};
use std::alloc::Global;
use std::process::Abort;
use std::test::Fail;
use write_trust::write_trust;

/// The kinds of document.
#[derive(Clone, Copy)]
enum Kind {
    Policy,
    Trust,
}

fn written(alloc: Global, kind: Kind, text: &str) -> Result<Bytes, FormStop> {
    match kind {
        Kind::Policy => write_policy(alloc, text),
        Kind::Trust => write_trust(alloc, text),
    }
}

fn shown(alloc: Global, kind: Kind, bytes: &[u8]) -> Result<String, ShowStop> {
    match kind {
        Kind::Policy => show_policy(alloc, bytes),
        Kind::Trust => show_trust(alloc, bytes),
    }
}

// Each form that is written is printed as a form that is written as the same bytes; so many are.
fn come_back(
    rt: &impl Abort,
    alloc: Global,
    kind: Kind,
    table: &[(&str, &str)],
    wanted: u32,
) -> Result<(), Fail> {
    let mut count = 0_u32;
    for (row, _said) in table {
        let text = lines(alloc, row)?;
        if let Ok(bytes) = written(alloc, kind, text.as_str()) {
            let Ok(shown) = shown(alloc, kind, bytes.as_slice()) else {
                return Err("a document isn't printed".into());
            };
            let Ok(again) = written(alloc, kind, shown.as_str()) else {
                return Err("what is printed isn't written".into());
            };
            assert!(rt; again.as_slice() == bytes.as_slice(), "{row}");
            count = count.saturating_add(1);
        }
    }
    assert_eq!(rt; count, wanted);
    Ok(())
}

#[test]
fn policies_come_back(rt: HostRuntime) -> Result<(), Fail> {
    let alloc = rt.alloc();
    come_back(&rt, alloc, Kind::Policy, POLICIES_1, 20)?;
    come_back(&rt, alloc, Kind::Policy, POLICIES_2, 3)?;
    come_back(&rt, alloc, Kind::Policy, POLICIES_3, 0)?;
    come_back(&rt, alloc, Kind::Policy, POLICIES_4, 0)
}

#[test]
fn trust_files_come_back(rt: HostRuntime) -> Result<(), Fail> {
    let alloc = rt.alloc();
    come_back(&rt, alloc, Kind::Trust, TRUSTS_1, 5)?;
    come_back(&rt, alloc, Kind::Trust, TRUSTS_2, 0)
}

// A policy with a condition of each sort of value, and what it is printed as: keys in the order of their bytes, and tables under headers.
const FORM: &str =
    "version = 2~[[governor]]~iss = \"a\\\"é\"~kid = \"0A\"~key = \"000000000000000000000000000000000000000000000000000000000000000000000000000000000000000000000000000000000000000000000000\"~[[rule]]~id = 100~deny = { all = [{ issuer = \"b\" }, { not = { first_of_subject = true } }, { payload_at_most = 7 }] }~[[rule]]~id = 101~admit = { any = [] }";

const PRINTED: &str =
    "issuer = []~version = 2~~[[governor]]~iss = 'a\"é'~key = \"000000000000000000000000000000000000000000000000000000000000000000000000000000000000000000000000000000000000000000000000\"~kid = \"0a\"~~[[rule]]~id = 100~~[[rule.deny.all]]~issuer = \"b\"~~[[rule.deny.all]]~~[rule.deny.all.not]~first_of_subject = true~~[[rule.deny.all]]~payload_at_most = 7~~[[rule]]~id = 101~~[rule.admit]~any = []";

#[test]
fn a_policy_is_printed_so(rt: HostRuntime) -> Result<(), Fail> {
    let alloc = rt.alloc();
    let Ok(bytes) = write_policy(alloc, lines(alloc, FORM)?.as_str()) else {
        return Err("the form isn't written".into());
    };
    let Ok(shown) = show_policy(alloc, bytes.as_slice()) else {
        return Err("the policy isn't printed".into());
    };
    assert_eq!(rt; shown.as_str(), lines(alloc, PRINTED)?.as_str());
    Ok(())
}

// A trust file with one of each, and what it is printed as.
const TRUST_FORM: &str =
    "[[service]]~name = \"log\"~key = \"000000000000000000000000000000000000000000000000000000000000000000000000000000000000000000000000000000000000000000000000\"~[[issuer]]~iss = \"acme\"~kid = \"0B\"~key = \"111111111111111111111111111111111111111111111111111111111111111111111111111111111111111111111111111111111111111111111111\"";

const TRUST_PRINTED: &str =
    "[[issuer]]~iss = \"acme\"~key = \"111111111111111111111111111111111111111111111111111111111111111111111111111111111111111111111111111111111111111111111111\"~kid = \"0b\"~~[[service]]~key = \"000000000000000000000000000000000000000000000000000000000000000000000000000000000000000000000000000000000000000000000000\"~name = \"log\"";

#[test]
fn a_trust_file_is_printed_so(rt: HostRuntime) -> Result<(), Fail> {
    let alloc = rt.alloc();
    let Ok(bytes) = write_trust(alloc, lines(alloc, TRUST_FORM)?.as_str()) else {
        return Err("the form isn't written".into());
    };
    let Ok(shown) = show_trust(alloc, bytes.as_slice()) else {
        return Err("the trust file isn't printed".into());
    };
    assert_eq!(rt; shown.as_str(), lines(alloc, TRUST_PRINTED)?.as_str());
    Ok(())
}

#[test]
fn others_are_refused(rt: HostRuntime) -> Result<(), Fail> {
    let alloc = rt.alloc();
    for bytes in [&[][..], &[0x80], &[0x85, 1, 1, 0x80, 0x80, 0x80]] {
        assert!(rt; matches!(show_policy(alloc, bytes), Err(ShowStop::NoDocument)));
        assert!(rt; matches!(show_trust(alloc, bytes), Err(ShowStop::NoDocument)));
    }
    // A payload of at most 2^63 bytes, and of one less.
    let text = lines(
        alloc,
        "version = 1~[[governor]]~iss = \"gov\"~key = \"000000000000000000000000000000000000000000000000000000000000000000000000000000000000000000000000000000000000000000000000\"~[[rule]]~id = 100~admit = { payload_at_most = 9223372036854775807 }",
    )?;
    let Ok(bytes) = write_policy(alloc, text.as_str()) else {
        return Err("the form isn't written".into());
    };
    assert!(rt; show_policy(alloc, bytes.as_slice()).is_ok());
    let mut more = Vec::new(alloc);
    more.extend_from_slice(bytes.as_slice())?;
    let end = more.len();
    if end < 8 {
        return Err("too few bytes".into());
    }
    for place in end - 8..end {
        more[place] = 0;
    }
    more[end - 8] = 0x80;
    assert!(rt; matches!(show_policy(alloc, more.as_slice()), Err(ShowStop::NoForm)));
    Ok(())
}
