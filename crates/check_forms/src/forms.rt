// Forms, and the bytes or the refusal of each.

use super::vectors::{
    PARAMS_1, PARAMS_2, PARAMS_3, POLICIES_1, POLICIES_2, POLICIES_3, POLICIES_4, TRUSTS_1,
    TRUSTS_2,
};
use cbor_core::Bytes;
use scitt_forms::{FormStop, write_policy};
use std::alloc::{AllocError, Global};
use std::process::Abort;
use std::test::Fail;
use write_params::write_params;
use write_trust::write_trust;

/// The lines that `~` joins.
pub(crate) fn lines(alloc: Global, row: &str) -> Result<String, AllocError> {
    let mut text = String::new(alloc);
    for line in row.split("~") {
        text.push_str(line)?;
        text.push('\n')?;
    }
    Ok(text)
}

/// The bytes in hexadecimal, or the refusal.
pub(crate) fn said(alloc: Global, written: Result<Bytes, FormStop>) -> Result<String, Fail> {
    match written {
        Ok(bytes) => Ok(hex::encode(alloc, bytes.as_slice())?),
        Err(FormStop::Refused(refusal)) => Ok(refusal.text(alloc)?),
        Err(FormStop::TooLong) => Ok(String::from_str(alloc, "form long")?),
        Err(FormStop::OutOfMemory) => Ok(String::from_str(alloc, "out of memory")?),
    }
}

/// The kinds of form.
#[derive(Clone, Copy)]
enum Kind {
    Policy,
    Trust,
    Params,
}

fn written(alloc: Global, kind: Kind, text: &str) -> Result<Bytes, FormStop> {
    match kind {
        Kind::Policy => write_policy(alloc, text),
        Kind::Trust => write_trust(alloc, text),
        Kind::Params => write_params(alloc, text),
    }
}

fn are_written_so(
    rt: &impl Abort,
    alloc: Global,
    kind: Kind,
    table: &[(&str, &str)],
) -> Result<(), Fail> {
    for (row, wanted) in table {
        let text = lines(alloc, row)?;
        let text = said(alloc, written(alloc, kind, text.as_str()))?;
        assert_eq!(rt; text.as_str(), *wanted, "{row}");
    }
    Ok(())
}

#[test]
fn first_policies(rt: HostRuntime) -> Result<(), Fail> {
    are_written_so(&rt, rt.alloc(), Kind::Policy, POLICIES_1)
}

#[test]
fn second_policies(rt: HostRuntime) -> Result<(), Fail> {
    are_written_so(&rt, rt.alloc(), Kind::Policy, POLICIES_2)
}

#[test]
fn third_policies(rt: HostRuntime) -> Result<(), Fail> {
    are_written_so(&rt, rt.alloc(), Kind::Policy, POLICIES_3)
}

#[test]
fn fourth_policies(rt: HostRuntime) -> Result<(), Fail> {
    are_written_so(&rt, rt.alloc(), Kind::Policy, POLICIES_4)
}

#[test]
fn first_trust_files(rt: HostRuntime) -> Result<(), Fail> {
    are_written_so(&rt, rt.alloc(), Kind::Trust, TRUSTS_1)
}

#[test]
fn second_trust_files(rt: HostRuntime) -> Result<(), Fail> {
    are_written_so(&rt, rt.alloc(), Kind::Trust, TRUSTS_2)
}

#[test]
fn first_parameters(rt: HostRuntime) -> Result<(), Fail> {
    are_written_so(&rt, rt.alloc(), Kind::Params, PARAMS_1)
}

#[test]
fn second_parameters(rt: HostRuntime) -> Result<(), Fail> {
    are_written_so(&rt, rt.alloc(), Kind::Params, PARAMS_2)
}

#[test]
fn third_parameters(rt: HostRuntime) -> Result<(), Fail> {
    are_written_so(&rt, rt.alloc(), Kind::Params, PARAMS_3)
}
