// What a log judges statements to be.

use crate::judgement_vectors::{JUDGED_0, JUDGED_1, JUDGED_2, JUDGED_3};
use crate::logs::record;
use hss_keys::Key60;
use log_replay::{Checked, Judgement, State, check};
use statement::parse;
use std::alloc::Global;
use std::process::Abort;
use std::test::Fail;

// Adds the records with these names, each behind a space.
fn add_records(alloc: Global, state: &mut State, names: &str) -> Result<(), Fail> {
    for name in names.split(' ') {
        let body = record(alloc, name)?;
        if state.step(body.as_slice()).is_err() {
            return Err("a bad record".into());
        }
    }
    Ok(())
}

fn checked(alloc: Global, bytes: &[u8], key: Option<Key60>) -> Result<Checked, Fail> {
    let Ok(statement) = parse(alloc, bytes) else {
        return Err("no statement".into());
    };
    match check(alloc, statement, key) {
        Ok(checked) => Ok(checked),
        Err(_) => Err("no memory".into()),
    }
}

// The key that the policy in force names for a statement.
fn hint(alloc: Global, state: &State, bytes: &[u8]) -> Result<Option<Key60>, Fail> {
    match parse(alloc, bytes) {
        Ok(statement) => Ok(state.key_hint(&statement)),
        Err(_) => Err("no statement".into()),
    }
}

fn judged(
    rt: &impl Abort,
    alloc: Global,
    state: &State,
    checked: &Checked,
    moment: u64,
) -> Result<String, Fail> {
    assert!(rt; state.header().is_some());
    let (judgement, at) = state.judge(checked, moment);
    let text = match judgement {
        Judgement::Known(index) => format!(in alloc; "Known {index} at {at}")?,
        Judgement::Admit(rule) => format!(in alloc; "Admit {rule} at {at}")?,
        Judgement::Deny(rule) => format!(in alloc; "Deny {rule} at {at}")?,
    };
    Ok(text)
}

// What a statement that was checked under this key is judged to be.
fn said(
    rt: &impl Abort,
    alloc: Global,
    state: &State,
    bytes: &[u8],
    key: Option<Key60>,
    moment: u64,
) -> Result<String, Fail> {
    let checked = checked(alloc, bytes, key)?;
    judged(rt, alloc, state, &checked, moment)
}

// Compares a row of the table on a log that has no records yet. A statement is judged the same by the key that the policy names, by another
// and by none.
fn compare(rt: &impl Abort, alloc: Global, state: &mut State, row: &[&str; 4]) -> Result<(), Fail> {
    let [names, moment, bytes, wanted] = row;
    add_records(alloc, state, names)?;
    let Ok(moment) = moment.parse::<u64>() else {
        return Err("no number".into());
    };
    let bytes = hex::decode(alloc, bytes)?;
    let key = hint(alloc, state, bytes.as_slice())?;
    for key in [key, Some([7; 60]), None] {
        let said = said(rt, alloc, state, bytes.as_slice(), key, moment)?;
        assert_eq!(rt;
            said.as_str(),
            *wanted,
            "a statement on {names} at {moment}"
        );
    }
    Ok(())
}

fn compare_row(rt: &impl Abort, alloc: Global, row: &[&str; 4]) -> Result<(), Fail> {
    let mut state = State::new(alloc);
    compare(rt, alloc, &mut state, row)
}

#[test]
fn statements_are_judged_so_in_part_0(rt: HostRuntime) -> Result<(), Fail> {
    for row in JUDGED_0 {
        compare_row(&rt, rt.alloc(), row)?;
    }
    Ok(())
}

#[test]
fn statements_are_judged_so_in_part_1(rt: HostRuntime) -> Result<(), Fail> {
    for row in JUDGED_1 {
        compare_row(&rt, rt.alloc(), row)?;
    }
    Ok(())
}

#[test]
fn statements_are_judged_so_in_part_2(rt: HostRuntime) -> Result<(), Fail> {
    for row in JUDGED_2 {
        compare_row(&rt, rt.alloc(), row)?;
    }
    Ok(())
}

#[test]
fn statements_are_judged_so_in_part_3(rt: HostRuntime) -> Result<(), Fail> {
    for row in JUDGED_3 {
        compare_row(&rt, rt.alloc(), row)?;
    }
    Ok(())
}
