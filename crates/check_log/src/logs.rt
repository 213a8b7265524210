// Which logs are well made, and the first rule that the others break.

use crate::log_vectors::{LOGS, RECORDS_0, RECORDS_1, RECORDS_2};
use log_replay::{
    Failing, State, StepStop, Why, entry_bytes, entry_parts, read_batch, reserve_body,
};
use std::alloc::{AllocError, Global};
use std::process::Abort;
use std::test::Fail;

// The digits behind a name, where a table has it.
fn digits_in(table: &[&'static str], name: &str) -> Option<&'static str> {
    for line in table {
        match line.split_once('|') {
            Some((known, digits)) if known == name => return Some(digits),
            _ => {}
        }
    }
    None
}

fn in_first(name: &str) -> Option<&'static str> {
    digits_in(RECORDS_0, name)
}

fn in_second(name: &str) -> Option<&'static str> {
    digits_in(RECORDS_1, name)
}

fn in_third(name: &str) -> Option<&'static str> {
    digits_in(RECORDS_2, name)
}

pub fn record(alloc: Global, name: &str) -> Result<Vec<u8>, Fail> {
    let found = match in_first(name) {
        Some(digits) => Some(digits),
        None => match in_second(name) {
            Some(digits) => Some(digits),
            None => in_third(name),
        },
    };
    let digits = found.ok_or("no such record")?;
    Ok(hex::decode(alloc, digits)?)
}

fn name_of(why: Why) -> &'static str {
    match why {
        Why::Form => "Form",
        Why::Order => "Order",
        Why::Header => "Header",
        Why::Reserve => "Reserve",
        Why::EntryForm => "EntryForm",
        Why::Moment => "Moment",
        Why::Verdict => "Verdict",
        Why::Full => "Full",
        Why::Index => "Index",
        Why::Signature => "Signature",
    }
}

fn said(alloc: Global, answer: Option<Failing>) -> Result<String, AllocError> {
    match answer {
        None => String::from_str(alloc, ""),
        Some(failing) => {
            let name = name_of(failing.why);
            let recorded = failing.recorded;
            let found = failing.found;
            if recorded == 0 && found == 0 {
                String::from_str(alloc, name)
            } else {
                format!(in alloc; "{name} {recorded} {found}")
            }
        }
    }
}

// Feeds the records with these names, and says what the last one fails.
fn feed(alloc: Global, state: &mut State, names: &[&str]) -> Result<String, Fail> {
    let mut last = String::from_str(alloc, "no record")?;
    for name in names {
        if !name.is_empty() {
            let body = record(alloc, name)?;
            last = said(alloc, state.take_record(body.as_slice())?)?;
        }
    }
    Ok(last)
}

fn fed(alloc: Global, names: &[&str]) -> Result<String, Fail> {
    let mut state = State::new(alloc);
    feed(alloc, &mut state, names)
}

#[test]
fn each_log_has_its_first_failing_rule(rt: HostRuntime) -> Result<(), Fail> {
    for (number, row) in LOGS.iter().enumerate() {
        let said = fed(rt.alloc(), &row[1..])?;
        assert_eq!(rt; said.as_str(), row[0], "the log {number}");
    }
    Ok(())
}

// The roots are those that the program computed, of no entry, the first one, the first two and all three.
fn compare_state(rt: &impl Abort, alloc: Global, state: &mut State) -> Result<(), Fail> {
    let root = hex::encode(alloc, state.root().as_slice())?;
    assert_eq!(rt;
        root.as_str(),
        "e3b0c44298fc1c149afbf4c8996fb92427ae41e4649b934ca495991b7852b855"
    );
    assert!(rt; state.step(record(alloc, "header")?.as_slice()).is_ok());
    assert!(rt; state.step(record(alloc, "reserve4")?.as_slice()).is_ok());
    for (name, number, wanted) in [
        (
            "genesis",
            3,
            "d7a0323cd67e00d1d2ad060ce6cd295a225e7c26a6a501ad717d8e1c5d134522",
        ),
        (
            "acme",
            4,
            "33e25868dcc8c45ef2ac3020636f640dc117786ea0f78cfbc6d7cc6edbb09a75",
        ),
        (
            "bolt",
            5,
            "dcbe9be52a6cdbb7beafbb6e2746ba9fb501c63f354a1353a886be78404ba3e8",
        ),
    ] {
        let body = record(alloc, name)?;
        assert!(rt; state.step(body.as_slice()).is_ok(), "{name}");
        let root = hex::encode(alloc, state.root().as_slice())?;
        assert_eq!(rt; root.as_str(), wanted);
        let why = Why::Verdict;
        assert!(rt;
            state.step(body.as_slice()) == Err(StepStop::BadRecord { number, why }),
            "{name} again"
        );
    }
    assert_eq!(rt; state.size(), 3);
    for index in 0..state.size() {
        assert_eq!(rt; state.record_of(index), u64::from(index) + 2);
    }
    assert_eq!(rt; state.reserved(), 4);
    assert_eq!(rt; state.last_moment(), 1001);
    Ok(())
}

#[test]
fn a_state_tells_what_its_log_says(rt: HostRuntime) -> Result<(), Fail> {
    let mut state = State::new(rt.alloc());
    compare_state(&rt, rt.alloc(), &mut state)
}

#[test]
fn records_are_written_as_they_were_read(rt: HostRuntime) -> Result<(), Fail> {
    let alloc = rt.alloc();
    let Ok(reserve) = reserve_body(alloc, 4) else {
        return Err("no memory".into());
    };
    assert_eq!(rt; reserve.as_slice(), record(alloc, "reserve4")?.as_slice());
    for name in ["genesis", "acme", "bolt", "policy2"] {
        let Some(batch) = read_batch(alloc, record(alloc, name)?.as_slice())? else {
            return Err("no batch".into());
        };
        for leaf in batch.entries.as_slice() {
            let Some(entry) = entry_parts(alloc, leaf.as_slice())? else {
                return Err("no entry".into());
            };
            if entry.logged.as_slice().len() > 4_194_304 {
                return Err("a long entry".into());
            }
            let bytes = entry_bytes(alloc, entry.at, entry.rule, entry.logged.as_slice())?;
            assert_eq!(rt; bytes.as_slice(), leaf.as_slice(), "{name}");
        }
    }
    Ok(())
}
