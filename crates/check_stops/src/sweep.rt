// A policy, a statement, and the same again, over a disk that stops after so many calls. Each key has one level of height 5 and w = 4.
use crate::stages::{Left, Stage, images};
use hss_keys::OtsType;
use scitt_disk::MemDisk;
use std::alloc::Global;
use std::ops::Range;
use std::process::Abort;
use std::test::Fail;
use test_plays::{Drafted, Life, Props, Step, make_props, makes_until, params_of};

const MOMENT: u64 = 1_700_000_000;

// The policy, and a statement that it admits.
const DRAFTS: &[Drafted] = &[
    Drafted::Genesis,
    Drafted::Issued {
        index: 0,
        alg: &[0x38, 0x2d],
        payload: &[0],
    },
];

const STEPS: &[Step] = &[
    Step::Register(0, MOMENT),
    Step::Register(1, MOMENT + 1),
    Step::Register(1, MOMENT + 5),
];

const FIRST: &str = "admitted 0 f003a9d16963a7a3f70eb1f60cacaa0a2ff7f6736653e8532b23ad43bb969596\n";

const BOTH: &str = "admitted 0 f003a9d16963a7a3f70eb1f60cacaa0a2ff7f6736653e8532b23ad43bb969596
admitted 1 dedbc65d82254f7bf9051dd922b5a0332fff2028abfb8e8ec3ed562cd9c00f64
";

const WHOLE: &str = "admitted 0 f003a9d16963a7a3f70eb1f60cacaa0a2ff7f6736653e8532b23ad43bb969596
admitted 1 dedbc65d82254f7bf9051dd922b5a0332fff2028abfb8e8ec3ed562cd9c00f64
known 1 dedbc65d82254f7bf9051dd922b5a0332fff2028abfb8e8ec3ed562cd9c00f64
";

// The least that a stop may leave after these answers; `None` for answers that a stop never gives.
fn least(text: &str) -> Option<Stage> {
    if text == "disk fault\n" {
        return Some(Stage::Nothing);
    }
    if text.starts_with("disk fault\n") {
        return Some(Stage::Header);
    }
    if text.starts_with(BOTH) {
        return Some(Stage::Statement);
    }
    if text.starts_with(FIRST) {
        return Some(Stage::Policy);
    }
    None
}

fn stop_after(alloc: Global, props: &Props, passes: u32) -> Result<Life<MemDisk>, Fail> {
    let params = params_of(alloc, props, 100, 4)?;
    makes_until(alloc, passes, params, &props.statements, STEPS)
}

// What is left by a stop after so many calls, and whether it came before the last answer.
fn sweep(alloc: Global, props: &Props, passes: u32) -> Result<(Left, bool), Fail> {
    let life = stop_after(alloc, props, passes)?;
    let text = life.text;
    let least = least(text.as_str()).ok_or("another answer")?;
    let left = images(alloc, &life.disk, least)?;
    Ok((left, text.as_str() != WHOLE))
}

// What is left by stops after these calls, each of which came before the last answer.
fn leave(alloc: Global, calls: Range<u32>) -> Result<Left, Fail> {
    let props = make_props(alloc, OtsType::W4, DRAFTS)?;
    let mut all = Left::NONE;
    for passes in calls {
        let (left, stopped) = sweep(alloc, &props, passes)?;
        if !stopped {
            return Err("no stop".into());
        }
        all = all.with(left);
    }
    Ok(all)
}

// They leave logs from the first to the last of these stages.
fn compare(rt: &impl Abort, left: Left, first: Stage, last: Stage) {
    assert!(rt; left == Left { first, last });
}

#[test]
fn while_the_log_is_made(rt: HostRuntime) -> Result<(), Fail> {
    compare(&rt, leave(rt.alloc(), 0..8)?, Stage::Nothing, Stage::Header);
    Ok(())
}

#[test]
fn while_the_first_index_is_reserved(rt: HostRuntime) -> Result<(), Fail> {
    compare(
        &rt,
        leave(rt.alloc(), 8..12)?,
        Stage::Header,
        Stage::Reserve,
    );
    Ok(())
}

#[test]
fn while_the_policy_is_registered(rt: HostRuntime) -> Result<(), Fail> {
    compare(
        &rt,
        leave(rt.alloc(), 12..16)?,
        Stage::Reserve,
        Stage::Policy,
    );
    Ok(())
}

#[test]
fn while_the_statement_is_registered(rt: HostRuntime) -> Result<(), Fail> {
    compare(
        &rt,
        leave(rt.alloc(), 16..20)?,
        Stage::Policy,
        Stage::Statement,
    );
    Ok(())
}

// How many stops from the 20th call on come before the last answer. It reads an entry, and nothing is left to write.
fn stops_of_reading(alloc: Global) -> Result<u32, Fail> {
    let props = make_props(alloc, OtsType::W4, DRAFTS)?;
    for passes in 20..28u32 {
        let (left, stopped) = sweep(alloc, &props, passes)?;
        if left.first != Stage::Statement {
            return Err("another stage".into());
        }
        if !stopped {
            return Ok(passes - 20);
        }
    }
    Err("the last answer takes eight calls".into())
}

#[test]
fn while_the_statement_is_read(rt: HostRuntime) -> Result<(), Fail> {
    assert!(rt; 0 < stops_of_reading(rt.alloc())?);
    Ok(())
}
