// What a log isn't begun with, and which files aren't loaded.
use crate::told::{compare, is_told};
use cbor_core::{Bytes, Text};
use hss_keys::{Key60, OtsType};
use policy_rules::Holder;
use registrar::Params;
use scitt_disk::MemDisk;
use std::alloc::Global;
use std::test::Fail;
use test_cast::{fresh, levels};
use test_plays::{Act, Play, Step, loads, make_props, makes};

fn text_of(alloc: Global, len: usize) -> Result<Text, Fail> {
    let mut text = String::new(alloc);
    for _ in 0..len {
        text.push('n')?;
    }
    Ok(Text::from_str(alloc, text.as_str())?)
}

fn bytes_of(alloc: Global, len: usize) -> Result<Bytes, Fail> {
    let bytes = vec![in alloc; 5; len]?;
    Ok(Bytes::from_slice(alloc, &bytes)?)
}

const BEGUN: &str = "counts 0 1 0 0\nwritten\n";

const BAD: &str = "bad params\nempty\n";

// The lengths of the name, the governor's issuer and its kid, the most entries, the block, and what comes of these.
static LIMITS: [([usize; 3], u32, u32, &str); 12] = [
    ([1, 1, 1], 1, 1, BEGUN),
    ([128, 1024, 64], 65_536, 64, BEGUN),
    ([0, 1, 1], 1, 1, BAD),
    ([129, 1, 1], 1, 1, BAD),
    ([1, 0, 1], 1, 1, BAD),
    ([1, 1025, 1], 1, 1, BAD),
    ([1, 1, 0], 1, 1, BAD),
    ([1, 1, 65], 1, 1, BAD),
    ([1, 1, 1], 0, 1, BAD),
    ([1, 1, 1], 65_537, 1, BAD),
    ([1, 1, 1], 1, 0, BAD),
    ([1, 1, 1], 1, 65, BAD),
];

fn governor(alloc: Global, key: Key60, iss: usize, kid: usize) -> Result<Holder, Fail> {
    let iss = text_of(alloc, iss)?;
    let kid = bytes_of(alloc, kid)?;
    Ok(Holder { iss, kid, key })
}

fn of_lengths(
    alloc: Global,
    key: Key60,
    lengths: [usize; 3],
    max_entries: u32,
    block: u32,
) -> Result<Params, Fail> {
    let [name, iss, kid] = lengths;
    let levels = levels().ok_or("no levels")?;
    let name = text_of(alloc, name)?;
    let governor = governor(alloc, key, iss, kid)?;
    Ok(Params {
        name,
        governor,
        levels,
        max_entries,
        block,
    })
}

// What is told where a log is to be made of these parameters, and whether the disk stays empty.
fn opened(alloc: Global, params: Params) -> Result<String, Fail> {
    let life = makes(alloc, fresh(alloc, &[])?, params, &[], &[Step::Counts])?;
    let mut text = life.text;
    if life.disk.into_content().is_empty() {
        text.push_str("empty\n")?;
    } else {
        text.push_str("written\n")?;
    }
    Ok(text)
}

#[test]
fn a_header_is_within_the_limits(rt: HostRuntime) -> Result<(), Fail> {
    let alloc = rt.alloc();
    let key = make_props(alloc, OtsType::W1, &[])?.governor;
    for (lengths, max_entries, block, wanted) in LIMITS {
        let params = of_lengths(alloc, key, lengths, max_entries, block)?;
        let text = opened(alloc, params)?;
        compare(&rt, text.as_str(), wanted);
    }
    Ok(())
}

// It is made where a log stands already.
const TWICE: Play = Play {
    drafts: &[],
    max_entries: 100,
    block: 4,
    fails: &[],
    acts: &[Act::Made(&[]), Act::Made(&[])],
};

const TWICE_TOLD: &str = "log exists
file ec5a9f2717dc2df79b40f7954a376077b5b7ba6e4803941e4495e2892ffafdc9
";

#[test]
fn a_log_is_not_written_over(rt: HostRuntime) -> Result<(), Fail> {
    is_told(&rt, rt.alloc(), &TWICE, TWICE_TOLD)
}

static FILES: [(&[u8], &str); 6] = [
    (&[], "no log\nkept\n"),
    (&[1], "no log\nkept\n"),
    (&[0, 0, 0, 0, 1, 1, 0], "no log\nkept\n"),
    (&[1, 0, 0, 0, 9, 0x82, 1, 1, 0], "short 0\nkept\n"),
    (&[1, 0, 0, 0, 3, 0x82, 1, 1, 0], "bad log 0 order\nkept\n"),
    (&[1, 0, 0, 0, 3, 0x82, 1, 0xff, 0], "bad log 0 form\nkept\n"),
];

// What is told of a file, and whether it stays as it was.
fn loaded(alloc: Global, bytes: &[u8]) -> Result<String, Fail> {
    let disk = MemDisk::new(Vec::from_slice(alloc, bytes)?, Vec::new(alloc));
    let life = loads(alloc, disk, [7; 32], &[], &[])?;
    let mut text = life.text;
    if life.disk.into_content().as_slice() == bytes {
        text.push_str("kept\n")?;
    } else {
        text.push_str("changed\n")?;
    }
    Ok(text)
}

#[test]
fn other_files_are_not_loaded(rt: HostRuntime) -> Result<(), Fail> {
    for (bytes, wanted) in FILES {
        let text = loaded(rt.alloc(), bytes)?;
        compare(&rt, text.as_str(), wanted);
    }
    Ok(())
}
