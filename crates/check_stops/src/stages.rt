// The logs that a stop may leave. The receipts' hashes come from bench/stops.py, a program of its own in Python.
use auditor::{Report, audit_bytes};
use scitt_disk::MemDisk;
use std::alloc::Global;
use std::test::Fail;
use test_plays::{Step, loads};

/// What a log has.
#[derive(Clone, Copy, PartialEq, Eq, PartialOrd, Ord)]
pub enum Stage {
    /// Nothing: there is no log.
    Nothing,
    /// The header.
    Header,
    /// A reservation besides.
    Reserve,
    /// The policy besides.
    Policy,
    /// The statement besides.
    Statement,
}

/// The first and the last stage of logs that were left.
#[derive(Clone, Copy, PartialEq, Eq)]
pub struct Left {
    pub first: Stage,
    pub last: Stage,
}

impl Left {
    /// Of no logs.
    pub const NONE: Left = Left {
        first: Stage::Statement,
        last: Stage::Nothing,
    };

    /// Of these logs and those.
    pub fn with(self, other: Left) -> Left {
        let first = if other.first < self.first {
            other.first
        } else {
            self.first
        };
        let last = if self.last < other.last {
            other.last
        } else {
            self.last
        };
        Left { first, last }
    }
}

// What an audit finds, and what is loaded: entries, records, next index, faults, and both receipts.
static STAGES: [(&str, Stage); 5] = [
    ("no log\nno log\n", Stage::Nothing),
    (
        "clean 1 0\ncounts 0 1 0 0\nno entry 0 0\nno entry 1 0\n",
        Stage::Header,
    ),
    (
        "clean 2 0\ncounts 0 2 4 0\nno entry 0 0\nno entry 1 0\n",
        Stage::Reserve,
    ),
    (
        "clean 3 1\ncounts 1 3 4 0\nf003a9d16963a7a3f70eb1f60cacaa0a2ff7f6736653e8532b23ad43bb969596\nno entry 1 1\n",
        Stage::Policy,
    ),
    (
        "clean 4 2\ncounts 2 4 4 0\nf003a9d16963a7a3f70eb1f60cacaa0a2ff7f6736653e8532b23ad43bb969596\ndedbc65d82254f7bf9051dd922b5a0332fff2028abfb8e8ec3ed562cd9c00f64\n",
        Stage::Statement,
    ),
];

fn stage_of(text: &str) -> Option<Stage> {
    for (known, stage) in STAGES {
        if text == known {
            return Some(stage);
        }
    }
    None
}

// Records and entries; behind them an image may have bytes that are no record.
fn told_report(alloc: Global, report: Report) -> Result<String, Fail> {
    let text = match report {
        Report::Clean {
            records,
            entries,
            ..
        } => format!(in alloc; "clean {records} {entries}")?,
        Report::Bad { number, .. } => format!(in alloc; "bad {number}")?,
        Report::NoLog => String::from_str(alloc, "no log")?,
        Report::Short(at) => format!(in alloc; "short {at}")?,
    };
    Ok(text)
}

// The audit of an image, and what is loaded of it.
fn told_image(alloc: Global, image: MemDisk) -> Result<String, Fail> {
    let content = image.into_content();
    let report = audit_bytes(alloc, &content)?;
    let mut text = told_report(alloc, report)?;
    let disk = MemDisk::new(content, Vec::new(alloc));
    let steps = [Step::Counts, Step::Receipt(0), Step::Receipt(1)];
    let life = loads(alloc, disk, [7; 32], &[], &steps)?;
    text.push('\n')?;
    text.push_str(life.text.as_str())?;
    Ok(text)
}

// The stage of an image.
fn image_stage(alloc: Global, image: MemDisk) -> Result<Stage, Fail> {
    let text = told_image(alloc, image)?;
    Ok(stage_of(text.as_str()).ok_or("another log")?)
}

/// What the images of a stopped disk are, none of which is before this stage.
pub fn images(alloc: Global, disk: &MemDisk, least: Stage) -> Result<Left, Fail> {
    let mut left = Left::NONE;
    for pick in 0..8 {
        let stage = image_stage(alloc, disk.crash(pick)?)?;
        left = left.with(Left {
            first: stage,
            last: stage,
        });
    }
    if left.first < least {
        return Err("a log before what was answered".into());
    }
    Ok(left)
}
