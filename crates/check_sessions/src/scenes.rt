// A log's life over connections, and what is heard of it.
use crate::drafts::{Draft, Made, make};
use crate::talks::{Talk, talked};
use cbor_core::{Bytes, Text};
use hss_keys::{Key60, Level, Levels, LmsType, OtsType};
use registrar::{Params, Registrar};
use scitt_disk::MemDisk;
use std::alloc::Global;
use std::process::Abort;
use std::test::Fail;
use test_cast::{digest, fresh, holder};

/// One level of height 5 and w = 1: 32 indices.
pub const SMALL: &[Level] = &[Level {
    lms: LmsType::H5,
    ots: OtsType::W1,
}];

/// A log on an empty disk, its connections, and what is wanted of them.
#[derive(Clone, Copy)]
pub struct Scene<'a, 'b> {
    /// The statements that its peers may send.
    pub drafts: &'static [Draft],
    /// The levels of the log's key, and the most entries.
    pub levels: &'static [Level],
    pub max_entries: u32,
    /// The disk's call that fails.
    pub disk_fails: Option<u32>,
    pub talks: &'a [Talk],
    /// The connections of the log loaded again from its disk; it isn't where there are none.
    pub later: &'static [Talk],
    /// A line for each connection; and where the log is closed, one of its entries and its disk's faults.
    pub told: &'b str,
    /// The SHA-256 of the file that is left.
    pub file: Option<&'static str>,
}

/// What was told, and the disk that was left.
#[derive(Drop)]
struct Life {
    text: String,
    disk: MemDisk,
}

fn all_talked(
    alloc: Global,
    log: &mut Registrar<MemDisk>,
    statements: &[Bytes],
    talks: &[Talk],
) -> Result<String, Fail> {
    let mut text = String::new(alloc);
    for talk in talks {
        let line = talked(alloc, log, statements, talk)?;
        text.push_str(line.as_str())?;
    }
    let size = log.size();
    let faults = log.faults();
    let line = format!(in alloc; "log {size} {faults}\n")?;
    text.push_str(line.as_str())?;
    Ok(text)
}

fn served(
    alloc: Global,
    log: Registrar<MemDisk>,
    statements: &[Bytes],
    talks: &[Talk],
) -> Result<Life, Fail> {
    let mut log = log;
    let told = all_talked(alloc, &mut log, statements, talks);
    let disk = log.close();
    match told {
        Ok(text) => Ok(Life { text, disk }),
        Err(fault) => Err(fault),
    }
}

fn params(alloc: Global, governor: Key60, scene: &Scene) -> Result<Params, Fail> {
    let levels = Levels::of(scene.levels).ok_or("no levels")?;
    let name = Text::from_str(alloc, "log")?;
    let governor = holder(alloc, "gov", 1, governor)?;
    Ok(Params {
        name,
        governor,
        levels,
        max_entries: scene.max_entries,
        block: 4,
    })
}

fn disk_of(alloc: Global, fails: Option<u32>) -> Result<MemDisk, Fail> {
    match fails {
        Some(call) => fresh(alloc, &[call]),
        None => fresh(alloc, &[]),
    }
}

fn begins(alloc: Global, made: &Made, scene: &Scene) -> Result<Life, Fail> {
    let params = params(alloc, made.governor, scene)?;
    let disk = disk_of(alloc, scene.disk_fails)?;
    match Registrar::create(alloc, disk, [7; 32], [9; 16], params) {
        Ok(log) => served(alloc, log, &made.statements, scene.talks),
        Err(_) => Err("no log".into()),
    }
}

// What is sent later has no statements.
fn goes_on(alloc: Global, disk: MemDisk, talks: &[Talk]) -> Result<Life, Fail> {
    match Registrar::load(alloc, disk, [7; 32], [9; 16]) {
        Ok(log) => served(alloc, log, &[], talks),
        Err(_) => Err("not loaded".into()),
    }
}

// The log closed, loaded again and closed.
fn lives_on(alloc: Global, life: Life, talks: &[Talk]) -> Result<Life, Fail> {
    let Life { mut text, disk } = life;
    let Life { text: more, disk } = goes_on(alloc, disk, talks)?;
    text.push_str(more.as_str())?;
    Ok(Life { text, disk })
}

fn lived(alloc: Global, made: &Made, scene: &Scene) -> Result<Life, Fail> {
    let life = begins(alloc, made, scene)?;
    if scene.later.is_empty() {
        return Ok(life);
    }
    lives_on(alloc, life, scene.later)
}

// What is told, and the SHA-256 of the file that is left.
fn outcome(alloc: Global, made: &Made, scene: &Scene) -> Result<(String, String), Fail> {
    let Life { text, disk } = lived(alloc, made, scene)?;
    let content = disk.into_content();
    let hash = digest(alloc, &content)?;
    Ok((text, hash))
}

/// Plays a scene with these statements, and compares.
pub fn plays_with(rt: &impl Abort, alloc: Global, made: &Made, scene: &Scene) -> Result<(), Fail> {
    let (text, hash) = outcome(alloc, made, scene)?;
    assert_eq!(rt; text.as_str(), scene.told);
    if let Some(file) = scene.file {
        assert_eq!(rt; hash.as_str(), file);
    }
    Ok(())
}

/// Plays a scene, and compares.
pub fn plays(rt: &impl Abort, alloc: Global, scene: &Scene) -> Result<(), Fail> {
    let made = make(alloc, scene.drafts)?;
    plays_with(rt, alloc, &made, scene)
}
