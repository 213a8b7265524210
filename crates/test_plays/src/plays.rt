// Plays on one disk, told from their beginning to the file that they leave.
use crate::drafting::{Drafted, Props, make_props, params_of};
use crate::lives::{Life, loads, makes};
use crate::steps::Step;
use hss_keys::OtsType;
use scitt_disk::MemDisk;
use std::alloc::Global;
use std::test::Fail;
use test_cast::{digest, fresh};

/// One life of the log, on the disk that the one before left.
#[derive(Clone, Copy)]
pub enum Act {
    /// It is made, and asked so.
    Made(&'static [Step]),
    /// It is loaded, and asked so.
    Loaded(&'static [Step]),
    /// It is loaded by another seed.
    LoadedByAnother,
}

/// A play whose keys have w = 1.
#[derive(Clone, Copy)]
pub struct Play {
    pub drafts: &'static [Drafted],
    pub max_entries: u32,
    pub block: u32,
    /// The calls at which the disk fails.
    pub fails: &'static [u32],
    pub acts: &'static [Act],
}

fn acted(
    alloc: Global,
    play: &Play,
    props: &Props,
    disk: MemDisk,
    act: Act,
) -> Result<Life<MemDisk>, Fail> {
    match act {
        Act::Made(steps) => {
            let params = params_of(alloc, props, play.max_entries, play.block)?;
            makes(alloc, disk, params, &props.statements, steps)
        }
        Act::Loaded(steps) => loads(alloc, disk, [7; 32], &props.statements, steps),
        Act::LoadedByAnother => loads(alloc, disk, [8; 32], &props.statements, &[]),
    }
}

fn all_acted(alloc: Global, play: &Play, props: &Props) -> Result<Life<MemDisk>, Fail> {
    let mut text = String::new(alloc);
    let mut disk = fresh(alloc, play.fails)?;
    for act in play.acts {
        let life = acted(alloc, play, props, disk, *act)?;
        text.push_str(life.text.as_str())?;
        disk = life.disk;
    }
    Ok(Life { text, disk })
}

/// What is told in a play with these statements, and the SHA-256 of the file that it leaves.
pub fn told_with(alloc: Global, play: &Play, props: &Props) -> Result<String, Fail> {
    let life = all_acted(alloc, play, props)?;
    let text = life.text;
    let hash = digest(alloc, &life.disk.into_content())?;
    Ok(format!(in alloc; "{text}file {hash}\n")?)
}

/// The same with the play's own statements.
pub fn told_play(alloc: Global, play: &Play) -> Result<String, Fail> {
    let props = make_props(alloc, OtsType::W1, play.drafts)?;
    told_with(alloc, play, &props)
}
