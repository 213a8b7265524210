//! Runs of the tool over memory forms, for the tests.
use scitt_disk::{Disk, MemDisk};
use scitt_io::{MemFolder, MemSink, MemSource, Words};
use scitt_tool::{Status, run_tool};
use std::alloc::{AllocError, Global};

/// A folder with the one file `f`.
pub fn folder(alloc: Global, bytes: &[u8], fails: &[u32]) -> Result<MemFolder, AllocError> {
    let mut files = Vec::new(alloc);
    files.push((
        String::from_str(alloc, "f")?,
        Vec::from_slice(alloc, bytes)?,
    ))?;
    Ok(MemFolder::new(files, Vec::from_slice(alloc, fails)?))
}

/// These words.
pub fn words(alloc: Global, texts: &[&str]) -> Result<Words, AllocError> {
    let mut words = Words::new(alloc);
    for text in texts {
        words.push(text)?;
    }
    Ok(words)
}

/// A disk in memory without a key, and a source without random bytes, neither of which fails.
pub fn no_key(alloc: Global) -> (MemDisk, MemSource) {
    let disk = MemDisk::new(Vec::new(alloc), Vec::new(alloc));
    let source = MemSource::new(Vec::new(alloc), Vec::new(alloc));
    (disk, source)
}

/// The status and the text of these words over the file `f`.
pub fn run(alloc: Global, texts: &[&str], bytes: &[u8]) -> Result<(Status, Vec<u8>), AllocError> {
    let mut files = folder(alloc, bytes, &[])?;
    let mut out = MemSink::new(alloc, Vec::new(alloc));
    let (mut key, mut random) = no_key(alloc);
    let words = words(alloc, texts)?;
    let status = run_tool(alloc, &words, &mut files, &mut key, &mut random, &mut out);
    Ok((status, out.into_content()))
}

/// The same over a key file and random bytes.
pub fn run_with<D: Disk>(
    alloc: Global,
    texts: &[&str],
    bytes: &[u8],
    key: &mut D,
    random: &[u8],
) -> Result<(Status, Vec<u8>), AllocError> {
    let mut files = folder(alloc, bytes, &[])?;
    let mut out = MemSink::new(alloc, Vec::new(alloc));
    let mut random = MemSource::new(Vec::from_slice(alloc, random)?, Vec::new(alloc));
    let words = words(alloc, texts)?;
    let status = run_tool(alloc, &words, &mut files, key, &mut random, &mut out);
    Ok((status, out.into_content()))
}

/// The status and the text of these words over the files `a` and `b`, with so many calls of the folder that fail.
pub fn run_two(
    alloc: Global,
    texts: &[&str],
    first: &[u8],
    second: &[u8],
    fails: &[u32],
) -> Result<(Status, Vec<u8>), AllocError> {
    let mut files = Vec::new(alloc);
    files.push((
        String::from_str(alloc, "a")?,
        Vec::from_slice(alloc, first)?,
    ))?;
    files.push((
        String::from_str(alloc, "b")?,
        Vec::from_slice(alloc, second)?,
    ))?;
    let mut files = MemFolder::new(files, Vec::from_slice(alloc, fails)?);
    let mut out = MemSink::new(alloc, Vec::new(alloc));
    let (mut key, mut random) = no_key(alloc);
    let words = words(alloc, texts)?;
    let status = run_tool(alloc, &words, &mut files, &mut key, &mut random, &mut out);
    Ok((status, out.into_content()))
}
