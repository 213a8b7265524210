// `sign` over a disk that stops: no index that a printed statement carries is given again.
use hss_keys::{Level, Levels, LmsType, OtsType, flat_index};
use key_store::KeyFile;
use scitt_disk::{Disk, FuseDisk, MemDisk};
use scitt_io::{MemFolder, MemSink, MemSource, Words};
use scitt_tool::run_tool;
use statement::parse;
use std::alloc::{AllocError, Global};
use std::test::Fail;

// One level of height 5 and w = 1, whose tree is made by few hashes.
fn quick_level() -> Level {
    Level {
        lms: LmsType::H5,
        ots: OtsType::W1,
    }
}

// The bytes of a key file that reserves one index at a time, of which none is given yet.
fn new_key_file(alloc: Global) -> Result<Vec<u8>, Fail> {
    let levels = Levels::of(&[quick_level()]).ok_or("no levels")?;
    let disk = MemDisk::new(Vec::new(alloc), Vec::new(alloc));
    match KeyFile::create(alloc, disk, [7; 32], [9; 16], levels, 1) {
        Ok(file) => Ok(file.close().into_content()),
        Err(_) => Err("no key file".into()),
    }
}

// The index that a statement's signature carries.
fn index_in(alloc: Global, bytes: &[u8]) -> Result<u64, Fail> {
    let levels = Levels::of(&[quick_level()]).ok_or("no levels")?;
    match parse(alloc, bytes) {
        Ok(statement) => {
            Ok(flat_index(&levels, statement.signature.as_slice()).ok_or("no index")?)
        }
        Err(_) => Err("no statement".into()),
    }
}

fn words(alloc: Global) -> Result<Words, AllocError> {
    let mut words = Words::new(alloc);
    for text in ["sign", "acme", "pkg", "text/plain", "-", "-", "f"] {
        words.push(text)?;
    }
    Ok(words)
}

fn payload(alloc: Global) -> Result<MemFolder, AllocError> {
    let mut files = Vec::new(alloc);
    files.push((
        String::from_str(alloc, "f")?,
        Vec::from_slice(alloc, b"hi")?,
    ))?;
    Ok(MemFolder::new(files, Vec::new(alloc)))
}

// Signs by the tool, and gives the index that the printed statement carries; none where the disk failed, and nothing is printed but that.
fn signed<D: Disk>(alloc: Global, key: &mut D) -> Result<Option<u64>, Fail> {
    let mut files = payload(alloc)?;
    let mut out = MemSink::new(alloc, Vec::new(alloc));
    let mut random = MemSource::new(Vec::new(alloc), Vec::new(alloc));
    let words = words(alloc)?;
    let status = run_tool(alloc, &words, &mut files, key, &mut random, &mut out);
    let text = out.into_content();
    if status == 0 {
        return Ok(Some(index_in(alloc, &text)?));
    }
    if status == 6 && text.as_slice() == b"disk fault\n".as_slice() {
        return Ok(None);
    }
    Err("another answer".into())
}

// Signs three times over a fuse that passes so many calls. It gives the disk, and one more than the greatest index of a printed statement; each
// one's is above those before.
fn stopped(alloc: Global, content: &[u8], passes: u32) -> Result<(MemDisk, u64), Fail> {
    let disk = MemDisk::new(Vec::from_slice(alloc, content)?, Vec::new(alloc));
    let mut fuse = FuseDisk::new(disk, passes);
    let mut above = 0u64;
    for _ in 0..3 {
        if let Some(index) = signed(alloc, &mut fuse)? {
            if index < above {
                return Err("an index is given twice".into());
            }
            above = index.saturating_add(1);
        }
    }
    Ok((fuse.into_disk(), above))
}

// The index that an image gives next.
fn next_of(alloc: Global, image: MemDisk) -> Result<u64, Fail> {
    match KeyFile::load(alloc, image) {
        Ok(mut file) => Ok(file.take_index(alloc).map_err(|_| "no index")?),
        Err(_) => Err("an image isn't loaded".into()),
    }
}

#[test]
fn no_printed_index_is_given_again(rt: HostRuntime) -> Result<(), Fail> {
    let alloc = rt.alloc();
    let content = new_key_file(alloc)?;
    let mut last = 0;
    for passes in 0..60 {
        let (disk, above) = stopped(alloc, &content, passes)?;
        for pick in 0..8 {
            let next = next_of(alloc, disk.crash(pick)?)?;
            assert!(rt; next >= above, "after {passes} calls, pick {pick}");
        }
        assert!(rt; above >= last);
        last = above;
    }
    assert_eq!(rt; last, 3, "sixty calls are enough for three statements");
    Ok(())
}
