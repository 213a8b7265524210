use scitt_disk::MemDisk;
use scitt_journal::{Journal, LoadStop};
use std::alloc::{AllocError, Global};

/// What a journal's file says, as text: its rest and its bodies, or why it isn't loaded.
pub fn records_of(alloc: Global, bytes: Vec<u8>) -> Result<(String, u64), AllocError> {
    let mut text = String::new(alloc);
    let disk = MemDisk::new(bytes, Vec::new(alloc));
    let mut journal = match Journal::load(alloc, disk) {
        Ok(journal) => journal,
        Err(refused) => {
            text.push_str(name_of(refused.why))?;
            return Ok((text, place_of(refused.why)));
        }
    };
    for number in 0..journal.count() {
        if number < journal.count() {
            match journal.body(alloc, number) {
                Ok(body) => write!(text, "{body:?}")?,
                Err(_) => text.push_str("fault")?,
            }
        }
    }
    Ok((text, journal.rest()))
}

fn name_of(why: LoadStop) -> &'static str {
    match why {
        LoadStop::NoLog => "NoLog",
        LoadStop::Short(_) => "Short",
        LoadStop::DiskFault => "DiskFault",
        LoadStop::OutOfMemory => "OutOfMemory",
    }
}

fn place_of(why: LoadStop) -> u64 {
    match why {
        LoadStop::Short(at) => at,
        _ => 0,
    }
}
