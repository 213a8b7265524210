// Key files to test with: one level of height 5 and w = 8, with a seed of sevens and an identifier of nines.
use hss_keys::{Level, Levels, LmsType, OtsType};
use key_store::{KeyFile, KeyStop};
use scitt_disk::{Disk, MemDisk};
use scitt_journal::{Ledger, Refused};
use std::alloc::{AllocError, Global};

/// One level of height 5 and w = 8: 32 indices.
pub fn one_level() -> Option<Levels> {
    Levels::of(&[Level {
        lms: LmsType::H5,
        ots: OtsType::W8,
    }])
}

/// A key file on this disk that reserves this block; `None` where the block isn't 1 to 64.
pub fn made_on<D: Disk>(
    alloc: Global,
    disk: D,
    block: u32,
) -> Option<Result<KeyFile<D>, Refused<D, KeyStop>>>
where
    D: Drop,
{
    let levels = one_level()?;
    if block == 0 || block > 64 {
        return None;
    }
    Some(KeyFile::create(alloc, disk, [7; 32], [9; 16], levels, block))
}

/// The file of a journal of these bodies; `None` where one of them can't be added.
pub fn log_of(alloc: Global, bodies: &[Vec<u8>]) -> Result<Option<Vec<u8>>, AllocError> {
    if bodies.is_empty() || bodies[0].is_empty() || bodies[0].len() > 1000 {
        return Ok(None);
    }
    let disk = MemDisk::new(Vec::new(alloc), Vec::new(alloc));
    let Ok(mut ledger) = Ledger::create(alloc, disk, &bodies[0]) else {
        return Ok(None);
    };
    for body in &bodies[1..] {
        ledger.reserve_buffer(1000)?;
        if body.is_empty() || body.len() > 1000 || !ledger.is_settled() || ledger.count() > 1000 {
            return Ok(None);
        }
        if ledger.write(body).is_err() {
            return Ok(None);
        }
    }
    Ok(Some(ledger.close().into_content()))
}
