// Files that aren't key files.
use crate::making::log_of;
use key_store::{KeyFile, KeyStop};
use scitt_disk::MemDisk;
use std::alloc::{AllocError, Global};
use std::test::Fail;

// A first record: version, a seed and an identifier of these lengths, the bytes of the levels and of the block.
fn first(
    alloc: Global,
    version: u8,
    seed: u8,
    id: u8,
    levels: &[u8],
    block: &[u8],
) -> Result<Vec<u8>, AllocError> {
    let mut body = [0x86, 0, version, 0x58, seed].to_vec(alloc)?;
    for _ in 0..seed {
        body.push(7)?;
    }
    body.push(0x40 | (id & 31))?;
    for _ in 0..id {
        body.push(9)?;
    }
    body.extend_from_slice(levels)?;
    body.extend_from_slice(block)?;
    Ok(body)
}

const ONE: [u8; 4] = [0x81, 0x82, 5, 4];

fn why_of(alloc: Global, bodies: &[Vec<u8>]) -> Result<Option<KeyStop>, AllocError> {
    let Some(content) = log_of(alloc, bodies)? else {
        return Ok(None);
    };
    match KeyFile::load(alloc, MemDisk::new(content, Vec::new(alloc))) {
        Ok(_) => Ok(None),
        Err(refused) => Ok(Some(refused.why)),
    }
}

#[test]
fn the_first_record_has_its_limits(rt: HostRuntime) -> Result<(), Fail> {
    let alloc = rt.alloc();
    let good = first(alloc, 1, 32, 16, &ONE, &[3])?;
    assert!(rt; why_of(alloc, &[good])?.is_none());
    let three = [0x83, 0x82, 5, 4, 0x82, 6, 1, 0x82, 5, 2];
    let good = first(alloc, 1, 32, 16, &three, &[0x18, 64])?;
    assert!(rt; why_of(alloc, &[good])?.is_none());
    let four = [0x84, 0x82, 5, 4, 0x82, 5, 4, 0x82, 5, 4, 0x82, 5, 4];
    let bad = [
        first(alloc, 2, 32, 16, &ONE, &[3])?,
        first(alloc, 1, 31, 16, &ONE, &[3])?,
        first(alloc, 1, 32, 15, &ONE, &[3])?,
        first(alloc, 1, 32, 16, &[0x80], &[3])?,
        first(alloc, 1, 32, 16, &four, &[3])?,
        first(alloc, 1, 32, 16, &[0x81, 0x82, 7, 4], &[3])?,
        first(alloc, 1, 32, 16, &[0x81, 0x82, 10, 4], &[3])?,
        first(alloc, 1, 32, 16, &[0x81, 0x82, 5, 5], &[3])?,
        first(alloc, 1, 32, 16, &[0x81, 0x81, 5], &[3])?,
        first(alloc, 1, 32, 16, &ONE, &[0])?,
        first(alloc, 1, 32, 16, &ONE, &[0x18, 65])?,
        first(alloc, 1, 32, 16, &ONE, &[0x18, 3])?,
        first(alloc, 1, 32, 16, &ONE, &[3, 0])?,
        [0x82, 1, 3].to_vec(alloc)?,
        [0xf6].to_vec(alloc)?,
    ];
    let mut number = 0u32;
    for body in bad {
        let why = why_of(alloc, &[body])?;
        assert!(rt;
            why == Some(KeyStop::BadKeyFile(0)),
            "first record {number}"
        );
        number = number.saturating_add(1);
    }
    Ok(())
}

#[test]
fn a_later_record_is_a_reservation_that_holds(rt: HostRuntime) -> Result<(), Fail> {
    let alloc = rt.alloc();
    // the number reserved so far, a record, and whether it fits; the block is 3 and the capacity 32
    let rows: [(u8, &[u8], bool); 10] = [
        (3, &[0x82, 1, 6], true),
        (3, &[0x82, 1, 4], true),
        (3, &[0x82, 1, 7], false),
        (3, &[0x82, 1, 3], false),
        (3, &[0x82, 1, 2], false),
        (3, &[0x82, 2, 4], false),
        (3, &[0x83, 1, 4, 0], false),
        (3, &[0x82, 1, 0x18, 4], false),
        (3, &[0x82, 1, 0x24], false),
        (3, &[0xf6], false),
    ];
    for (last, body, fits) in rows {
        let head = first(alloc, 1, 32, 16, &ONE, &[3])?;
        let bodies = [head, [0x82, 1, last].to_vec(alloc)?, body.to_vec(alloc)?];
        let why = why_of(alloc, &bodies)?;
        if fits {
            assert!(rt; why.is_none(), "{body:?}");
        } else {
            assert!(rt; why == Some(KeyStop::BadKeyFile(2)), "{body:?}");
        }
    }
    let head = first(alloc, 1, 32, 16, &ONE, &[0x18, 40])?;
    let again = first(alloc, 1, 32, 16, &ONE, &[0x18, 40])?;
    assert!(rt; why_of(alloc, &[head, again])? == Some(KeyStop::BadKeyFile(1)));
    let head = first(alloc, 1, 32, 16, &ONE, &[0x18, 40])?;
    let all = [0x82, 1, 0x18, 32].to_vec(alloc)?;
    assert!(rt; why_of(alloc, &[head, all])?.is_none(), "all at once");
    let head = first(alloc, 1, 32, 16, &ONE, &[0x18, 40])?;
    let more = [0x82, 1, 0x18, 33].to_vec(alloc)?;
    assert!(rt;
        why_of(alloc, &[head, more])? == Some(KeyStop::BadKeyFile(1)),
        "past the capacity"
    );
    Ok(())
}

#[test]
fn a_file_without_a_whole_log_isn_t_loaded(rt: HostRuntime) -> Result<(), Fail> {
    let alloc = rt.alloc();
    let rows: [(&[u8], KeyStop); 4] = [
        (&[], KeyStop::NoKey),
        (&[0, 0, 0, 0, 1, 2, 0], KeyStop::NoKey),
        (&[1, 0, 0, 0, 1, 2], KeyStop::Short(0)),
        (&[1, 0, 0, 0, 1, 2, 1, 0, 0, 0, 9], KeyStop::Short(6)),
    ];
    for (bytes, expected) in rows {
        let Err(refused) = KeyFile::load(alloc, MemDisk::new(bytes.to_vec(alloc)?, Vec::new(alloc)))
        else {
            return Err(Fail::new("a key file"));
        };
        assert!(rt; refused.why == expected, "{bytes:?}");
    }
    Ok(())
}
