// Statements, named before they are made.
use cbor_core::Bytes;
use hss_keys::Key60;
use std::alloc::Global;
use std::test::Fail;
use test_cast::{Cast, document, genesis, issued, new_cast, ruled};

/// The algorithm -46 of COSE, HSS/LMS (RFC 8778, 2).
pub const HSS_LMS: &[u8] = &[0x38, 0x2d];

/// The algorithm -7 of COSE, ES256 (RFC 9053, 2.1).
pub const ES256: &[u8] = &[0x26];

/// A statement of the governor or of the issuer, each with an index of its key.
#[derive(Clone, Copy)]
pub enum Draft {
    /// The governor's policy of version 1, which admits all of the issuer. Its index is 0.
    Genesis,
    /// The governor's policy of this version, which names no issuer.
    Removing {
        version: u32,
        index: u64,
    },
    /// The issuer's statement with this algorithm and a payload of one byte.
    Issued {
        index: u64,
        alg: &'static [u8],
        payload: u8,
    },
    /// The issuer's statements at so many indices from 0 on, each with its index for a payload.
    Series(u8),
}

/// Statements, and the governor's key.
#[derive(Drop)]
pub struct Made {
    pub statements: Vec<Bytes>,
    pub governor: Key60,
}

fn removing(alloc: Global, cast: &mut Cast, version: u32, index: u64) -> Result<Bytes, Fail> {
    let payload = document(alloc, cast, version, None)?;
    ruled(alloc, cast, index, payload.as_slice())
}

fn put_series(alloc: Global, out: &mut Vec<Bytes>, cast: &mut Cast, count: u8) -> Result<(), Fail> {
    for index in 0..count {
        out.push(issued(alloc, cast, u64::from(index), HSS_LMS, &[index])?)?;
    }
    Ok(())
}

fn put(alloc: Global, out: &mut Vec<Bytes>, cast: &mut Cast, draft: &Draft) -> Result<(), Fail> {
    let statement = match *draft {
        Draft::Genesis => genesis(alloc, cast)?,
        Draft::Removing { version, index } => removing(alloc, cast, version, index)?,
        Draft::Issued {
            index,
            alg,
            payload,
        } => issued(alloc, cast, index, alg, &[payload])?,
        Draft::Series(count) => return put_series(alloc, out, cast, count),
    };
    Ok(out.push(statement)?)
}

fn statements(alloc: Global, cast: &mut Cast, drafts: &[Draft]) -> Result<Vec<Bytes>, Fail> {
    let mut made = Vec::new(alloc);
    for draft in drafts {
        put(alloc, &mut made, cast, draft)?;
    }
    Ok(made)
}

/// These statements. Nothing else owns the keys.
pub fn make(alloc: Global, drafts: &[Draft]) -> Result<Made, Fail> {
    let mut cast = new_cast(alloc)?;
    let statements = statements(alloc, &mut cast, drafts)?;
    Ok(Made {
        statements,
        governor: cast.governor.public(),
    })
}
