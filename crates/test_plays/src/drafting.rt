// The statements of a play, and the keys behind them.
use cbor_core::{Bytes, Text};
use hss_keys::{Key60, Level, Levels, LmsType, OtsType, Signer};
use policy_rules::{Cond, CondNode};
use registrar::Params;
use std::alloc::Global;
use std::test::Fail;
use test_cast::{Cast, POLICY, Said, document, genesis, holder, issued, ruled, signed};

/// A statement, by what it says and the index that it is signed at.
#[derive(Clone, Copy)]
pub enum Drafted {
    /// The governor's policy of version 1 that admits all of the issuer, at index 0.
    Genesis,
    /// The governor's policy of this version that names no issuer.
    Removing {
        version: u32,
        index: u64,
    },
    /// The governor's policy of this version that admits the issuer while the log has fewer than so many entries of it.
    Counting {
        version: u32,
        below: u64,
        index: u64,
    },
    /// The governor's policy statement with this payload.
    Ruled {
        index: u64,
        payload: &'static [u8],
    },
    /// The issuer's statement with this payload and this algorithm, which is spelled, or empty where there is none.
    Issued {
        index: u64,
        alg: &'static [u8],
        payload: &'static [u8],
    },
    /// A policy statement that the issuer signs in its own name.
    Usurped {
        index: u64,
        payload: &'static [u8],
    },
    /// A statement in the issuer's name that the governor signs.
    Forged {
        index: u64,
        payload: &'static [u8],
    },
}

// The governor's policy statement of this version; the issuer is named where it has a condition.
fn policy(
    alloc: Global,
    cast: &mut Cast,
    index: u64,
    version: u32,
    cond: Option<Cond>,
) -> Result<Bytes, Fail> {
    let payload = document(alloc, cast, version, cond)?;
    ruled(alloc, cast, index, payload.as_slice())
}

fn in_the_issuers_name(kind: &'static str, sub: &'static str) -> Said {
    Said {
        alg: &[0x38, 0x2d],
        kind,
        kid: 2,
        iss: "acme",
        sub,
    }
}

fn usurped(alloc: Global, cast: &mut Cast, index: u64, payload: &[u8]) -> Result<Bytes, Fail> {
    let said = in_the_issuers_name(POLICY, "policy");
    signed(alloc, &mut cast.issuer, index, &said, payload)
}

fn forged(alloc: Global, cast: &mut Cast, index: u64, payload: &[u8]) -> Result<Bytes, Fail> {
    let said = in_the_issuers_name("text/plain", "pkg-0");
    signed(alloc, &mut cast.governor, index, &said, payload)
}

fn make_statement(alloc: Global, cast: &mut Cast, draft: Drafted) -> Result<Bytes, Fail> {
    match draft {
        Drafted::Genesis => genesis(alloc, cast),
        Drafted::Removing { version, index } => policy(alloc, cast, index, version, None),
        Drafted::Counting {
            version,
            below,
            index,
        } => {
            let node = CondNode::CountBelow(below);
            policy(alloc, cast, index, version, Some(Cond { node }))
        }
        Drafted::Ruled { index, payload } => ruled(alloc, cast, index, payload),
        Drafted::Issued {
            index,
            alg,
            payload,
        } => issued(alloc, cast, index, alg, payload),
        Drafted::Usurped { index, payload } => usurped(alloc, cast, index, payload),
        Drafted::Forged { index, payload } => forged(alloc, cast, index, payload),
    }
}

fn statements(alloc: Global, cast: &mut Cast, drafts: &[Drafted]) -> Result<Vec<Bytes>, Fail> {
    let mut all = Vec::new(alloc);
    for draft in drafts {
        all.push(make_statement(alloc, cast, *draft)?)?;
    }
    Ok(all)
}

fn levels(ots: OtsType) -> Result<Levels, Fail> {
    let lms = LmsType::H5;
    Ok(Levels::of(&[Level { lms, ots }]).ok_or("no levels")?)
}

fn cast(alloc: Global, ots: OtsType) -> Result<Cast, Fail> {
    let governor = Signer::new(alloc, [0x11; 32], [0x12; 16], levels(ots)?)?;
    let issuer = Signer::new(alloc, [0x21; 32], [0x22; 16], levels(ots)?)?;
    Ok(Cast { governor, issuer })
}

/// What a play is played with: the bytes of its statements, the governor's key, and what signs.
#[derive(Drop)]
pub struct Props {
    pub statements: Vec<Bytes>,
    pub governor: Key60,
    pub ots: OtsType,
}

/// These statements, signed by keys of one level of height 5.
pub fn make_props(alloc: Global, ots: OtsType, drafts: &[Drafted]) -> Result<Props, Fail> {
    let mut cast = cast(alloc, ots)?;
    let governor = cast.governor.public();
    let statements = statements(alloc, &mut cast, drafts)?;
    Ok(Props {
        statements,
        governor,
        ots,
    })
}

/// What the log `log` is made of.
pub fn params_of(
    alloc: Global,
    props: &Props,
    max_entries: u32,
    block: u32,
) -> Result<Params, Fail> {
    Ok(Params {
        name: Text::from_str(alloc, "log")?,
        governor: holder(alloc, "gov", 1, props.governor)?,
        levels: levels(props.ots)?,
        max_entries,
        block,
    })
}
