// One-time keys.

use crate::vectors::{ONE_TIME, OneTime};
use hex::FromHex;
use lms_ots::{
    Hash, OtsAt, OtsStop, OtsType, ots_key_into, ots_public_from, ots_sig_len, ots_sign_into,
    ots_type,
};
use sha2::{Digest, Sha256};
use std::process::Abort;
use std::test::Fail;

#[test]
fn types_have_their_codes_and_lengths(rt: HostRuntime) {
    let table = [
        (1, Some(OtsType::W1), 8516),
        (2, Some(OtsType::W2), 4292),
        (3, Some(OtsType::W4), 2180),
        (4, Some(OtsType::W8), 1124),
    ];
    for (code, kind, len) in table {
        assert_eq!(rt; ots_type(code), kind);
        assert_eq!(rt; kind.map(|kind| ots_sig_len(kind)), Some(len));
    }
    for code in [0, 5, 6, 255, 256, 0x0400_0000, u32::MAX] {
        assert_eq!(rt; ots_type(code), None);
    }
}

#[test]
fn a_signature_without_a_type_or_of_another_length_has_no_key(rt: HostRuntime) {
    let at = OtsAt { id: [7; 16], q: 9 };
    let mut sig = [0; 1125];
    sig[3] = 4;
    assert_eq!(rt;
        ots_public_from(&at, &sig[..3], b"abc"),
        Err(OtsStop::BadType)
    );
    assert_eq!(rt;
        ots_public_from(&at, &sig[..1123], b"abc"),
        Err(OtsStop::BadLength)
    );
    assert_eq!(rt;
        ots_public_from(&at, &sig[..1125], b"abc"),
        Err(OtsStop::BadLength)
    );
    assert_eq!(rt;
        ots_public_from(&at, &sig[..4], b"abc"),
        Err(OtsStop::BadLength)
    );
    assert!(rt; ots_public_from(&at, &sig[..1124], b"abc").is_ok());
    sig[3] = 5;
    assert_eq!(rt;
        ots_public_from(&at, &sig[..1124], b"abc"),
        Err(OtsStop::BadType)
    );
}

#[test]
fn keys_and_signatures_equal_those_of_another_implementation(rt: HostRuntime) -> Result<(), Fail> {
    for case in &ONE_TIME {
        let kind = ots_type(case.code).ok_or("an unknown code")?;
        let at = named(case)?;
        let seed = Hash::from_hex(case.seed)?;
        let public = Hash::from_hex(case.public)?;
        let message = hex::decode(rt.alloc(), case.message)?;
        assert_eq!(rt; ots_sig_len(kind), case.len);
        assert_eq!(rt; ots_key_into(kind, &at, &seed), public);
        let mut sig = vec![in rt.alloc(); 0; ots_sig_len(kind)]?;
        ots_sign_into(kind, &at, &seed, &message, &mut sig);
        assert_eq!(rt;
            Sha256::digest(sig.as_slice()),
            Hash::from_hex(case.digest)?
        );
        assert_eq!(rt; ots_public_from(&at, &sig, &message), Ok(public));
        let len = sig.len();
        for place in [4, 35, 36, 67, 68, len / 2, len - 32, len - 1] {
            if place < sig.len() {
                sig[place] ^= 0x10;
                differs(&rt, &at, &sig, &message, &public);
                sig[place] ^= 0x10;
            }
        }
        differs(&rt, &at, &sig, b"abd", &public);
        differs(&rt, &OtsAt { id: at.id, q: 4 }, &sig, &message, &public);
        differs(
            &rt,
            &OtsAt {
                id: [1; 16],
                q: at.q,
            },
            &sig,
            &message,
            &public,
        );
    }
    Ok(())
}

fn named(case: &OneTime) -> Result<OtsAt, Fail> {
    Ok(OtsAt {
        id: <[u8; 16]>::from_hex(case.id)?,
        q: case.q,
    })
}

// The candidate key isn't `public`.
fn differs(rt: &impl Abort, at: &OtsAt, sig: &[u8], message: &[u8], public: &Hash) {
    let candidate = ots_public_from(at, sig, message);
    assert!(rt; candidate.is_ok());
    assert_ne!(rt; candidate, Ok(*public));
}
